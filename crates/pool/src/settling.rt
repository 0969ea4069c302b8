//! `settle_all`: settles the results of the queue together, under the lock.
ghost use Rattle.std.specs.Prelude.{◌≡◌, ◌+◌, ◌≤◌, ◌<◌, ◌^◌, ℕ, length, Some, IfOk, IfErr, IfNone, IfSome, MatchResult};
ghost use Rattle.std.specs.declared.option.Option.{Option};
ghost use Rattle.machine_model.specs.declared.stop.Stop.{Stop};
ghost use Rattle.kernel_model.specs.declared.answer.Outcome.{Outcome};
ghost use Rattle.kernel_model.specs.declared.answer.Answer.{Answer};
ghost use Rattle.bursts.specs.Totals.{plus, settled_totals, Fit};
ghost use Rattle.bursts.specs.Holdings.{grown};
ghost use Rattle.pool.specs.Queues.{with_taken, found_empty};
ghost use Rattle.bursts.specs.LoanIds.{loan_id, id_of_result};
ghost use Rattle.pool.specs.Settled.{Settled, Ends, SomeCoreRejects, IsOfOne, rejected_in, settling_of, ended_with, more, after, no_settling};

use crate::results::ResultQueue;
use bursts::{Bench, Naming, Rejected, Share, Totals};
use kernel::Answer;
use std::sync::Wait;

/// What a settling came to. The four numbers are what it added to the worker's share.
#[derive(Drop)]
pub struct Settling {
    /// How many results were taken back.
    pub settled: u64,
    /// How many events these are: a Turn each, and an Enter where it came to a call or a trap.
    pub events: u64,
    /// How many instructions ran in the Turns.
    pub ran: u64,
    /// The process numbers of the Turns, added up.
    pub turns: u64,
    /// The process numbers of the Enters, added up.
    pub enters: u64,
    /// The result that was not taken back, with which the settling ended.
    pub rejected: Option<Rejected>,
}

/// How many results were settled, and what they added to the worker's share, so far as none was rejected.
#[derive(Clone, Copy)]
pub(crate) struct Sums {
    pub(crate) settled: u64,
    pub(crate) totals: Totals,
}

impl Sums {
    pub(crate) fn none() -> Sums
        ensures { settling_of result ≡ no_settling }
    {
        Sums {
            settled: 0,
            totals: Totals {
                events: 0,
                ran: 0,
                turns: 0,
                enters: 0,
            },
        }
    }

    /// One result more, which added this.
    fn with(self, by: Totals) -> Sums
        requires few { (self.settled < 2 ^ 32) × (self.totals.events < 2 ^ 32) × (by.events ≤ 2) }
        requires ran { (self.totals.ran < 2 ^ 48) × (by.ran < 2 ^ 32) }
        requires turns { (self.totals.turns < 2 ^ 48) × (by.turns < 2 ^ 32) }
        requires enters { (self.totals.enters < 2 ^ 48) × (by.enters < 2 ^ 32) }
        ensures { settling_of result ≡ more (settling_of self) by }
    {
        Sums {
            settled: self.settled + 1,
            totals: Totals {
                events: self.totals.events + by.events,
                ran: self.totals.ran + by.ran,
                turns: self.totals.turns + by.turns,
                enters: self.totals.enters + by.enters,
            },
        }
    }

    /// These and later ones.
    pub(crate) fn then(self, next: Sums) -> Sums
        requires settled { (self.settled ≤ self.totals.events) × (next.settled ≤ next.totals.events) }
        requires fits { Fit (plus self.totals next.totals) }
        ensures { settling_of result ≡ after (settling_of self) (settling_of next) }
    {
        Sums {
            settled: self.settled + next.settled,
            totals: Totals {
                events: self.totals.events + next.totals.events,
                ran: self.totals.ran + next.totals.ran,
                turns: self.totals.turns + next.totals.turns,
                enters: self.totals.enters + next.totals.enters,
            },
        }
    }

    /// The settling that they come to. It ended with the result that was not taken back, if there was one.
    pub(crate) fn ended(self, rejected: Option<Rejected>) -> Settling
        ensures { result ≡ ended_with self rejected }
    {
        Settling {
            settled: self.settled,
            events: self.totals.events,
            ran: self.totals.ran,
            turns: self.totals.turns,
            enters: self.totals.enters,
            rejected,
        }
    }
}

/// What was settled, or the result that was not taken back.
pub(crate) fn accepted(settling: Settling) -> Result<Sums, Rejected>
    ensures ok { IfOk result (λ s. settling_of s ≡ settling) }
    ensures err { IfErr result (λ r. settling.rejected ≡ Some r) }
{
    let Settling {
        settled,
        events,
        ran,
        turns,
        enters,
        rejected,
    } = settling;
    match rejected {
        None => Ok(Sums {
            settled,
            totals: Totals {
                events,
                ran,
                turns,
                enters,
            },
        }),
        Some(rejected) => Err(rejected),
    }
}

/// What a result adds that was answered so.
fn totals_of_result(pid: u32, count: u32, answer: &Answer) -> Totals
    requires { (stop : Stop) × (outcome : Option Outcome) × (answer.now ≡ Answer.Settled count stop outcome) }
    ensures totals { result ≡ settled_totals pid answer.now }
    ensures process { result.turns ≡ pid }
    ensures one { IsOfOne result }
    ensures few { (result.ran < 2 ^ 32) × (result.enters < 2 ^ 32) × (1 ≤ result.events) × (result.events ≤ 2) }
{
    let entered = matches!(
        answer,
        Answer::Settled {
            outcome: Some(_),
            ..
        }
    );
    Totals {
        events: if entered { 2 } else { 1 },
        ran: u64::from(count),
        turns: u64::from(pid),
        enters: if entered { u64::from(pid) } else { 0 },
    }
}

/// Takes one result and settles it. None where there is no result.
fn settle_one<N: Naming, R: Wait>(
    rt: &R,
    bench: &mut Bench<'_, N>,
    results: &mut ResultQueue<'_, N>,
    share: &mut Share<N>,
) -> Option<Result<Totals, Rejected>>
    ensures stopped { bench.new.stopped ≡ bench.old.stopped }
    ensures none { IfNone result ((results.new ≡ found_empty results.old) × (share.new ≡ share.old)) }
    ensures some { IfSome result (λ r. MatchResult r
        (λ c. ((number : ℕ) × (quantum : ℕ) × (results.new ≡ with_taken results.old (loan_id c.turns number quantum))) × (share.new ≡ grown share.old c) × (c.turns < 2 ^ 32) × (c.ran < 2 ^ 32) × (c.enters < 2 ^ 32) × IsOfOne c × (c.events ≤ 2))
        (λ j. (results.new ≡ with_taken results.old (id_of_result j.done)) × (share.new ≡ share.old) × SomeCoreRejects j)) }
{
    let done = results.take(rt)?;
    let pid = done.pid();
    let count = done.count();
    match bench.settle_ticketed(rt, done, share) {
        Ok(answer) => Some(Ok(totals_of_result(pid, count, &answer))),
        Err(rejected) => Some(Err(rejected)),
    }
}

/// Settles the results in the queue, in their order: at most 1,024, up to the first that is not taken back.
pub(crate) fn settle_all<N: Naming, R: Wait>(
    rt: &R,
    bench: &mut Bench<'_, N>,
    results: &mut ResultQueue<'_, N>,
    share: &mut Share<N>,
) -> Settling
    ensures stopped { bench.new.stopped ≡ bench.old.stopped }
    ensures settled { Settled results.old.hand share.old result results.new.hand share.new }
    ensures ended { Ends results.old result results.new }
    ensures most { result.settled + length (rejected_in result.rejected) ≤ 1024 }
{
    let mut sums = Sums::none();
    for _ in 0..1024u64 {
        match settle_one(rt, bench, results, share) {
            Some(Ok(by)) => sums = sums.with(by),
            Some(Err(rejected)) => return sums.ended(Some(rejected)),
            None => return sums.ended(None),
        }
    }
    sums.ended(None)
}

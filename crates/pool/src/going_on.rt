//! `Seat::turn_on`: a turn of a worker of a crew (`pool_crew`), in which a process goes on after its calls, past the queue of results.
ghost use Rattle.std.specs.Prelude.{◌≡◌, option_map, MatchResult};
ghost use Rattle.bursts.specs.LoanIds.{id_of_loan, id_of_result};
ghost use Rattle.pool.specs.GoingOn.{ComesBack, EndsAt, GoesOnce, HeldTimes, RunsOn, TurnsOn, with_share};

use crate::locking::lock_soon;
use crate::seats::Seat;
use bursts::{Bench, Gate, Naming, Rejected, Share, TicketedDone, TicketedLoan, WorkFault};
use std::sync::Wait;

/// How often a process goes on in one turn at most, so that a worker comes to other processes too.
const MOST_IN_A_ROW: u32 = 64;

/// Holds the gate with a loan's process, and runs the loan.
pub(crate) fn run_held<N: Naming, G: Gate>(gate: &mut G, loan: TicketedLoan<N>) -> TicketedDone<N>
    ensures gate { G.holds gate.old loan.pid gate.new }
    ensures done { id_of_result result ≡ id_of_loan loan }
{
    gate.hold(loan.pid());
    loan.run()
}

/// Takes a result back, and lends its process again (`Bench::go_on`).
fn go_on<N: Naming, R: Wait>(
    rt: &R,
    bench: &mut Bench<'_, N>,
    share: &mut Share<N>,
    done: TicketedDone<N>,
) -> Result<Option<TicketedLoan<N>>, Rejected>
    ensures { MatchResult result (λ given. GoesOnce share.old (id_of_result done) share.new (option_map id_of_loan given)) (ComesBack share.old (id_of_result done) share.new) }
{
    match bench.go_on(rt, done, share) {
        Ok((_, given)) => Ok(given),
        Err(rejected) => Err(rejected),
    }
}

/// Takes a result back.
fn settle<N: Naming, R: Wait>(
    rt: &R,
    bench: &mut Bench<'_, N>,
    share: &mut Share<N>,
    done: TicketedDone<N>,
) -> Result<(), Rejected>
    ensures { EndsAt share.old (id_of_result done) share.new result }
{
    match bench.settle_ticketed(rt, done, share) {
        Ok(_) => Ok(()),
        Err(rejected) => Err(rejected),
    }
}

impl<'p, 'b, N: Naming> Seat<'p, 'b, N> {
    /// As `go_on`, under the lock.
    fn go_on_soon<R: Wait>(
        &mut self,
        rt: &R,
        done: TicketedDone<N>,
    ) -> Result<Option<TicketedLoan<N>>, Rejected>
        ensures share { MatchResult result (λ given. GoesOnce self.old.share (id_of_result done) self.new.share (option_map id_of_loan given)) (ComesBack self.old.share (id_of_result done) self.new.share) }
        ensures rest { self.new ≡ with_share self.old self.new.share }
    {
        let pool = self.pool;
        let mut guard = lock_soon(rt, &pool.bench);
        go_on(rt, &mut *guard, &mut self.share, done)
    }

    /// As `settle`, under the lock.
    fn settle_soon<R: Wait>(&mut self, rt: &R, done: TicketedDone<N>) -> Result<(), Rejected>
        ensures share { EndsAt self.old.share (id_of_result done) self.new.share result }
        ensures rest { self.new ≡ with_share self.old self.new.share }
    {
        let pool = self.pool;
        let mut guard = lock_soon(rt, &pool.bench);
        settle(rt, &mut *guard, &mut self.share, done)
    }

    /// Runs a loan, and goes on with its process after each call, at most 64 times.
    fn run_on<G: Gate, R: Wait>(
        &mut self,
        rt: &R,
        gate: &mut G,
        loan: TicketedLoan<N>,
    ) -> Result<(), Rejected>
        ensures runs { RunsOn self.old.share (id_of_loan loan) (HeldTimes G.holds gate.old gate.new) self.new.share result }
        ensures rest { self.new ≡ with_share self.old self.new.share }
    {
        let mut loan = loan;
        for _ in 0..MOST_IN_A_ROW {
            match self.go_on_soon(rt, run_held(gate, loan)) {
                Ok(Some(next)) => loan = next,
                Ok(None) => return Ok(()),
                Err(rejected) => return Err(rejected),
            }
        }
        self.settle_soon(rt, run_held(gate, loan))
    }

    /// Fetches a loan, and runs it. Its result is taken back under the lock, and its process lent again at once for what is left of
    /// its time slice. So a process that came to a call goes on, at most 64 times. The gate is held before each run. False where
    /// there was no loan. Refused where the lending is, and where a result is not taken back.
    pub(crate) fn turn_on<G: Gate, R: Wait>(
        &mut self,
        rt: &R,
        gate: &mut G,
        quantum: u32,
    ) -> Result<bool, WorkFault>
        ensures { TurnsOn self.old quantum (HeldTimes G.holds gate.old gate.new) self.new result }
    {
        let loan = match self.fetch_ticketed(rt, quantum) {
            Ok(Some(loan)) => loan,
            Ok(None) => return Ok(false),
            Err(why) => return Err(WorkFault::Lend(why)),
        };
        match self.run_on(rt, gate, loan) {
            Ok(()) => Ok(true),
            Err(rejected) => Err(WorkFault::Settle(rejected)),
        }
    }
}

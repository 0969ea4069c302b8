//! `ResultQueue`: the queue of results as one worker has it, and the queue's rule.
ghost use Rattle.std.specs.Prelude.{◌≡◌, IfOk, MatchOption, MatchResult};
ghost use Rattle.crossbeam_queue.specs.Passes.{ruled_capacity};
ghost use Rattle.pool.specs.Queues.{new_at_queue, with_put, with_taken, found_full, found_empty};
ghost use Rattle.bursts.specs.LoanIds.{id_of_result};

use crate::hand::Hand;
use bursts::{Naming, TicketedDone};
use crossbeam_queue::protocol::{Lesson, Outcome, Protocol};
use crossbeam_queue::{Pass, RuledArrayQueue};
use notes::Notes;
use std::alloc::{AllocError, Global};
use std::marker::Model;
use std::sync::Wait;

/// How many results the queue has room for.
const ROOM: usize = 1024;

/// The rule of the queue: what went in has come out once, or is still there.
pub(crate) struct FairResults;

impl<N: Naming> Protocol<TicketedDone<N>, Hand> for FairResults {
    ghost use Rattle.bursts.specs.LoanIds.{id_of_result};
    ghost use Rattle.pool.specs.Hands.{no_hand, Balanced};

    ghost holds = { Balanced id_of_result };

    ghost first = { no_hand };
}

/// A result is put in.
struct Puts;

impl<N: Naming> Outcome<TicketedDone<N>, Hand> for Puts {
    ghost use Rattle.std.specs.Prelude.{◌≡◌};
    ghost use Rattle.bursts.specs.LoanIds.{id_of_result};
    ghost use Rattle.pool.specs.Hands.{gave};

    ghost then = { λ v x w. w ≡ gave v (id_of_result x) };
}

impl<N: Naming> Lesson<TicketedDone<N>, Hand> for Puts {
    ghost fact = { λ v items. Unit {0} };
}

/// A result is taken.
struct Takes;

impl<N: Naming> Outcome<TicketedDone<N>, Hand> for Takes {
    ghost use Rattle.std.specs.Prelude.{◌≡◌};
    ghost use Rattle.bursts.specs.LoanIds.{id_of_result};
    ghost use Rattle.pool.specs.Hands.{took};

    ghost then = { λ v x w. w ≡ took v (id_of_result x) };
}

impl<N: Naming> Lesson<TicketedDone<N>, Hand> for Takes {
    ghost fact = { λ v items. Unit {0} };
}

/// The queue of results.
pub(crate) type Results<N> = RuledArrayQueue<TicketedDone<N>, Hand, FairResults>;

/// What one worker put into the queue and took from it: a ghost token, without bytes.
type ResultPass<N> = Pass<TicketedDone<N>, Hand>;

pub(crate) fn empty_queue<N: Naming>(alloc: Global) -> Result<Results<N>, AllocError>
    ensures { IfOk result (λ q. ruled_capacity q ≡ 1024) }
{
    let (results, _pass) = Results::<N>::ruled(alloc, ROOM)?;
    Ok(results)
}

/// The queue of results as one worker has it. Contracts see what the worker put in and took, how often it found the queue full, and
/// how often empty.
#[derive(Drop)]
pub(crate) struct ResultQueue<'p, N: Naming> {
    results: &'p Results<N>,
    pass: ResultPass<N>,
    full: Notes<()>,
    empty: Notes<()>,
}

impl<'p, N: Naming> Model for ResultQueue<'p, N> {
    ghost use Rattle.pool.specs.Queues.{AtQueue};

    ghost Value = { AtQueue };

    ghost use Rattle.std.specs.Prelude.{length};
    ghost use Rattle.crossbeam_queue.specs.Passes.{view as view_of, IsPassOf};

    ghost view = { λ q. record { hand = view_of q.pass; full = length q.full.items; empty = length q.empty.items } };

    ghost invariant = { λ q. IsPassOf q.results.now q.pass };
}

impl<'p, N: Naming> ResultQueue<'p, N> {
    /// The queue as a worker has it that has put in and taken nothing.
    pub(crate) fn new(results: &'p Results<N>) -> ResultQueue<'p, N>
        ensures { result ≡ new_at_queue }
    {
        ResultQueue {
            results,
            pass: results.pass(),
            full: Notes::new(),
            empty: Notes::new(),
        }
    }

    /// Puts a result in. It comes back only where the queue was full, which is noted.
    pub(crate) fn put<R: Wait>(
        &mut self,
        rt: &R,
        done: TicketedDone<N>,
    ) -> Result<(), TicketedDone<N>>
        ensures { MatchResult result (λ _. self.new ≡ with_put self.old (id_of_result done)) (λ d. (d ≡ done) × (self.new ≡ found_full self.old)) }
    {
        let put = self.results.push_as::<Puts, R>(rt, &mut self.pass, done);
        if put.is_err() {
            self.full = self.full.and(&());
        }
        put
    }

    /// Takes a result out. There is none only where the queue was empty, which is noted.
    pub(crate) fn take<R: Wait>(&mut self, rt: &R) -> Option<TicketedDone<N>>
        ensures { MatchOption result (self.new ≡ found_empty self.old) (λ d. self.new ≡ with_taken self.old (id_of_result d)) }
    {
        let taken = self.results.pop_as::<Takes, R>(rt, &mut self.pass);
        if taken.is_none() {
            self.empty = self.empty.and(&());
        }
        taken
    }
}

//! `Seat`: a worker's place at a pool.
ghost use Rattle.std.specs.Prelude.{◌≡◌, ◌+◌, ◌≤◌, length, MatchResult};
ghost use Rattle.bursts.specs.LoanIds.{id_of_result};
ghost use Rattle.pool.specs.Queues.{with_put, found_full};
ghost use Rattle.pool.specs.Settled.{Settled, Ends, rejected_in};
ghost use Rattle.pool.specs.Seats.{with_results, with_settled};

use crate::loans::{Other, Own};
use crate::locking::lock_soon;
use crate::pools::Pool;
use crate::results::ResultQueue;
use crate::settling::{Settling, settle_all};
use crate::told::Told;
use bursts::{Done, Naming, Share, TicketedDone, TicketedLoan};
use notes::Notes;
use std::marker::Model;
use std::sync::Wait;

/// A worker's seat at a pool. It has its own deque of loans, those of the others from the next worker on and round again, and room
/// for one loan to spare. Beside them it has the queue of results, and one part of a share. Contracts see what the worker did at
/// each, and what the bench answered where it lent nothing, and to whether the work is over.
#[derive(Drop)]
pub struct Seat<'p, 'b, N: Naming> {
    pub(crate) pool: &'p Pool<'b, N>,
    pub(crate) own: Own<N>,
    pub(crate) others: Vec<Other<N>>,
    pub(crate) spare: Option<TicketedLoan<N>>,
    pub(crate) results: ResultQueue<'p, N>,
    pub(crate) share: Share<N>,
    pub(crate) told: Notes<Told>,
}

impl<'p, 'b, N: Naming> Model for Seat<'p, 'b, N> {
    ghost use Rattle.pool.specs.Seats.{Seated};

    ghost Value = { Seated };

    ghost use Rattle.std.specs.Prelude.{option_map};
    ghost use Rattle.bursts.specs.LoanIds.{id_of_loan};

    ghost view = { λ s. record { own = s.own; others = s.others.items; spare = option_map id_of_loan s.spare; results = s.results; share = s.share; told = s.told.items } };
}

impl<'p, 'b, N: Naming> Seat<'p, 'b, N> {
    /// Hands a result in. It comes back only where the queue was full, which is noted. Takes no memory.
    pub fn hand_in<R: Wait>(&mut self, rt: &R, done: Done) -> Result<(), Done>
        ensures { MatchResult result (λ _. self.new ≡ with_results self.old (with_put self.old.results (id_of_result done))) (λ d. (d ≡ done) × (self.new ≡ with_results self.old (found_full self.old.results))) }
    {
        match self.hand_in_ticketed(rt, TicketedDone::plain(done)) {
            Ok(()) => Ok(()),
            Err(back) => Err(back.into_done()),
        }
    }

    /// As `hand_in`, of a result that may have a ticket.
    pub(crate) fn hand_in_ticketed<R: Wait>(
        &mut self,
        rt: &R,
        done: TicketedDone<N>,
    ) -> Result<(), TicketedDone<N>>
        ensures { MatchResult result (λ _. self.new ≡ with_results self.old (with_put self.old.results (id_of_result done))) (λ d. (d ≡ done) × (self.new ≡ with_results self.old (found_full self.old.results))) }
    {
        self.results.put(rt, done)
    }

    /// Settles the results in the queue, of whichever worker, under the lock: at most 1,024, in their order. It ends with the first
    /// that is not taken back, which is dropped from the queue.
    pub fn settle_all<R: Wait>(&mut self, rt: &R) -> Settling
        ensures settled { Settled self.old.results.hand self.old.share result self.new.results.hand self.new.share }
        ensures ended { Ends self.old.results result self.new.results }
        ensures others { self.new ≡ with_settled self.old self.new.results self.new.share }
        ensures most { result.settled + length (rejected_in result.rejected) ≤ 1024 }
    {
        let pool = self.pool;
        let mut guard = lock_soon(rt, &pool.bench);
        settle_all(rt, &mut *guard, &mut self.results, &mut self.share)
    }

    /// Ends the seat, and gives its share back. Loans still at the seat are dropped; after a `pool_crew` without fault there are
    /// none.
    pub fn end(self) -> Share<N>
        ensures { result ≡ self.entry.share }
    {
        let Seat { share, .. } = self;
        share
    }
}

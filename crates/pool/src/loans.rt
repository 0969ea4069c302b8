//! `Own`, `Other`: the deques of loans as one worker has them, its own and those of the others.
ghost use Rattle.std.specs.Prelude.{◌≡◌, [], ◌∷◌, IfOk, MatchOption, MatchResult};
ghost use Rattle.bursts.specs.LoanIds.{id_of_loan};
ghost use Rattle.pool.specs.Deques.{new_at, put_in, took_from, missed_at};

use crate::deques::{LoanPass, Owner, Thief, empty_deque, from_other, from_own, guest, keep};
use bursts::{Naming, TicketedLoan};
use notes::Notes;
use std::alloc::{AllocError, Global};
use std::marker::Model;
use std::sync::Wait;

/// The worker's own deque. Contracts see which it is, what its pass put in and took, and how often nothing was found there.
#[derive(Drop)]
pub(crate) struct Own<N: Naming> {
    owner: Owner<N>,
    missed: Notes<()>,
}

impl<N: Naming> Model for Own<N> {
    ghost use Rattle.pool.specs.Deques.{AtDeque};

    ghost Value = { AtDeque };

    ghost use Rattle.std.specs.Prelude.{◌≡◌, length};
    ghost use Rattle.crossbeam_deque.specs.Handles.{worker_deque, worker_view, worker_flavor};

    ghost view = { λ o. record { deque = (worker_deque o.owner).0; hand = worker_view o.owner; missed = length o.missed.items } };

    ghost invariant = { λ o. worker_flavor o.owner ≡ 0 };
}

impl<N: Naming> Own<N> {
    /// An empty deque, with room for 8 loans at first.
    pub(crate) fn new(alloc: Global) -> Result<Own<N>, AllocError>
        ensures { IfOk result (λ o. o ≡ new_at o.deque) }
    {
        let owner = empty_deque(alloc)?;
        Ok(Own {
            owner,
            missed: Notes::new(),
        })
    }

    /// The same deque as another worker has it, which has taken nothing.
    pub(crate) fn other(&self) -> Result<Other<N>, AllocError>
        ensures { IfOk result (λ o. o ≡ new_at self.now.deque) }
    {
        let thief = self.owner.stealer()?;
        let pass = guest(&thief);
        Ok(Other {
            thief,
            pass,
            missed: Notes::new(),
        })
    }

    pub(crate) fn next_loan(&mut self) -> Option<TicketedLoan<N>>
        ensures { MatchOption result (self.new ≡ missed_at self.old) (λ l. self.new ≡ took_from self.old (id_of_loan l)) }
    {
        let found = from_own(&mut self.owner);
        if found.is_none() {
            self.missed = self.missed.and(&());
        }
        found
    }

    /// Keeps a loan. It comes back where there is no room.
    pub(crate) fn keep(&mut self, loan: TicketedLoan<N>) -> Result<(), TicketedLoan<N>>
        ensures { MatchResult result (λ _. self.new ≡ put_in self.old (id_of_loan loan ∷ [])) (λ l. (l ≡ loan) × (self.new ≡ self.old)) }
    {
        keep(&mut self.owner, loan)
    }
}

/// Another worker's deque. Contracts see which it is, what this worker's pass took from it, and how often this worker found nothing
/// there.
#[derive(Drop)]
pub(crate) struct Other<N: Naming> {
    thief: Thief<N>,
    pass: LoanPass<N>,
    missed: Notes<()>,
}

impl<N: Naming> Model for Other<N> {
    ghost use Rattle.pool.specs.Deques.{AtDeque};

    ghost Value = { AtDeque };

    ghost use Rattle.std.specs.Prelude.{length};
    ghost use Rattle.crossbeam_deque.specs.Handles.{view as view_of, IsPassOf, stealer_deque};

    ghost view = { λ o. record { deque = (stealer_deque o.thief).0; hand = view_of o.pass; missed = length o.missed.items } };

    ghost invariant = { λ o. IsPassOf (stealer_deque o.thief) o.pass };
}

impl<N: Naming> Other<N> {
    pub(crate) fn steal<R: Wait>(&mut self, rt: &R) -> Option<TicketedLoan<N>>
        ensures { MatchOption result (self.new ≡ missed_at self.old) (λ l. self.new ≡ took_from self.old (id_of_loan l)) }
    {
        let found = from_other(rt, &self.thief, &mut self.pass);
        if found.is_none() {
            self.missed = self.missed.and(&());
        }
        found
    }
}

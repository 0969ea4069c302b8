//! Deques of loans, and their rule.
ghost use Rattle.std.specs.Prelude.{◌≡◌, IfOk, MatchOption, MatchResult};
ghost use Rattle.crossbeam_deque.specs.Handles.{view, IsPassOf, SameWorker, worker_view, worker_flavor, worker_deque, worker_capacity, stealer_deque};
ghost use Rattle.pool.specs.Hands.{no_hand, gave, took};
ghost use Rattle.bursts.specs.LoanIds.{id_of_loan};

use crate::hand::Hand;
use bursts::{Naming, TicketedLoan};
use crossbeam_deque::protocol::{Outcome, Protocol};
use crossbeam_deque::{Pass, Steal, Stealer, Worker};
use std::alloc::{AllocError, Global};
use std::sync::Wait;

/// How many loans a deque has room for at first.
const ROOM: usize = 8;

/// The rule of a deque: what went in has come out once, or is still there.
pub(crate) struct FairLoans;

impl<N: Naming> Protocol<TicketedLoan<N>, Hand> for FairLoans {
    ghost use Rattle.bursts.specs.LoanIds.{id_of_loan};
    ghost use Rattle.pool.specs.Hands.{no_hand, Balanced};

    ghost holds = { Balanced id_of_loan };

    ghost first = { no_hand };

    ghost guest = { no_hand };
}

/// Loans are put in.
struct Puts;

impl<N: Naming> Outcome<TicketedLoan<N>, Hand> for Puts {
    ghost use Rattle.std.specs.Prelude.{◌≡◌, ◌++◌, map};
    ghost use Rattle.bursts.specs.LoanIds.{id_of_loan};
    ghost use Rattle.pool.specs.Hands.{hand};

    ghost then = { λ v xs w. w ≡ hand (v.put ++ map id_of_loan xs) v.taken };
}

/// Loans are taken.
struct Takes;

impl<N: Naming> Outcome<TicketedLoan<N>, Hand> for Takes {
    ghost use Rattle.std.specs.Prelude.{◌≡◌, ◌++◌, map};
    ghost use Rattle.bursts.specs.LoanIds.{id_of_loan};
    ghost use Rattle.pool.specs.Hands.{hand};

    ghost then = { λ v xs w. w ≡ hand v.put (v.taken ++ map id_of_loan xs) };
}

/// A deque, in the hands of the worker that owns it.
pub(crate) type Owner<N> = Worker<TicketedLoan<N>, Global, Hand, FairLoans>;

/// A deque, in the hands of another worker.
pub(crate) type Thief<N> = Stealer<TicketedLoan<N>, Global, Hand, FairLoans>;

/// What another worker took from a deque: a ghost token, without bytes.
pub(crate) type LoanPass<N> = Pass<TicketedLoan<N>, Hand>;

/// An empty deque, first in, first out.
pub(crate) fn empty_deque<N: Naming>(alloc: Global) -> Result<Owner<N>, AllocError>
    ensures flavor { IfOk result (λ w. worker_flavor w ≡ 0) }
    ensures view { IfOk result (λ w. worker_view w ≡ no_hand) }
{
    Owner::<N>::fifo_as(alloc, ROOM)
}

/// A pass for another worker, which has taken nothing.
pub(crate) fn guest<N: Naming>(thief: &Thief<N>) -> LoanPass<N>
    ensures { IsPassOf (stealer_deque thief.now) result × (view result ≡ no_hand) }
{
    thief.pass()
}

/// Keeps a loan in the worker's own deque. It comes back where there is no room.
pub(crate) fn keep<N: Naming>(
    owner: &mut Owner<N>,
    loan: TicketedLoan<N>,
) -> Result<(), TicketedLoan<N>>
    ensures same { SameWorker owner.old owner.new }
    ensures put { MatchResult result (λ _. worker_view owner.new ≡ gave (worker_view owner.old) (id_of_loan loan)) (λ l. (l ≡ loan) × (worker_view owner.new ≡ worker_view owner.old)) }
{
    owner.push_as::<Puts>(loan)
}

pub(crate) fn from_own<N: Naming>(owner: &mut Owner<N>) -> Option<TicketedLoan<N>>
    requires { worker_flavor owner.old ≡ 0 }
    ensures same { SameWorker owner.old owner.new }
    ensures taken { MatchOption result (worker_view owner.new ≡ worker_view owner.old) (λ l. worker_view owner.new ≡ took (worker_view owner.old) (id_of_loan l)) }
{
    owner.pop_as::<Takes>()
}

/// A loan stolen from another worker's deque, if it has one.
pub(crate) fn from_other<N: Naming, R: Wait>(
    rt: &R,
    thief: &Thief<N>,
    pass: &mut LoanPass<N>,
) -> Option<TicketedLoan<N>>
    requires { IsPassOf (stealer_deque thief.now) pass.old }
    ensures pass { IsPassOf (stealer_deque thief.now) pass.new }
    ensures taken { MatchOption result (view pass.new ≡ view pass.old) (λ l. view pass.new ≡ took (view pass.old) (id_of_loan l)) }
{
    for _ in rt.forever() {
        match thief.steal_as::<Takes>(pass) {
            Steal::Success(loan) => return Some(loan),
            Steal::Empty => return None,
            Steal::Retry => {}
        }
    }
    unreachable!()
}

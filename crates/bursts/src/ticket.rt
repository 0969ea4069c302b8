//! `TicketedLoan`, `TicketedDone`: a loan and its result, with the ticket by which their bench knows them as its own.
ghost use Rattle.std.specs.Prelude.{◌≡◌, ◌-◌, IfSome};
ghost use Rattle.bursts.specs.Tickets.{IsTicketOf};

use crate::burst::run_loan;
use crate::naming::Naming;
use kernel::{Done, Loan, Machine};
use notes::{Entry, Receipt};
use std::marker::Model;

/// What a bench notes of a loan that it gives: of which process, its number, and the state from which it runs. It exists in proofs
/// alone: no value of it is made.
pub struct LentLoan {
    pub pid: u32,
    pub number: u64,
    pub began: Machine,
}

/// The note of a loan.
pub(crate) struct OfLoan;

impl Entry<Loan, LentLoan> for OfLoan {
    ghost use Rattle.bursts.specs.Tickets.{lent_loan};

    ghost entry_of = { λ l. lent_loan l.pid l.number l.began.value };
}

/// Shows that the bench of this name noted a loan. At run time it is a number, how many loans the bench had noted by then.
pub type Ticket<N> = Receipt<LentLoan, N>;

/// A loan with its ticket, if it has one. Contracts see the loan.
#[derive(Drop)]
pub struct TicketedLoan<N: Naming> {
    loan: Loan,
    ticket: Option<Ticket<N>>,
}

impl<N: Naming> Model for TicketedLoan<N> {
    ghost use Rattle.kernel_step.specs.declared.loan.Loan.{Loan};
    ghost use Rattle.kernel_step.specs.contracts.loan.Loan as of_type;

    ghost Value = { Loan };

    ghost coded = { of_type.the_row.coded };

    ghost use Rattle.std.specs.Prelude.{IfSome};
    ghost use Rattle.bursts.specs.Tickets.{IsTicketOf};

    ghost view = { λ t. t.loan };

    ghost invariant = { λ t. IfSome t.ticket (λ r. IsTicketOf t.loan.pid t.loan.number t.loan.began.value r) };
}

impl<N: Naming> TicketedLoan<N> {
    pub(crate) fn new(loan: Loan, ticket: Option<Ticket<N>>) -> TicketedLoan<N>
        requires { IfSome ticket (λ r. IsTicketOf loan.pid loan.number loan.began.value r) }
        ensures { result ≡ loan }
    {
        TicketedLoan { loan, ticket }
    }

    /// Of which process it is.
    pub fn pid(&self) -> u32
        ensures { result ≡ self.now.pid }
    {
        self.loan.pid
    }

    /// The loan alone.
    pub fn into_loan(self) -> Loan
        ensures { result ≡ self }
    {
        let TicketedLoan { loan, .. } = self;
        loan
    }

    /// As `run_loan`. The result has the loan's ticket; no clause says so.
    pub fn run(self) -> TicketedDone<N>
        ensures pid { result.pid ≡ self.pid }
        ensures number { result.number ≡ self.number }
        ensures quantum { result.quantum ≡ self.quantum }
        ensures began { result.began ≡ self.began }
    {
        let TicketedLoan { loan, ticket } = self;
        TicketedDone {
            done: run_loan(loan),
            ticket,
        }
    }
}

/// A loan's result with the loan's ticket, if it has one. Contracts see the result.
#[derive(Drop)]
pub struct TicketedDone<N: Naming> {
    done: Done,
    ticket: Option<Ticket<N>>,
}

impl<N: Naming> Model for TicketedDone<N> {
    ghost use Rattle.kernel_step.specs.declared.loan.Done.{Done};
    ghost use Rattle.kernel_step.specs.contracts.loan.Done as of_type;

    ghost Value = { Done };

    ghost coded = { of_type.the_row.coded };

    ghost use Rattle.std.specs.Prelude.{IfSome};
    ghost use Rattle.bursts.specs.Tickets.{IsTicketOf};

    ghost view = { λ t. t.done };

    ghost invariant = { λ t. IfSome t.ticket (λ r. IsTicketOf t.done.pid t.done.number t.done.began.value r) };
}

impl<N: Naming> TicketedDone<N> {
    /// A result from wherever it comes, without a ticket.
    pub fn plain(done: Done) -> TicketedDone<N>
        ensures { result ≡ done }
    {
        TicketedDone { done, ticket: None }
    }

    /// Of which process it is.
    pub fn pid(&self) -> u32
        ensures { result ≡ self.now.pid }
    {
        self.done.pid
    }

    /// How many instructions were run.
    pub fn count(&self) -> u32
        ensures { result ≡ self.now.count }
    {
        self.done.count
    }

    /// What is left of the loan's quantum.
    pub(crate) fn left(&self) -> u32
        ensures { result ≡ self.now.quantum - self.now.count }
    {
        self.done.quantum.saturating_sub(self.done.count)
    }

    /// The result alone.
    pub fn into_done(self) -> Done
        ensures { result ≡ self }
    {
        let TicketedDone { done, .. } = self;
        done
    }

    /// The result, and its ticket.
    pub(crate) fn into_parts(self) -> (Done, Option<Ticket<N>>)
        ensures done { result.0 ≡ self }
        ensures ticket { IfSome result.1 (λ r. IsTicketOf self.pid self.number self.began.value r) }
    {
        let TicketedDone { done, ticket } = self;
        (done, ticket)
    }
}

//! `settle_by_ticket`: takes a result back, without comparing states where its ticket is the bench's own.
ghost use Rattle.std.specs.Prelude.{◌≡◌, true, IsSomeAnd};
ghost use mathlib.Core.List.{IsPrefix};
ghost use Rattle.kernel_step.specs.Loaned.{Settles};
ghost use Rattle.bursts.specs.Tickets.{AreKnown};

use crate::naming::Naming;
use crate::ticket::{LentLoan, Ticket, TicketedDone};
use kernel::{Answer, Core, Rejected, known_loans_stay};
use notes::Log;

/// Whether a ticket shows a beginning of this log.
fn is_noted<N: Naming>(loans: &Log<LentLoan, N>, ticket: &Option<Ticket<N>>) -> bool
    ensures { result ≡ true → IsSomeAnd ticket.now (λ t. IsPrefix t loans.now) }
{
    match ticket {
        Some(ticket) => loans.has(ticket),
        None => false,
    }
}

/// As `Core::settle`, beside a log of loans that are known at the core. The states are not compared where the ticket is of this log.
pub(crate) fn settle_by_ticket<N: Naming>(
    core: &mut Core,
    loans: &Log<LentLoan, N>,
    done: TicketedDone<N>,
) -> Result<Answer, Rejected>
    requires { AreKnown core.old loans.now }
    ensures settles { Settles core.old done core.new result }
    ensures known { AreKnown core.new loans.now }
{
    known_loans_stay();
    let (done, ticket) = done.into_parts();
    if is_noted(loans, &ticket) {
        return core.settle_known(done);
    }
    core.settle(done)
}

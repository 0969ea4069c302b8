//! Loans, run apart from the core, and the bench on which many workers share one core. Read `Bench` first: each call on it has the
//! clauses of the core's own. What a worker did stands in its `Share`, a ghost account; all shares of a bench add up to the totals
//! of the core's history.
#![tactic(auto)]

mod added_totals;
mod bench;
mod burst;
mod core_board;
mod fault;
mod gate;
mod loan_id;
mod naming;
mod share;
mod ticket;
mod ticketed;
mod totals;

pub use bench::{Bench, gather};
pub use board::{Board, Opening, Pass, View, Writer};
pub use burst::run_loan;
pub use core_board::board_of;
pub use fault::WorkFault;
pub use gate::Gate;
pub use kernel::{Done, Loan, Rejected};
pub use loan_id::LoanId;
pub use naming::Naming;
pub use share::{Blanks, Share};
pub use ticket::{LentLoan, Ticket, TicketedDone, TicketedLoan};
pub use totals::{Totals, totals_of};

//! Events, one at a time, on the parts of a running kernel. Read `Running` first, then its `apply`. An Enter (system call or trap)
//! goes through three files: `plan` finds what it comes to, `room` takes all memory for it, and `finishing` carries it out and
//! cannot fail.
#![tactic(auto)]

mod apply;
mod booting;
mod cones;
mod copying;
mod enter;
mod finishing;
mod lend;
mod loan;
mod plan;
mod replicated;
mod replies;
mod room;
mod running;
mod settle;
mod standing;
mod storing;
mod system;
mod task;
mod tasks;
mod turn;
mod views;
mod whereabouts;

pub use booting::Program;
pub use calls::KernelTables;
pub use cones::ConeFault;
pub use footprints::Footprints;
pub use kernel_model::{Answer, Event, Outcome, Refused, Standing};
pub use loan::{Done, Loan, Rejected};
pub use machine::Machine;
pub use running::Running;

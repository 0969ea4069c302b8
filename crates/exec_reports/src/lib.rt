//! What is said of a run that has ended: why it did, by lines and by an exit status. Read `print_ending` first. A `Family` keeps which
//! program each process runs, so that a line can say where in it a process stands. A `CallTrace` tells of calls while a run goes on.
//! Only safety is proved.
#![tactic(auto)]

mod call_trace;
mod ending;
mod family;
mod lines;
mod places;

pub use call_trace::CallTrace;
pub use ending::{count_left, print_ending, status_of_run};
pub use family::Family;
pub use lines::print_processes;
pub use places::{StandText, WaitText};

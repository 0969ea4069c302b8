//! A kernel that answers one process's system calls for a debugger. Read `Recorder::more` first. The replies are exactly those of
//! the process's trace, and rest on committed changes alone.
#![tactic(auto)]

mod copies;
mod recorded;
mod recorder;
mod running;
mod traces;

pub use recorded::Recorded;
pub use recorder::Recorder;
pub use traces::traces_only_grow;

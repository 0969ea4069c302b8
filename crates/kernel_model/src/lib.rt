//! What the kernel is, apart from how it is kept: its events, its answers, the table of system calls, and whole runs. Read `Event`
//! first, then the definitions `Rows`, the table, and `World`, a run. The laws hold of every run, whatever the code.
#![tactic(auto)]

mod answer;
mod carrier;
mod counts;
mod descriptor;
mod effect;
mod event;
mod laws;
mod request;
mod standing;

pub use answer::{Answer, Outcome, Refused};
pub use carrier::Carrier;
pub use counts::{MOST_BYTES, MOST_PROGRAMS, TAPES, TERMINALS};
pub use descriptor::{Descriptor, PipeEnd};
pub use effect::{FileEdit, Output, PipeStep, Slot, TapeRead};
pub use event::Event;
pub use laws::{
    durable_is, edits_are_made, ended_hold_nothing, ends_are_counted, ends_stay_closed,
    files_are_folded, files_stay_gone, first_ended_is_least, tables_keep_their_limits,
};
pub use request::{Request, Verdict};
pub use standing::Standing;

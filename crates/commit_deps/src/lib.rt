//! On which changes each event rests (causally depends), carried by what events write and read. Read `Mark`, and then
//! `Dependencies`, which keeps the mark of each carrier. A mark is at most c exactly where the event rests on the first c changes
//! alone.
#![tactic(auto)]

mod dependencies;
mod laws;
mod mark;

pub use dependencies::{Dependencies, Dependencies as Deps};
pub use kernel_model::Carrier;
pub use laws::silent_events_leave_marks;
pub use mark::Mark;

//! What is kept of a run by turns: a script that replays it, an object of JSON about it, a log of instructions, and how often each was
//! executed. Read `write_script`, `write_json`, `StepLog` and `Profile` first. Of the counts of a `Profile` it is proved that they are
//! right; else only safety is.
#![tactic(auto)]

mod counts;
mod listing;
mod logging;
mod objects;
mod profile;
mod recording;
mod step_counts;
mod telling;

pub use counts::Counts;
pub use logging::StepLog;
pub use profile::Profile;
pub use recording::{steps_of, write_script};
pub use telling::{EndedRun, write_json};

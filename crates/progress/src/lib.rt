//! How far long work has come, told at most once a second. Only safety is proved.
#![tactic(auto)]

mod telling;

pub use telling::{Progress, ProgressCount};

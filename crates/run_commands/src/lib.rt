//! The commands `run` and `exec`, which run programs, and `diff`, which compares logs of theirs.
//!
//! Read `run_images` and `execute` first. Only safety is proved of them; what they read and print is tested.
#![tactic(auto)]

mod exec_outputs;
mod executing;
mod logs;
mod observing;
mod running;

pub use executing::execute;
pub use logs::{LogPaths, diff_files};
pub use running::run_images;

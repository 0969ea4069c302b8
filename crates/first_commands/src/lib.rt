//! The commands of the first hour, which the small program and the whole one have, and what both do with a command line.
//!
//! Read `bench_small` first. Only safety is proved; what the programs read and print is tested.
#![tactic(auto)]

mod disks;
mod performing;
mod program;

pub use performing::{bench_small, perform_first};
pub use program::{arguments, asked_by, end, end_task, end_without_arguments};

//! The program `bench`, over any reader and two writers, so that tests run it in memory. Read `bench` first. Only safety is proved
//! of it; what it reads and prints is tested.
#![tactic(auto)]

mod page_files;
mod picture_files;
mod program;
mod shown_runs;

pub use faults::Fault;
pub use first_commands::end_without_arguments;
pub use program::bench;

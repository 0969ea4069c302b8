//! The commands `crashes` and `explore`: what all crashes leave, and what all orders of system calls come to.
//!
//! Read `try_crashes` and `explore_programs` first. Of them safety is proved, and what a search that left states, or was cut, comes to
//! (`verdict_of`); what they read and print is tested.
#![tactic(auto)]

mod crash_files;
mod crash_orders;
mod crash_subject;
mod exploring;

pub use crash_files::try_crashes;
pub use exploring::explore_programs;

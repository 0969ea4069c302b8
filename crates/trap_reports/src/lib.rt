//! What a machine stands at that stands at a trap: the cause, the address that the instruction names, and what is there.
//!
//! Read `trap_report` first. The cause and the pc are the machine's; a word that is told, and its address, are the definitions'.
#![tactic(auto)]

mod address;
mod report;
mod there;

pub use report::{TrapReport, trap_report};
pub use there::There;

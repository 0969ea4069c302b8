//! Logs of the instructions that a program did, in the form of Spike's commit log, and where two of them differ first.
//!
//! Read `Line` first. `write_steps` does instructions and writes a line for each; `compare` reads two logs side by side. Only safety is
//! proved.
#![tactic(auto)]

mod comparing;
mod difference;
mod line;
mod line_text;
mod reading;
mod registers;
mod stepping;

pub use comparing::{Compared, compare};
pub use difference::{Difference, Side};
pub use line::{Access, Line, Written};
pub use stepping::{write_call, write_steps};

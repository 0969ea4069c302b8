//! Outcomes that a search of all orders of calls finds, and the files of its parts.
//!
//! An `Outcome` is what a run comes to, as a line, and `Findings` keep each once, and say whether it is among the `expectations`. `Totals` say
//! how far a search came, and refuse one that did not explore all. A part of a search prints its file by `part_file`, through a writer that
//! sums what goes out, `Summed`. `merge_parts` reads those of all parts by `part_reading`, puts their states together by `levels`, and
//! prints what the whole search prints.
#![tactic(auto)]

mod expectations;
mod findings;
mod levels;
mod merging;
mod outcome;
mod part_fault;
mod part_file;
mod part_reading;
mod summed;
mod totals;

pub use findings::{Findings, print_outcome};
pub use merging::merge_parts;
pub use outcome::Outcome;
pub use part_file::{PartHead, write_end, write_head, write_outcome, write_state};
pub use summed::Summed;
pub use totals::Totals;

//! Lists that exist in proofs alone. `Notes` are a record of what was done, which takes no memory and clauses alone read. A `Log` has
//! one holder, who writes it, and gives a `Receipt` for each entry. A log that has a receipt begins as the receipt shows: so whoever has
//! the receipt can have it shown there later that its entry was noted.
#![tactic(auto)]

mod log;
mod notes;
mod rule;

pub use log::{Blank, Log, Receipt};
pub use notes::Notes;
pub use rule::{Entry, LogName};

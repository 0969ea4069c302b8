//! Text to a writer, and how much of it went out. Read `pump` first; `pump_into` is the same for any `Sink`, whose answers clauses
//! can name. A fault tells at which byte the text stopped, and nothing is offered after it. A `Cursor` keeps how far a text was told.
#![tactic(auto)]

mod cursor;
mod pumping;
mod sink;

pub use cursor::Cursor;
pub use pumping::{PumpFault, pump, pump_into};
pub use sink::Sink;

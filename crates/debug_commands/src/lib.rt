//! The commands of a debugger, read from a person and answered in text. Read `debug` first, a whole session. Only safety is proved.
#![tactic(auto)]

mod aids;
mod changes;
mod command;
mod held;
mod help;
mod labelled;
mod listing;
mod moving;
mod places;
mod quoted;
mod refusal;
mod registers;
mod session;
mod showing;
mod standing;
mod values;
mod verbs;
mod writable;

pub use aids::Source;
pub use session::debug;

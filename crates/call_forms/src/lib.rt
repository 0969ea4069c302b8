//! The system calls as they are numbered, written and printed. Read `Call::form` first: it has the row of each. What else prints a
//! call, or reads its name or its number, goes by these rows. Which call a number means is proved; of texts only safety.
#![tactic(auto)]

mod call;
mod text;

pub use call::{Argument, Call, CallForm, Outcome};
pub use text::{BytesText, CallText, Style};

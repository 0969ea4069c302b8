//! The lexer of the assembler: a source's lines and their tokens. Read `lines` first, then `TokenKind`. `lines` gives exactly the
//! lines and tokens of the source, or its first fault; only out of memory may come instead.
//!
//! A line has tokens, blanks (spaces and tabs) and perhaps a comment, from `#` on. Directly after a word `+` and `-` are tokens, as
//! in `label+4`, `label-4` and `label--4`. Anywhere else `-` begins a number and `+` has no form.
#![tactic(auto)]

mod fault;
mod laws;
mod line;
mod number;
mod quoted;
mod runs;
mod scan;
mod text;
mod token;

pub use fault::{Cause, TextFault};
pub use laws::one_reading;
pub use text::lines;
pub use token::{Line, Token, TokenKind, Tokens};

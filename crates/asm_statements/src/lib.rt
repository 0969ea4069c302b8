//! The parser of the assembler: a line's label and statement, the instructions of a statement, and their words. Read `Statement`
//! first, then `Operands` and `Expansion`. Each function computes exactly what its definition in `specs` says.
#![tactic(auto)]

mod encoding;
mod expansion;
mod fields;
mod literal;
mod mnemonic;
mod names;
mod operands;
mod statement;
mod tokens;

pub use encoding::word;
pub use expansion::{Expansion, expanded, words_taken};
pub use fields::modulo_word;
pub use literal::Literal;
pub use mnemonic::{Link, Mnemonic, PlainOp, UnaryOp, UpperOp};
pub use operands::{Operands, Value};
pub use statement::{Label, Statement, read_statement, split_label};
pub use tokens::{number_of, text_at};

//! Instruction words of RV32IM, both ways, and instructions as text. Read `Instr` first: it has a variant for each format, with an
//! operator where the format has several, and the types of its fields keep them in range. `table.rt` has the rows of the operators;
//! `decode`, `encode` and `Display` look them up.
#![tactic(auto)]

mod constructors;
mod decoding;
mod encoding;
mod fields;
mod instr;
mod laws;
mod operators;
mod table;
mod text;

pub use constructors::FieldFault;
pub use decoding::decode;
pub use encoding::encode;
pub use fields::{BranchOffset, Immediate, JumpOffset, Reg, ShiftAmount, Upper};
pub use instr::Instr;
pub use laws::meanings;
pub use operators::{Arithmetic, Condition, ImmediateOperator, LoadOperator, ShiftOperator};

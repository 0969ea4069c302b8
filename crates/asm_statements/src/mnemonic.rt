//! The mnemonics, by the form of their operands.
use formats::{Arithmetic, Condition, ImmediateOperator, LoadOperator, ShiftOperator};
use memory_model::Width;

/// An instruction's name, with what tells its form. Pseudo-instructions on branches and jumps stand beside the instructions that
/// they expand to.
#[derive(Clone, Copy)]
pub enum Mnemonic {
    /// `op rd,rs1,rs2`
    Registers(Arithmetic),
    /// `op rd,rs1,imm`
    Immediate(ImmediateOperator),
    /// `op rd,rs1,amount`
    Shift(ShiftOperator),
    /// `op rd,imm(rs1)`
    Load(LoadOperator),
    /// `op rs2,imm(rs1)`
    Store(Width),
    /// `op rs1,rs2,target`
    Branch(Condition),
    /// `op a,b,target`, a branch on b and a.
    Swapped(Condition),
    /// `op rs,target`, a branch on rs and zero.
    WithZero(Condition),
    /// `op rs,target`, a branch on zero and rs.
    FromZero(Condition),
    /// `op rd,u`
    Upper(UpperOp),
    /// `jal rd,target`
    Jal,
    /// `jalr rd,imm(rs1)`
    Jalr,
    /// `op target`
    Jump(Link),
    /// `op rs`
    JumpRegister(Link),
    /// `op rd,rs`
    Unary(UnaryOp),
    /// `op`
    Plain(PlainOp),
    /// `li rd,v`
    Li,
    /// `la rd,label`
    La,
}

/// An operation on the upper twenty bits.
#[derive(Clone, Copy)]
pub enum UpperOp {
    Lui,
    Auipc,
}

/// The register that a jump without one links: zero or ra.
#[derive(Clone, Copy)]
pub enum Link {
    Zero,
    Ra,
}

/// A pseudo-instruction on one register and another.
#[derive(Clone, Copy)]
pub enum UnaryOp {
    Mv,
    Not,
    Neg,
    Seqz,
    Snez,
    Sltz,
    Sgtz,
}

/// An instruction with no operand.
#[derive(Clone, Copy)]
pub enum PlainOp {
    Nop,
    Ret,
    Fence,
    FenceI,
    Ecall,
    Ebreak,
}

/// A directive.
#[derive(Clone, Copy)]
pub enum Directive {
    Text,
    Data,
    Word,
    Byte,
    Ascii,
    Space,
}

//! The instructions.
use crate::fields::{BranchOffset, Immediate, JumpOffset, Reg, ShiftAmount, Upper};
use crate::operators::{Arithmetic, Condition, ImmediateOperator, LoadOperator, ShiftOperator};
use memory_model::Width;

/// An instruction of RV32I or of the M extension, by its format (RISC-V Unprivileged ISA 20191213, chapter 24). The 49 rows of the
/// instruction table are these, with each operator of a format that has one.
#[derive(Clone, Copy)]
pub enum Instr {
    /// rd = the upper bits, with twelve zeros below.
    Lui {
        rd: Reg,
        imm: Upper,
    },
    /// rd = the address of the instruction plus the upper bits.
    Auipc {
        rd: Reg,
        imm: Upper,
    },
    /// rd = the address of the next instruction; goes to the instruction's own plus the offset.
    Jal {
        rd: Reg,
        offset: JumpOffset,
    },
    /// rd = the address of the next instruction; goes to rs1 plus the immediate, with bit 0 cleared.
    Jalr {
        rd: Reg,
        rs1: Reg,
        imm: Immediate,
    },
    /// Branches if the condition holds of rs1 and rs2.
    Branch {
        condition: Condition,
        rs1: Reg,
        rs2: Reg,
        offset: BranchOffset,
    },
    /// rd = what stands at rs1 plus the immediate.
    Load {
        operator: LoadOperator,
        rd: Reg,
        rs1: Reg,
        imm: Immediate,
    },
    /// The low bytes of rs2 go to rs1 plus the immediate.
    Store {
        width: Width,
        rs1: Reg,
        rs2: Reg,
        imm: Immediate,
    },
    /// rd = the operation on rs1 and the immediate, sign-extended.
    Immediate {
        operator: ImmediateOperator,
        rd: Reg,
        rs1: Reg,
        imm: Immediate,
    },
    /// rd = rs1 shifted.
    Shift {
        operator: ShiftOperator,
        rd: Reg,
        rs1: Reg,
        amount: ShiftAmount,
    },
    /// rd = the operation on rs1 and rs2.
    Register {
        operator: Arithmetic,
        rd: Reg,
        rs1: Reg,
        rs2: Reg,
    },
    /// Orders memory; here without effect.
    Fence,
    /// Orders the stores of a program before its later fetches; here without effect, since each fetch sees the last store.
    FenceI,
    /// Calls the kernel.
    Ecall,
    /// Traps, as a breakpoint.
    Ebreak,
}

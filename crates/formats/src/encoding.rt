//! The word that spells an instruction.
ghost use Rattle.std.specs.Prelude.{◌≡◌, ℕ, ◌<◌, ◌^◌, ◌/◌, ◌%◌, ◌+◌, ◌*◌, Some};
ghost use Rattle.formats.specs.Fields.{field, signed, opcode as opcode_of, funct3 as funct3_of, rd_of, rs1_of, immediate_j};
ghost use Rattle.formats.specs.Meaning.{Means, IsU, IsI, IsS, IsB, IsShift, IsR};
ghost use Rattle.formats.specs.Table.{instr_of};

use crate::fields::{BranchOffset, Immediate, JumpOffset, Reg, ShiftAmount, Upper};
use crate::instr::Instr;
use crate::table::{Row, branch_row, immediate_row, load_row, register_row, shift_row, store_row};

/// The word that means the instruction. FENCE is spelled 0x0FF0000F, the fence of all accesses, and FENCE.I 0x0000100F, whose
/// unused fields are 0.
#[tactic(auto, using(crate::proofs::Rows::means_in_table, crate::proofs::Spelling::means_once))]
pub fn encode(i: &Instr) -> u32
    ensures means { Means result i.now }
    ensures table { instr_of result ≡ Some i.now }
    ensures fence { i.now ≡ Instr.Fence → result ≡ 0x0FF0000F }
    ensures fence_i { i.now ≡ Instr.FenceI → result ≡ 0x0000100F }
    ensures only { (w : ℕ) → w < 2 ^ 32 → Means w i.now → (i.now ≡ Instr.Fence → ⊥) → (i.now ≡ Instr.FenceI → ⊥) → w ≡ result }
{
    spelling(*i)
}

/// The word of a row, with the fields of the instruction.
fn spelling(i: Instr) -> u32
    ensures means { Means result i }
    ensures fence { i ≡ Instr.Fence → result ≡ 0x0FF0000F }
    ensures fence_i { i ≡ Instr.FenceI → result ≡ 0x0000100F }
{
    match i {
        Instr::Lui { rd, imm } => u_type(0b0110111, rd, imm),
        Instr::Auipc { rd, imm } => u_type(0b0010111, rd, imm),
        Instr::Jal { rd, offset } => j_type(rd, offset),
        Instr::Jalr { rd, rs1, imm } => i_type(0b1100111, 0b000, rd, rs1, imm),
        Instr::Branch {
            condition,
            rs1,
            rs2,
            offset,
        } => b_type(branch_row(condition).funct3, rs1, rs2, offset),
        Instr::Load {
            operator,
            rd,
            rs1,
            imm,
        } => i_type(0b0000011, load_row(operator).funct3, rd, rs1, imm),
        Instr::Store {
            width,
            rs1,
            rs2,
            imm,
        } => s_type(store_row(width).funct3, rs1, rs2, imm),
        Instr::Immediate {
            operator,
            rd,
            rs1,
            imm,
        } => i_type(0b0010011, immediate_row(operator).funct3, rd, rs1, imm),
        Instr::Shift {
            operator,
            rd,
            rs1,
            amount,
        } => shift(shift_row(operator), rd, rs1, amount),
        Instr::Register {
            operator,
            rd,
            rs1,
            rs2,
        } => r_type(register_row(operator), rd, rs1, rs2),
        Instr::Fence => 0x0FF0_000F,
        Instr::FenceI => 0x0000_100F,
        Instr::Ecall => 0x0000_0073,
        Instr::Ebreak => 0x0010_0073,
    }
}

/// The word of twelve bits, rs1, funct3, five bits and the opcode, from the highest down.
fn word(high: u32, rs1: u32, funct3: u32, low: u32, opcode: u32) -> u32
    requires high { high < 2 ^ 12 }
    requires rs1 { rs1 < 32 }
    requires funct3 { funct3 < 8 }
    requires low { low < 32 }
    requires opcode { opcode < 128 }
    ensures high { field result 31 20 ≡ high }
    ensures rs1 { rs1_of result ≡ rs1 }
    ensures funct3 { funct3_of result ≡ funct3 }
    ensures low { rd_of result ≡ low }
    ensures opcode { opcode_of result ≡ opcode }
{
    (high << 20) + (rs1 << 15) + (funct3 << 12) + (low << 7) + opcode
}

fn register(register: Reg) -> u32
    ensures value { result ≡ register }
    ensures range { result < 32 }
{
    u32::from(register.number())
}

/// The two's complement of an immediate in twelve bits.
fn immediate(imm: Immediate) -> u32
    ensures value { signed 12 result ≡ imm }
    ensures range { result < 2 ^ 12 }
{
    imm.value().cast_unsigned() % 4096
}

/// The two's complement of a branch's offset in thirteen bits.
fn branch_offset(offset: BranchOffset) -> u32
    ensures value { signed 13 result ≡ offset }
    ensures range { result < 2 ^ 13 }
    ensures even { result % 2 ≡ 0 }
{
    offset.value().cast_unsigned() % 8192
}

/// The two's complement of a jump's offset in twenty-one bits.
fn jump_offset(offset: JumpOffset) -> u32
    ensures value { signed 21 result ≡ offset }
    ensures range { result < 2 ^ 21 }
    ensures even { result % 2 ≡ 0 }
{
    offset.value().cast_unsigned() % 2097152
}

/// An operation on two registers.
fn r_type(row: Row, rd: Reg, rs1: Reg, rs2: Reg) -> u32
    requires funct7 { row.funct7 < 128 }
    requires funct3 { row.funct3 < 8 }
    ensures { IsR result row.funct3 row.funct7 rd rs1 rs2 }
{
    word(
        (row.funct7 << 5) + register(rs2),
        register(rs1),
        row.funct3,
        register(rd),
        0b0110011,
    )
}

/// A shift by an immediate, whose amount stands in the place of rs2.
fn shift(row: Row, rd: Reg, rs1: Reg, amount: ShiftAmount) -> u32
    requires funct7 { row.funct7 < 128 }
    requires funct3 { row.funct3 < 8 }
    ensures { IsShift result row.funct3 row.funct7 rd rs1 amount }
{
    let amount = u32::from(amount.value());
    word(
        (row.funct7 << 5) + amount,
        register(rs1),
        row.funct3,
        register(rd),
        0b0010011,
    )
}

/// A word with an immediate of twelve bits and rd.
fn i_type(opcode: u32, funct3: u32, rd: Reg, rs1: Reg, imm: Immediate) -> u32
    requires opcode { opcode < 128 }
    requires funct3 { funct3 < 8 }
    ensures { IsI result opcode funct3 rd rs1 imm }
{
    word(immediate(imm), register(rs1), funct3, register(rd), opcode)
}

/// A store, whose immediate is split round rs2, rs1 and funct3.
fn s_type(funct3: u32, rs1: Reg, rs2: Reg, imm: Immediate) -> u32
    requires { funct3 < 8 }
    ensures { IsS result funct3 rs1 rs2 imm }
{
    let imm = immediate(imm);
    let high = (imm >> 5 << 5) + register(rs2);
    word(high, register(rs1), funct3, imm % 32, 0b0100011)
}

/// A branch: as a store, with bit 11 of the offset in the place of its bit 0.
fn b_type(funct3: u32, rs1: Reg, rs2: Reg, offset: BranchOffset) -> u32
    requires { funct3 < 8 }
    ensures { IsB result funct3 rs1 rs2 offset }
{
    let offset = branch_offset(offset);
    let high = (offset >> 12 << 11) + ((offset >> 5) % 64 << 5) + register(rs2);
    let low = ((offset >> 1) % 16 << 1) + (offset >> 11) % 2;
    word(high, register(rs1), funct3, low, 0b1100011)
}

/// A word with twenty upper bits and rd.
fn u_type(opcode: u32, rd: Reg, imm: Upper) -> u32
    requires { opcode < 128 }
    ensures { IsU result opcode rd imm }
{
    (imm.value() << 12) + (register(rd) << 7) + opcode
}

/// A JAL, whose offset stands in the upper bits, its bits in the order 20, 10 to 1, 11, 19 to 12.
fn j_type(rd: Reg, offset: JumpOffset) -> u32
    ensures opcode { opcode_of result ≡ 0b1101111 }
    ensures rd { rd ≡ rd_of result }
    ensures offset { offset ≡ immediate_j result }
{
    let offset = jump_offset(offset);
    let upper = (offset >> 20 << 19)
        + ((offset >> 1) % 1024 << 9)
        + ((offset >> 11) % 2 << 8)
        + (offset >> 12) % 256;
    u_type(0b1101111, rd, Upper::new(upper))
}

//! What an instruction word means.
ghost use Rattle.std.specs.Prelude.{◌≡◌, ◌<◌, ◌+◌, ◌^◌, MatchOption};
ghost use Rattle.formats.specs.Fields.{field, signed, immediate_i, immediate_s, immediate_b, immediate_u, immediate_j};
ghost use Rattle.formats.specs.Meaning.{Means};
ghost use Rattle.formats.specs.Table.{branch_of, load_of, store_of, shift_of, immediate_of, register_of, instr_of};

use crate::fields::{BranchOffset, Immediate, JumpOffset, Reg, ShiftAmount, Upper};
use crate::instr::Instr;
use crate::table::{BRANCHES, IMMEDIATES, LOADS, REGISTERS, SHIFTS, STORES, found};

/// The instruction that a word means, or `None` where the word is illegal (RISC-V Unprivileged ISA 20191213, chapter 24).
///
/// Opcode 0001111 is FENCE with funct3 000 and FENCE.I with 001, whatever the other fields hold. A shift by an immediate of 32 or
/// more, whose bit 25 is set, is illegal.
#[tactic(auto, using(crate::proofs::Rows::meaning_from_table))]
pub fn decode(word: u32) -> Option<Instr>
    ensures table { result ≡ instr_of word }
    ensures meaning { MatchOption result ((i : Instr) → Means word i → ⊥) (λ i. Means word i) }
{
    row(word)
}

/// The row of the table that a word belongs to, with the fields of that row.
#[tactic(auto, unfolding(crate::specs::Table::instr_of, crate::specs::Table::row_of))]
fn row(word: u32) -> Option<Instr>
    ensures { result ≡ instr_of word }
{
    let opcode = word % 128;
    let funct3 = (word >> 12) % 8;
    let funct7 = word >> 25;
    let rd = register(word, 7);
    let rs1 = register(word, 15);
    let rs2 = register(word, 20);
    match opcode {
        0b0110111 => Some(Instr::Lui {
            rd,
            imm: upper(word),
        }),
        0b0010111 => Some(Instr::Auipc {
            rd,
            imm: upper(word),
        }),
        0b1101111 => Some(Instr::Jal {
            rd,
            offset: jump_offset(word),
        }),
        0b1100111 if funct3 == 0b000 => Some(Instr::Jalr {
            rd,
            rs1,
            imm: immediate(word),
        }),
        0b1100011 => branch(funct3, rs1, rs2, branch_offset(word)),
        0b0000011 => load(funct3, rd, rs1, immediate(word)),
        0b0100011 => store(funct3, rs1, rs2, store_immediate(word)),
        0b0010011 if funct3 == 0b001 || funct3 == 0b101 => {
            shift(funct3, funct7, rd, rs1, shift_amount(word))
        }
        0b0010011 => immediate_operation(funct3, rd, rs1, immediate(word)),
        0b0110011 => register_operation(funct3, funct7, rd, rs1, rs2),
        0b0001111 if funct3 == 0b000 => Some(Instr::Fence),
        0b0001111 if funct3 == 0b001 => Some(Instr::FenceI),
        _ if word == 0x0000_0073 => Some(Instr::Ecall),
        _ if word == 0x0010_0073 => Some(Instr::Ebreak),
        _ => None,
    }
}

/// The register in the five bits from `low` up.
fn register(word: u32, low: u32) -> Reg
    requires { low < 28 }
    ensures { result ≡ field word (low + 4) low }
{
    Reg::new(((word >> low) % 32) as u8)
}

fn shift_amount(word: u32) -> ShiftAmount
    ensures { result ≡ field word 24 20 }
{
    ShiftAmount::new(((word >> 20) % 32) as u8)
}

/// The upper bits of a U-type word.
fn upper(word: u32) -> Upper
    ensures { result ≡ immediate_u word }
{
    Upper::new(word >> 12)
}

/// The immediate of an I-type word.
fn immediate(word: u32) -> Immediate
    ensures { result ≡ immediate_i word }
{
    signed_immediate(word >> 20)
}

/// The immediate of an S-type word.
fn store_immediate(word: u32) -> Immediate
    ensures { result ≡ immediate_s word }
{
    signed_immediate((word >> 25) * 32 + (word >> 7) % 32)
}

/// A field of twelve bits whose highest bit is a sign.
fn signed_immediate(raw: u32) -> Immediate
    requires { raw < 2 ^ 12 }
    ensures { result ≡ signed 12 raw }
{
    let raw = raw as i32;
    Immediate::new(if raw < 2048 { raw } else { raw - 4096 })
}

/// The offset of a B-type word.
fn branch_offset(word: u32) -> BranchOffset
    ensures { result ≡ immediate_b word }
{
    let raw = (word >> 31) * 4096
        + (word >> 7) % 2 * 2048
        + (word >> 25) % 64 * 32
        + (word >> 8) % 16 * 2;
    let raw = raw as i32;
    BranchOffset::new(if raw < 4096 { raw } else { raw - 8192 })
}

/// The offset of a J-type word.
fn jump_offset(word: u32) -> JumpOffset
    ensures { result ≡ immediate_j word }
{
    let raw = (word >> 31) * 1048576
        + (word >> 12) % 256 * 4096
        + (word >> 20) % 2 * 2048
        + (word >> 21) % 1024 * 2;
    let raw = raw as i32;
    JumpOffset::new(if raw < 1048576 { raw } else { raw - 2097152 })
}

#[tactic(auto, unfolding(crate::specs::Table::branch_of))]
fn branch(funct3: u32, rs1: Reg, rs2: Reg, offset: BranchOffset) -> Option<Instr>
    ensures { result ≡ branch_of funct3 rs1 rs2 offset }
{
    let condition = found(&BRANCHES, funct3, 0)?;
    Some(Instr::Branch {
        condition,
        rs1,
        rs2,
        offset,
    })
}

#[tactic(auto, unfolding(crate::specs::Table::load_of))]
fn load(funct3: u32, rd: Reg, rs1: Reg, imm: Immediate) -> Option<Instr>
    ensures { result ≡ load_of funct3 rd rs1 imm }
{
    let operator = found(&LOADS, funct3, 0)?;
    Some(Instr::Load {
        operator,
        rd,
        rs1,
        imm,
    })
}

#[tactic(auto, unfolding(crate::specs::Table::store_of))]
fn store(funct3: u32, rs1: Reg, rs2: Reg, imm: Immediate) -> Option<Instr>
    ensures { result ≡ store_of funct3 rs1 rs2 imm }
{
    let width = found(&STORES, funct3, 0)?;
    Some(Instr::Store {
        width,
        rs1,
        rs2,
        imm,
    })
}

#[tactic(auto, unfolding(crate::specs::Table::shift_of))]
fn shift(funct3: u32, funct7: u32, rd: Reg, rs1: Reg, amount: ShiftAmount) -> Option<Instr>
    ensures { result ≡ shift_of funct3 funct7 rd rs1 amount }
{
    let operator = found(&SHIFTS, funct3, funct7)?;
    Some(Instr::Shift {
        operator,
        rd,
        rs1,
        amount,
    })
}

#[tactic(auto, unfolding(crate::specs::Table::immediate_of))]
fn immediate_operation(funct3: u32, rd: Reg, rs1: Reg, imm: Immediate) -> Option<Instr>
    ensures { result ≡ immediate_of funct3 rd rs1 imm }
{
    let operator = found(&IMMEDIATES, funct3, 0)?;
    Some(Instr::Immediate {
        operator,
        rd,
        rs1,
        imm,
    })
}

#[tactic(auto, unfolding(crate::specs::Table::register_of))]
fn register_operation(funct3: u32, funct7: u32, rd: Reg, rs1: Reg, rs2: Reg) -> Option<Instr>
    ensures { result ≡ register_of funct3 funct7 rd rs1 rs2 }
{
    let operator = found(&REGISTERS, funct3, funct7)?;
    Some(Instr::Register {
        operator,
        rd,
        rs1,
        rs2,
    })
}

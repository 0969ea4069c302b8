//! Pseudo-instructions and others: what a mnemonic with its operands stands for.
ghost use Rattle.std.specs.Prelude.{◌≡◌};
ghost use Rattle.std.specs.Option.{option_map};
ghost use Rattle.formats.specs.declared.instr.Instr.TheVariants as instr;
ghost use Rattle.asm_statements.specs.declared.expansion.Expansion.TheVariants.{One};
ghost use Rattle.asm_statements.specs.Expansion.{immediate_of, offset_of, amount_of, expansion_of, upper_instr, unary_instr, plain_instr, link_register, li_expansion, la_expansion, written, words_taken};

use crate::fields::{
    amount, branch_offset, high_part, immediate, jump_offset, low_part, modulo_word, upper,
};
use crate::mnemonic::{Link, Mnemonic, PlainOp, UnaryOp, UpperOp};
use crate::operands::{Operands, Value};
use formats::{
    Arithmetic, Condition, Immediate, ImmediateOperator, Instr, LoadOperator, Reg, ShiftOperator,
};
use memory_model::Width;

/// The instructions that one statement stands for.
#[derive(Clone, Copy)]
pub enum Expansion {
    One(Instr),
    Two(Instr, Instr),
}

/// The expansion of a mnemonic with its operands and their number. For a target or a label the number is its distance from the
/// instruction, in bytes. None where the number does not fit its field.
pub fn expanded(mnemonic: Mnemonic, operands: &Operands, number: i64) -> Option<Expansion>
    ensures { result ≡ expansion_of mnemonic operands.now number }
{
    let first = operands.first;
    let second = operands.second;
    match mnemonic {
        Mnemonic::Registers(operator) => Some(Expansion::One(Instr::Register {
            operator,
            rd: first,
            rs1: second,
            rs2: operands.third,
        })),
        Mnemonic::Immediate(operator) => immediate_instr(operator, first, second, number),
        Mnemonic::Shift(operator) => shift_instr(operator, first, second, number),
        Mnemonic::Load(operator) => load_instr(operator, first, second, number),
        Mnemonic::Store(width) => store_instr(width, second, first, number),
        Mnemonic::Branch(condition) => branch_instr(condition, first, second, number),
        Mnemonic::Swapped(condition) => branch_instr(condition, second, first, number),
        Mnemonic::WithZero(condition) => branch_instr(condition, first, Reg::new(0), number),
        Mnemonic::FromZero(condition) => branch_instr(condition, Reg::new(0), first, number),
        Mnemonic::Upper(op) => upper_instr(op, first, number),
        Mnemonic::Jal => jump_instr(first, number),
        Mnemonic::Jalr => register_jump(first, second, number),
        Mnemonic::Jump(link) => jump_instr(link_register(link), number),
        Mnemonic::JumpRegister(link) => Some(Expansion::One(Instr::Jalr {
            rd: link_register(link),
            rs1: first,
            imm: Immediate::new(0),
        })),
        Mnemonic::Unary(op) => Some(Expansion::One(unary_instr(op, first, second))),
        Mnemonic::Plain(op) => Some(Expansion::One(plain_instr(op))),
        Mnemonic::Li => Some(load_word(first, modulo_word(written(operands.value)))),
        Mnemonic::La => Some(load_address(first, modulo_word(number))),
    }
}

/// How many words a mnemonic with its operands takes. `la` takes two, and `li` as many as its number needs.
pub fn words_taken(mnemonic: Mnemonic, operands: &Operands) -> u32
    ensures { result ≡ words_taken mnemonic operands.now }
{
    match mnemonic {
        Mnemonic::Li => {
            let word = modulo_word(written(operands.value));
            match load_word(operands.first, word) {
                Expansion::One(_) => 1,
                Expansion::Two(..) => 2,
            }
        }
        Mnemonic::La => 2,
        _ => 1,
    }
}

/// The number that a value is, where it is no label.
fn written(value: Value) -> i64
    ensures { result ≡ written value }
{
    match value {
        Value::Number(number) => number.value(),
        _ => 0,
    }
}

fn load_word(rd: Reg, word: u32) -> Expansion
    ensures { result ≡ li_expansion rd word }
{
    if let Some(imm) = immediate(i64::from(word.cast_signed())) {
        let rs1 = Reg::new(0);
        return Expansion::One(Instr::Immediate {
            operator: ImmediateOperator::Addi,
            rd,
            rs1,
            imm,
        });
    }
    let imm = high_part(word);
    let high = Instr::Lui { rd, imm };
    if word % 4096 == 0 {
        return Expansion::One(high);
    }
    let imm = low_part(word);
    Expansion::Two(
        high,
        Instr::Immediate {
            operator: ImmediateOperator::Addi,
            rd,
            rs1: rd,
            imm,
        },
    )
}

/// `la` of a distance from the instruction, modulo 2^32.
fn load_address(rd: Reg, distance: u32) -> Expansion
    ensures { result ≡ la_expansion rd distance }
{
    let imm = high_part(distance);
    let high = Instr::Auipc { rd, imm };
    let imm = low_part(distance);
    Expansion::Two(
        high,
        Instr::Immediate {
            operator: ImmediateOperator::Addi,
            rd,
            rs1: rd,
            imm,
        },
    )
}

fn immediate_instr(operator: ImmediateOperator, rd: Reg, rs1: Reg, number: i64) -> Option<Expansion>
    ensures { result ≡ option_map (λ imm. One (instr.Immediate operator rd rs1 imm)) (immediate_of number) }
{
    let imm = immediate(number)?;
    Some(Expansion::One(Instr::Immediate {
        operator,
        rd,
        rs1,
        imm,
    }))
}

fn shift_instr(operator: ShiftOperator, rd: Reg, rs1: Reg, number: i64) -> Option<Expansion>
    ensures { result ≡ option_map (λ amount. One (instr.Shift operator rd rs1 amount)) (amount_of 32 number) }
{
    let amount = amount(number)?;
    Some(Expansion::One(Instr::Shift {
        operator,
        rd,
        rs1,
        amount,
    }))
}

fn load_instr(operator: LoadOperator, rd: Reg, rs1: Reg, number: i64) -> Option<Expansion>
    ensures { result ≡ option_map (λ imm. One (instr.Load operator rd rs1 imm)) (immediate_of number) }
{
    let imm = immediate(number)?;
    Some(Expansion::One(Instr::Load {
        operator,
        rd,
        rs1,
        imm,
    }))
}

fn store_instr(width: Width, rs1: Reg, rs2: Reg, number: i64) -> Option<Expansion>
    ensures { result ≡ option_map (λ imm. One (instr.Store width rs1 rs2 imm)) (immediate_of number) }
{
    let imm = immediate(number)?;
    Some(Expansion::One(Instr::Store {
        width,
        rs1,
        rs2,
        imm,
    }))
}

fn branch_instr(condition: Condition, rs1: Reg, rs2: Reg, number: i64) -> Option<Expansion>
    ensures { result ≡ option_map (λ offset. One (instr.Branch condition rs1 rs2 offset)) (offset_of 4096 number) }
{
    let offset = branch_offset(number)?;
    Some(Expansion::One(Instr::Branch {
        condition,
        rs1,
        rs2,
        offset,
    }))
}

fn upper_instr(op: UpperOp, rd: Reg, number: i64) -> Option<Expansion>
    ensures { result ≡ option_map (λ imm. One (upper_instr op rd imm)) (amount_of 1048576 number) }
{
    let imm = upper(number)?;
    let instr = match op {
        UpperOp::Lui => Instr::Lui { rd, imm },
        UpperOp::Auipc => Instr::Auipc { rd, imm },
    };
    Some(Expansion::One(instr))
}

/// A JAL to a distance, where it fits.
fn jump_instr(rd: Reg, number: i64) -> Option<Expansion>
    ensures { result ≡ option_map (λ offset. One (instr.Jal rd offset)) (offset_of 1048576 number) }
{
    let offset = jump_offset(number)?;
    Some(Expansion::One(Instr::Jal { rd, offset }))
}

/// A JALR with a number added to rs1, where that fits.
fn register_jump(rd: Reg, rs1: Reg, number: i64) -> Option<Expansion>
    ensures { result ≡ option_map (λ imm. One (instr.Jalr rd rs1 imm)) (immediate_of number) }
{
    let imm = immediate(number)?;
    Some(Expansion::One(Instr::Jalr { rd, rs1, imm }))
}

fn unary_instr(op: UnaryOp, rd: Reg, rs: Reg) -> Instr
    ensures { result ≡ unary_instr op rd rs }
{
    let zero = Reg::new(0);
    match op {
        UnaryOp::Mv => Instr::Immediate {
            operator: ImmediateOperator::Addi,
            rd,
            rs1: rs,
            imm: Immediate::new(0),
        },
        UnaryOp::Not => Instr::Immediate {
            operator: ImmediateOperator::Xori,
            rd,
            rs1: rs,
            imm: Immediate::new(-1),
        },
        UnaryOp::Neg => Instr::Register {
            operator: Arithmetic::Sub,
            rd,
            rs1: zero,
            rs2: rs,
        },
        UnaryOp::Seqz => Instr::Immediate {
            operator: ImmediateOperator::Sltiu,
            rd,
            rs1: rs,
            imm: Immediate::new(1),
        },
        UnaryOp::Snez => Instr::Register {
            operator: Arithmetic::Sltu,
            rd,
            rs1: zero,
            rs2: rs,
        },
        UnaryOp::Sltz => Instr::Register {
            operator: Arithmetic::Slt,
            rd,
            rs1: rs,
            rs2: zero,
        },
        UnaryOp::Sgtz => Instr::Register {
            operator: Arithmetic::Slt,
            rd,
            rs1: zero,
            rs2: rs,
        },
    }
}

fn plain_instr(op: PlainOp) -> Instr
    ensures { result ≡ plain_instr op }
{
    let zero = Reg::new(0);
    let imm = Immediate::new(0);
    match op {
        PlainOp::Nop => Instr::Immediate {
            operator: ImmediateOperator::Addi,
            rd: zero,
            rs1: zero,
            imm,
        },
        PlainOp::Ret => Instr::Jalr {
            rd: zero,
            rs1: Reg::new(1),
            imm,
        },
        PlainOp::Fence => Instr::Fence,
        PlainOp::FenceI => Instr::FenceI,
        PlainOp::Ecall => Instr::Ecall,
        PlainOp::Ebreak => Instr::Ebreak,
    }
}

fn link_register(link: Link) -> Reg
    ensures { result ≡ link_register link }
{
    match link {
        Link::Zero => Reg::new(0),
        Link::Ra => Reg::new(1),
    }
}

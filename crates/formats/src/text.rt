//! How registers and instructions are written.
ghost use Rattle.std.specs.Prelude.{◌≡◌, ◌++◌, [], Some};
ghost use Rattle.std.specs.Fmt.{WritesOnOk, signed_decimal};
ghost use Rattle.formats.specs.Text.{register_name, text_of, mnemonic_of, operands_text, with_two, with_three, with_number, with_address, with_upper};

use crate::fields::Reg;
use crate::instr::Instr;
use crate::table::{branch_row, immediate_row, load_row, register_row, shift_row, store_row};
use std::fmt;

impl Reg {
    /// The ABI name, as `a0` (RISC-V Unprivileged ISA 20191213, chapter 25).
    fn name(self) -> &'static str
        ensures { result.now ≡ register_name self }
    {
        match self.number() {
            0 => "zero",
            1 => "ra",
            2 => "sp",
            3 => "gp",
            4 => "tp",
            5 => "t0",
            6 => "t1",
            7 => "t2",
            8 => "s0",
            9 => "s1",
            10 => "a0",
            11 => "a1",
            12 => "a2",
            13 => "a3",
            14 => "a4",
            15 => "a5",
            16 => "a6",
            17 => "a7",
            18 => "s2",
            19 => "s3",
            20 => "s4",
            21 => "s5",
            22 => "s6",
            23 => "s7",
            24 => "s8",
            25 => "s9",
            26 => "s10",
            27 => "s11",
            28 => "t3",
            29 => "t4",
            30 => "t5",
            31 => "t6",
            _ => unreachable!(),
        }
    }
}

/// Writes the ABI name.
impl fmt::Display for Reg {
    ghost output = { λ r. Some (register_name r) };

    fn fmt<W: fmt::Write>(&self, f: &mut fmt::Formatter<W>) -> fmt::Result {
        f.write_str(self.name())
    }
}

/// The operands of an instruction with a blank before them; nothing where there are none.
#[derive(Clone, Copy)]
struct Operands {
    instr: Instr,
}

impl fmt::Display for Operands {
    ghost output = { λ o. Some (operands_text o.instr) };

    fn fmt<W: fmt::Write>(&self, f: &mut fmt::Formatter<W>) -> fmt::Result {
        match self.instr {
            Instr::Lui { rd, imm } | Instr::Auipc { rd, imm } => write_upper(f, rd, imm.value()),
            Instr::Jal { rd, offset } => write_jump(f, rd, offset.value()),
            Instr::Jalr { rd, rs1, imm } | Instr::Load { rd, rs1, imm, .. } => {
                write_address(f, rd, rs1, imm.value())
            },
            Instr::Branch {
                rs1,
                rs2,
                offset,
                ..
            } => write_number(f, rs1, rs2, offset.value()),
            Instr::Store { rs1, rs2, imm, .. } => write_address(f, rs2, rs1, imm.value()),
            Instr::Immediate { rd, rs1, imm, .. } => write_number(f, rd, rs1, imm.value()),
            Instr::Shift {
                rd,
                rs1,
                amount,
                ..
            } => { write_number(f, rd, rs1, i32::from(amount.value())) },
            Instr::Register { rd, rs1, rs2, .. } => write_registers(f, rd, rs1, rs2),
            Instr::Fence | Instr::FenceI | Instr::Ecall | Instr::Ebreak => Ok(()),
        }
    }
}

/// Writes ` rd,rs1,rs2`.
fn write_registers<W: fmt::Write>(
    f: &mut fmt::Formatter<W>,
    rd: Reg,
    rs1: Reg,
    rs2: Reg,
) -> fmt::Result
    ensures { WritesOnOk W.write_str_gives f.old result (with_three (register_name rd) (register_name rs1) (register_name rs2)) f.new }
{
    write!(f, " {rd},{rs1},{rs2}")
}

/// Writes ` a,b,number`.
fn write_number<W: fmt::Write>(
    f: &mut fmt::Formatter<W>,
    a: Reg,
    b: Reg,
    number: i32,
) -> fmt::Result
    ensures { WritesOnOk W.write_str_gives f.old result (with_number a b number) f.new }
{
    write!(f, " {a},{b},{number}")
}

/// Writes ` register,imm(rs1)`.
fn write_address<W: fmt::Write>(
    f: &mut fmt::Formatter<W>,
    register: Reg,
    rs1: Reg,
    imm: i32,
) -> fmt::Result
    ensures { WritesOnOk W.write_str_gives f.old result (with_address register rs1 imm) f.new }
{
    write!(f, " {register},{imm}({rs1})")
}

/// Writes ` rd,0x` and the upper bits in hexadecimal.
fn write_upper<W: fmt::Write>(f: &mut fmt::Formatter<W>, rd: Reg, imm: u32) -> fmt::Result
    ensures { WritesOnOk W.write_str_gives f.old result (with_upper rd imm) f.new }
{
    write!(f, " {rd},0x{imm:x}")
}

/// Writes ` rd,offset`.
fn write_jump<W: fmt::Write>(f: &mut fmt::Formatter<W>, rd: Reg, offset: i32) -> fmt::Result
    ensures { WritesOnOk W.write_str_gives f.old result (with_two (register_name rd) (signed_decimal offset)) f.new }
{
    write!(f, " {rd},{offset}")
}

impl Instr {
    fn mnemonic(self) -> &'static str
        ensures { result.now ≡ mnemonic_of self }
    {
        match self {
            Instr::Lui { .. } => "lui",
            Instr::Auipc { .. } => "auipc",
            Instr::Jal { .. } => "jal",
            Instr::Jalr { .. } => "jalr",
            Instr::Branch { condition, .. } => branch_row(condition).mnemonic,
            Instr::Load { operator, .. } => load_row(operator).mnemonic,
            Instr::Store { width, .. } => store_row(width).mnemonic,
            Instr::Immediate { operator, .. } => immediate_row(operator).mnemonic,
            Instr::Shift { operator, .. } => shift_row(operator).mnemonic,
            Instr::Register { operator, .. } => register_row(operator).mnemonic,
            Instr::Fence => "fence",
            Instr::FenceI => "fence.i",
            Instr::Ecall => "ecall",
            Instr::Ebreak => "ebreak",
        }
    }
}

/// The instruction as an assembler reads it, as `addi a0,zero,5`. Mnemonic and names are in lower case, immediates and offsets in
/// decimal. The upper immediate of LUI and AUIPC is in hexadecimal.
impl fmt::Display for Instr {
    ghost output = { λ i. Some (text_of i) };

    fn fmt<W: fmt::Write>(&self, f: &mut fmt::Formatter<W>) -> fmt::Result {
        let mnemonic = self.mnemonic();
        let operands = Operands { instr: *self };
        write!(f, "{mnemonic}{operands}")
    }
}

/// Writes the same as `Display`.
impl fmt::Debug for Instr {
    ghost debug_output = { λ i. Some (text_of i) };

    fn fmt<W: fmt::Write>(&self, f: &mut fmt::Formatter<W>) -> fmt::Result {
        fmt::Display::fmt(self, f)
    }
}

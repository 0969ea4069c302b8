//! Instructions from numbers that may not fit their fields.
ghost use Rattle.std.specs.Prelude.{◌≡◌, OkIff, unsigned_abs};
ghost use Rattle.formats.specs.Faults.{number_of};
ghost use Rattle.formats.specs.declared.operators.Condition.TheVariants as condition;
ghost use Rattle.formats.specs.Fields.{IsImmediate, IsBranchOffset, IsJumpOffset, IsUpper, IsShiftAmount};

use crate::fields::{BranchOffset, Immediate, JumpOffset, Reg, ShiftAmount, Upper};
use crate::instr::Instr;
use crate::operators::{Condition, ImmediateOperator, LoadOperator, ShiftOperator};
use memory_model::Width;
use thiserror::Error;

/// Why a number is no field of an instruction.
#[derive(Clone, Copy, Debug, PartialEq, Eq, Error)]
pub enum FieldFault {
    /// The field cannot hold the number: it is too small, too large, or an odd offset.
    #[error("the number does not fit its field")]
    Range = 1,
}

impl FieldFault {
    /// Its number, 1.
    pub fn number(self) -> u8
        ensures { result ≡ number_of self }
    {
        self as u8
    }
}

/// Constructors from numbers that may not fit their fields: `FieldFault::Range` where one does not. Offsets are in bytes from the
/// instruction itself. An upper immediate is the number in the field, below 2^20 and not yet shifted.
impl Instr {
    /// `lui rd,imm`: rd becomes imm, shifted up by twelve bits.
    pub fn lui(rd: Reg, imm: i64) -> Result<Self, FieldFault>
        ensures { OkIff result (IsUpper imm) (Instr.Lui rd (unsigned_abs imm)) }
    {
        let imm = upper(imm)?;
        Ok(Instr::Lui { rd, imm })
    }

    /// `auipc rd,imm`: rd becomes the pc plus imm, shifted up by twelve bits.
    pub fn auipc(rd: Reg, imm: i64) -> Result<Self, FieldFault>
        ensures { OkIff result (IsUpper imm) (Instr.Auipc rd (unsigned_abs imm)) }
    {
        let imm = upper(imm)?;
        Ok(Instr::Auipc { rd, imm })
    }

    /// `jal rd,offset`: goes to the pc plus offset; rd becomes the address of the next instruction.
    pub fn jal(rd: Reg, offset: i64) -> Result<Self, FieldFault>
        ensures { OkIff result (IsJumpOffset offset) (Instr.Jal rd offset) }
    {
        let offset = jump_offset(offset)?;
        Ok(Instr::Jal { rd, offset })
    }

    /// `jalr rd,imm(rs1)`: goes to rs1 plus imm, its lowest bit cleared; rd becomes the address of the next instruction.
    pub fn jalr(rd: Reg, rs1: Reg, imm: i64) -> Result<Self, FieldFault>
        ensures { OkIff result (IsImmediate imm) (Instr.Jalr rd rs1 imm) }
    {
        let imm = immediate(imm)?;
        Ok(Instr::Jalr { rd, rs1, imm })
    }

    /// `beq rs1,rs2,offset`: goes to the pc plus offset where rs1 equals rs2.
    pub fn beq(rs1: Reg, rs2: Reg, offset: i64) -> Result<Self, FieldFault>
        ensures { OkIff result (IsBranchOffset offset) (Instr.Branch condition.Equal rs1 rs2 offset) }
    {
        branch(Condition::Equal, rs1, rs2, offset)
    }

    /// `bne rs1,rs2,offset`: where rs1 does not equal rs2.
    pub fn bne(rs1: Reg, rs2: Reg, offset: i64) -> Result<Self, FieldFault>
        ensures { OkIff result (IsBranchOffset offset) (Instr.Branch condition.NotEqual rs1 rs2 offset) }
    {
        branch(Condition::NotEqual, rs1, rs2, offset)
    }

    /// `blt rs1,rs2,offset`: where rs1 is below rs2, both signed.
    pub fn blt(rs1: Reg, rs2: Reg, offset: i64) -> Result<Self, FieldFault>
        ensures { OkIff result (IsBranchOffset offset) (Instr.Branch condition.Less rs1 rs2 offset) }
    {
        branch(Condition::Less, rs1, rs2, offset)
    }

    /// `bge rs1,rs2,offset`: where rs1 is at least rs2, both signed.
    pub fn bge(rs1: Reg, rs2: Reg, offset: i64) -> Result<Self, FieldFault>
        ensures { OkIff result (IsBranchOffset offset) (Instr.Branch condition.NotLess rs1 rs2 offset) }
    {
        branch(Condition::NotLess, rs1, rs2, offset)
    }

    /// `bltu rs1,rs2,offset`: where rs1 is below rs2, both unsigned.
    pub fn bltu(rs1: Reg, rs2: Reg, offset: i64) -> Result<Self, FieldFault>
        ensures { OkIff result (IsBranchOffset offset) (Instr.Branch condition.Below rs1 rs2 offset) }
    {
        branch(Condition::Below, rs1, rs2, offset)
    }

    /// `bgeu rs1,rs2,offset`: where rs1 is at least rs2, both unsigned.
    pub fn bgeu(rs1: Reg, rs2: Reg, offset: i64) -> Result<Self, FieldFault>
        ensures { OkIff result (IsBranchOffset offset) (Instr.Branch condition.NotBelow rs1 rs2 offset) }
    {
        branch(Condition::NotBelow, rs1, rs2, offset)
    }

    /// `lb rd,imm(rs1)`: loads a byte, with its sign.
    pub fn lb(rd: Reg, rs1: Reg, imm: i64) -> Result<Self, FieldFault>
        ensures { OkIff result (IsImmediate imm) (Instr.Load LoadOperator.Lb rd rs1 imm) }
    {
        load(LoadOperator::Lb, rd, rs1, imm)
    }

    /// `lh rd,imm(rs1)`: loads two bytes, with their sign.
    pub fn lh(rd: Reg, rs1: Reg, imm: i64) -> Result<Self, FieldFault>
        ensures { OkIff result (IsImmediate imm) (Instr.Load LoadOperator.Lh rd rs1 imm) }
    {
        load(LoadOperator::Lh, rd, rs1, imm)
    }

    /// `lw rd,imm(rs1)`: loads four bytes.
    pub fn lw(rd: Reg, rs1: Reg, imm: i64) -> Result<Self, FieldFault>
        ensures { OkIff result (IsImmediate imm) (Instr.Load LoadOperator.Lw rd rs1 imm) }
    {
        load(LoadOperator::Lw, rd, rs1, imm)
    }

    /// `lbu rd,imm(rs1)`: loads a byte, unsigned.
    pub fn lbu(rd: Reg, rs1: Reg, imm: i64) -> Result<Self, FieldFault>
        ensures { OkIff result (IsImmediate imm) (Instr.Load LoadOperator.Lbu rd rs1 imm) }
    {
        load(LoadOperator::Lbu, rd, rs1, imm)
    }

    /// `lhu rd,imm(rs1)`: loads two bytes, unsigned.
    pub fn lhu(rd: Reg, rs1: Reg, imm: i64) -> Result<Self, FieldFault>
        ensures { OkIff result (IsImmediate imm) (Instr.Load LoadOperator.Lhu rd rs1 imm) }
    {
        load(LoadOperator::Lhu, rd, rs1, imm)
    }

    /// `sb rs2,imm(rs1)`: stores the lowest byte of rs2.
    pub fn sb(rs1: Reg, rs2: Reg, imm: i64) -> Result<Self, FieldFault>
        ensures { OkIff result (IsImmediate imm) (Instr.Store Width.Byte rs1 rs2 imm) }
    {
        store(Width::Byte, rs1, rs2, imm)
    }

    /// `sh rs2,imm(rs1)`: stores the lowest two bytes of rs2.
    pub fn sh(rs1: Reg, rs2: Reg, imm: i64) -> Result<Self, FieldFault>
        ensures { OkIff result (IsImmediate imm) (Instr.Store Width.Half rs1 rs2 imm) }
    {
        store(Width::Half, rs1, rs2, imm)
    }

    /// `sw rs2,imm(rs1)`: stores rs2.
    pub fn sw(rs1: Reg, rs2: Reg, imm: i64) -> Result<Self, FieldFault>
        ensures { OkIff result (IsImmediate imm) (Instr.Store Width.Word rs1 rs2 imm) }
    {
        store(Width::Word, rs1, rs2, imm)
    }

    /// `addi rd,rs1,imm`: the sum, which wraps.
    pub fn addi(rd: Reg, rs1: Reg, imm: i64) -> Result<Self, FieldFault>
        ensures { OkIff result (IsImmediate imm) (Instr.Immediate ImmediateOperator.Addi rd rs1 imm) }
    {
        operation(ImmediateOperator::Addi, rd, rs1, imm)
    }

    /// `slti rd,rs1,imm`: 1 where rs1 is below imm, both signed, else 0.
    pub fn slti(rd: Reg, rs1: Reg, imm: i64) -> Result<Self, FieldFault>
        ensures { OkIff result (IsImmediate imm) (Instr.Immediate ImmediateOperator.Slti rd rs1 imm) }
    {
        operation(ImmediateOperator::Slti, rd, rs1, imm)
    }

    /// `sltiu rd,rs1,imm`: 1 where rs1 is below imm, extended with its sign and then unsigned, else 0.
    pub fn sltiu(rd: Reg, rs1: Reg, imm: i64) -> Result<Self, FieldFault>
        ensures { OkIff result (IsImmediate imm) (Instr.Immediate ImmediateOperator.Sltiu rd rs1 imm) }
    {
        operation(ImmediateOperator::Sltiu, rd, rs1, imm)
    }

    /// `xori rd,rs1,imm`: the exclusive or of the bits.
    pub fn xori(rd: Reg, rs1: Reg, imm: i64) -> Result<Self, FieldFault>
        ensures { OkIff result (IsImmediate imm) (Instr.Immediate ImmediateOperator.Xori rd rs1 imm) }
    {
        operation(ImmediateOperator::Xori, rd, rs1, imm)
    }

    /// `ori rd,rs1,imm`: the or of the bits.
    pub fn ori(rd: Reg, rs1: Reg, imm: i64) -> Result<Self, FieldFault>
        ensures { OkIff result (IsImmediate imm) (Instr.Immediate ImmediateOperator.Ori rd rs1 imm) }
    {
        operation(ImmediateOperator::Ori, rd, rs1, imm)
    }

    /// `andi rd,rs1,imm`: the and of the bits.
    pub fn andi(rd: Reg, rs1: Reg, imm: i64) -> Result<Self, FieldFault>
        ensures { OkIff result (IsImmediate imm) (Instr.Immediate ImmediateOperator.Andi rd rs1 imm) }
    {
        operation(ImmediateOperator::Andi, rd, rs1, imm)
    }

    /// `slli rd,rs1,amount`: rs1 shifted up.
    pub fn slli(rd: Reg, rs1: Reg, amount: i64) -> Result<Self, FieldFault>
        ensures { OkIff result (IsShiftAmount amount) (Instr.Shift ShiftOperator.Slli rd rs1 (unsigned_abs amount)) }
    {
        shift(ShiftOperator::Slli, rd, rs1, amount)
    }

    /// `srli rd,rs1,amount`: rs1 shifted down, zeros coming in.
    pub fn srli(rd: Reg, rs1: Reg, amount: i64) -> Result<Self, FieldFault>
        ensures { OkIff result (IsShiftAmount amount) (Instr.Shift ShiftOperator.Srli rd rs1 (unsigned_abs amount)) }
    {
        shift(ShiftOperator::Srli, rd, rs1, amount)
    }

    /// `srai rd,rs1,amount`: rs1 shifted down, copies of the sign coming in.
    pub fn srai(rd: Reg, rs1: Reg, amount: i64) -> Result<Self, FieldFault>
        ensures { OkIff result (IsShiftAmount amount) (Instr.Shift ShiftOperator.Srai rd rs1 (unsigned_abs amount)) }
    {
        shift(ShiftOperator::Srai, rd, rs1, amount)
    }
}

fn branch(condition: Condition, rs1: Reg, rs2: Reg, offset: i64) -> Result<Instr, FieldFault>
    ensures { OkIff result (IsBranchOffset offset) (Instr.Branch condition rs1 rs2 offset) }
{
    let offset = branch_offset(offset)?;
    Ok(Instr::Branch {
        condition,
        rs1,
        rs2,
        offset,
    })
}

fn load(operator: LoadOperator, rd: Reg, rs1: Reg, imm: i64) -> Result<Instr, FieldFault>
    ensures { OkIff result (IsImmediate imm) (Instr.Load operator rd rs1 imm) }
{
    let imm = immediate(imm)?;
    Ok(Instr::Load {
        operator,
        rd,
        rs1,
        imm,
    })
}

fn store(width: Width, rs1: Reg, rs2: Reg, imm: i64) -> Result<Instr, FieldFault>
    ensures { OkIff result (IsImmediate imm) (Instr.Store width rs1 rs2 imm) }
{
    let imm = immediate(imm)?;
    Ok(Instr::Store {
        width,
        rs1,
        rs2,
        imm,
    })
}

fn operation(operator: ImmediateOperator, rd: Reg, rs1: Reg, imm: i64) -> Result<Instr, FieldFault>
    ensures { OkIff result (IsImmediate imm) (Instr.Immediate operator rd rs1 imm) }
{
    let imm = immediate(imm)?;
    Ok(Instr::Immediate {
        operator,
        rd,
        rs1,
        imm,
    })
}

fn shift(operator: ShiftOperator, rd: Reg, rs1: Reg, amount: i64) -> Result<Instr, FieldFault>
    ensures { OkIff result (IsShiftAmount amount) (Instr.Shift operator rd rs1 (unsigned_abs amount)) }
{
    let amount = shift_amount(amount)?;
    Ok(Instr::Shift {
        operator,
        rd,
        rs1,
        amount,
    })
}

fn immediate(imm: i64) -> Result<Immediate, FieldFault>
    ensures { OkIff result (IsImmediate imm) imm }
{
    if imm < -2048 || imm > 2047 {
        return Err(FieldFault::Range);
    }
    Ok(Immediate::new(imm as i32))
}

fn branch_offset(offset: i64) -> Result<BranchOffset, FieldFault>
    ensures { OkIff result (IsBranchOffset offset) offset }
{
    if offset < -4096 || offset > 4094 || offset.cast_unsigned() % 2 != 0 {
        return Err(FieldFault::Range);
    }
    Ok(BranchOffset::new(offset as i32))
}

fn jump_offset(offset: i64) -> Result<JumpOffset, FieldFault>
    ensures { OkIff result (IsJumpOffset offset) offset }
{
    if offset < -1048576 || offset > 1048574 || offset.cast_unsigned() % 2 != 0 {
        return Err(FieldFault::Range);
    }
    Ok(JumpOffset::new(offset as i32))
}

fn upper(imm: i64) -> Result<Upper, FieldFault>
    ensures { OkIff result (IsUpper imm) (unsigned_abs imm) }
{
    if imm < 0 || imm > 1048575 {
        return Err(FieldFault::Range);
    }
    Ok(Upper::new(imm as u32))
}

fn shift_amount(amount: i64) -> Result<ShiftAmount, FieldFault>
    ensures { OkIff result (IsShiftAmount amount) (unsigned_abs amount) }
{
    if amount < 0 || amount > 31 {
        return Err(FieldFault::Range);
    }
    Ok(ShiftAmount::new(amount as u8))
}

//! What each instruction does to the registers and a memory.
ghost use Rattle.std.specs.Prelude.{◌≡◌, ◌+◌, ◌-◌, ◌*◌, ◌%◌, ◌^◌, slice_index};
ghost use Rattle.formats.specs.Operators.{immediate_arithmetic, width_of};
ghost use Rattle.machine_model.specs.Arithmetic as model;
ghost use Rattle.machine_model.specs.Effects as effects;
ghost use Rattle.machine_model.specs.Effects.{effect, put, fault_cause, extended as extended_of, links, branches, loads, stores};
ghost use Rattle.memory_model.specs.Memory.{Memory};
ghost use Rattle.machine_model.specs.States.{architectural};
ghost use Rattle.isa_table.specs.Executes.{Executes};
ghost use Rattle.machine_model.specs.Operators.{holds_of, value_of};

use crate::arithmetic::{moved, sign_extended};
use crate::operation::{computed, holds};
use crate::regs::Regs;
use formats::{
    Arithmetic, BranchOffset, Condition, Immediate, ImmediateOperator, Instr, LoadOperator, Reg,
    ShiftAmount,
};
use machine_model::{Bus, BusFault, Cause, Width, word_of_immediate};

/// What an instruction came to.
#[derive(Clone, Copy, Debug, PartialEq, Eq)]
pub enum Outcome {
    /// It is done, and the next instruction follows.
    Next,
    /// It is ECALL. Nothing changed.
    Call,
    /// It traps. Nothing changed.
    Trap(Cause),
}

#[inline]
fn advance(regs: &mut Regs) -> Outcome
    ensures answer { result ≡ Outcome.Next }
    ensures x { regs.new.x ≡ regs.old.x }
    ensures pc { regs.new.pc ≡ (regs.old.pc + 4) % 2 ^ 32 }
{
    regs.pc = regs.pc.wrapping_add(4);
    Outcome::Next
}

#[inline]
fn write(regs: &mut Regs, rd: Reg, value: u32) -> Outcome
    ensures answer { result ≡ Outcome.Next }
    ensures x { regs.new.x ≡ put regs.old.x rd value }
    ensures pc { regs.new.pc ≡ (regs.old.pc + 4) % 2 ^ 32 }
{
    // Read before the write, the program counter can stay in a register of the host.
    let next = regs.pc.wrapping_add(4);
    regs.set(rd, value);
    regs.pc = next;
    Outcome::Next
}

#[inline(always)]
fn by_registers(regs: &mut Regs, operation: Arithmetic, rd: Reg, rs1: Reg, rs2: Reg) -> Outcome
    ensures answer { result ≡ Outcome.Next }
    ensures x { regs.new.x ≡ put regs.old.x rd (value_of operation (slice_index regs.old.x rs1) (slice_index regs.old.x rs2)) }
    ensures pc { regs.new.pc ≡ (regs.old.pc + 4) % 2 ^ 32 }
{
    let value = computed(operation, regs.get(rs1), regs.get(rs2));
    write(regs, rd, value)
}

#[inline(always)]
fn by_immediate(
    regs: &mut Regs,
    operator: ImmediateOperator,
    rd: Reg,
    rs1: Reg,
    imm: Immediate,
) -> Outcome
    ensures answer { result ≡ Outcome.Next }
    ensures x { regs.new.x ≡ put regs.old.x rd (value_of (immediate_arithmetic operator) (slice_index regs.old.x rs1) (model.as_word imm)) }
    ensures pc { regs.new.pc ≡ (regs.old.pc + 4) % 2 ^ 32 }
{
    let value = computed(operator.arithmetic(), regs.get(rs1), word_of_immediate(imm));
    write(regs, rd, value)
}

#[inline(always)]
fn by_amount(
    regs: &mut Regs,
    operation: Arithmetic,
    rd: Reg,
    rs1: Reg,
    amount: ShiftAmount,
) -> Outcome
    ensures answer { result ≡ Outcome.Next }
    ensures x { regs.new.x ≡ put regs.old.x rd (value_of operation (slice_index regs.old.x rs1) amount) }
    ensures pc { regs.new.pc ≡ (regs.old.pc + 4) % 2 ^ 32 }
{
    let value = computed(operation, regs.get(rs1), u32::from(amount.value()));
    write(regs, rd, value)
}

#[inline]
fn address(regs: &Regs, base: Reg, offset: Immediate) -> u32
    ensures { result ≡ effects.moved (slice_index regs.now.x base) offset }
{
    moved(regs.get(base), offset.value())
}

/// Jumps to a target and puts the address of the next instruction into rd.
#[inline]
fn link(regs: &mut Regs, rd: Reg, target: u32) -> Outcome
    ensures { (m : Memory) → Executes
        (links (architectural regs.old.x regs.old.pc m) rd target)
        result
        (architectural regs.old.x regs.old.pc m)
        (architectural regs.new.x regs.new.pc m) }
{
    let return_address = regs.pc.wrapping_add(4);
    if target % 4 != 0 {
        return Outcome::Trap(Cause::MisalignedTarget);
    }
    regs.set(rd, return_address);
    regs.pc = target;
    Outcome::Next
}

/// As `link`, to a register's value plus an offset, with bit 0 cleared.
#[inline]
fn link_to_register(regs: &mut Regs, rd: Reg, base: Reg, offset: Immediate) -> Outcome
    ensures { (m : Memory) → Executes
        (links (architectural regs.old.x regs.old.pc m) rd (effects.moved (slice_index regs.old.x base) offset - effects.moved (slice_index regs.old.x base) offset % 2))
        result
        (architectural regs.old.x regs.old.pc m)
        (architectural regs.new.x regs.new.pc m) }
{
    let target = address(regs, base, offset);
    link(regs, rd, target - target % 2)
}

#[inline(always)]
fn branch(
    regs: &mut Regs,
    condition: Condition,
    rs1: Reg,
    rs2: Reg,
    offset: BranchOffset,
) -> Outcome
    ensures { (m : Memory) → Executes
        (branches (architectural regs.old.x regs.old.pc m) (holds_of condition (slice_index regs.old.x rs1) (slice_index regs.old.x rs2)) offset)
        result
        (architectural regs.old.x regs.old.pc m)
        (architectural regs.new.x regs.new.pc m) }
{
    let is_taken = holds(condition, regs.get(rs1), regs.get(rs2));
    if !is_taken {
        return advance(regs);
    }
    let target = moved(regs.pc, offset.value());
    if target % 4 != 0 {
        return Outcome::Trap(Cause::MisalignedTarget);
    }
    regs.pc = target;
    Outcome::Next
}

#[inline]
fn cause_of(fault: BusFault) -> Cause
    ensures { result ≡ fault_cause fault }
{
    match fault {
        BusFault::Misaligned => Cause::MisalignedData,
        BusFault::Unmapped | BusFault::NoRight => Cause::PageFault,
    }
}

/// The word of a loaded value.
#[inline]
fn extended(operator: LoadOperator, value: u32) -> u32
    ensures { result ≡ extended_of operator value }
{
    match operator {
        LoadOperator::Lb => sign_extended(value, Width::Byte),
        LoadOperator::Lh => sign_extended(value, Width::Half),
        LoadOperator::Lw | LoadOperator::Lbu | LoadOperator::Lhu => value,
    }
}

#[inline]
fn load<B: Bus>(
    regs: &mut Regs,
    bus: &B,
    operator: LoadOperator,
    rd: Reg,
    base: Reg,
    offset: Immediate,
) -> Outcome
    ensures { Executes
        (loads (architectural regs.old.x regs.old.pc (B.memory bus.now)) rd (effects.moved (slice_index regs.old.x base) offset) (width_of operator) (extended_of operator))
        result
        (architectural regs.old.x regs.old.pc (B.memory bus.now))
        (architectural regs.new.x regs.new.pc (B.memory bus.now)) }
{
    match bus.load(address(regs, base, offset), operator.width()) {
        Ok(value) => write(regs, rd, extended(operator, value)),
        Err(fault) => Outcome::Trap(cause_of(fault)),
    }
}

#[inline]
fn store<B: Bus>(
    regs: &mut Regs,
    bus: &mut B,
    rs2: Reg,
    base: Reg,
    offset: Immediate,
    width: Width,
) -> Outcome
    ensures { Executes
        (stores (architectural regs.old.x regs.old.pc (B.memory bus.old)) (effects.moved (slice_index regs.old.x base) offset) width (slice_index regs.old.x rs2))
        result
        (architectural regs.old.x regs.old.pc (B.memory bus.old))
        (architectural regs.new.x regs.new.pc (B.memory bus.new)) }
{
    match bus.store(address(regs, base, offset), width, regs.get(rs2)) {
        Ok(()) => advance(regs),
        Err(fault) => Outcome::Trap(cause_of(fault)),
    }
}

/// Does one instruction (RISC-V Unprivileged ISA 20191213, chapters 2 and 7). At a call or a trap neither the registers nor the
/// memory change.
#[inline]
pub fn exec<B: Bus>(regs: &mut Regs, bus: &mut B, i: Instr) -> Outcome
    ensures { Executes
        (effect i (architectural regs.old.x regs.old.pc (B.memory bus.old)))
        result
        (architectural regs.old.x regs.old.pc (B.memory bus.old))
        (architectural regs.new.x regs.new.pc (B.memory bus.new)) }
{
    exec_ref(regs, bus, &i)
}

/// As `exec`. It is faster by reference, since each arm then reads only the fields that it uses.
#[inline]
#[tactic(auto, unfolding(machine_model::specs::Effects::effect))]
pub fn exec_ref<B: Bus>(regs: &mut Regs, bus: &mut B, i: &Instr) -> Outcome
    ensures { Executes
        (effect i.now (architectural regs.old.x regs.old.pc (B.memory bus.old)))
        result
        (architectural regs.old.x regs.old.pc (B.memory bus.old))
        (architectural regs.new.x regs.new.pc (B.memory bus.new)) }
{
    match *i {
        Instr::Lui { rd, imm } => write(regs, rd, imm.value() << 12),
        Instr::Auipc { rd, imm } => write(regs, rd, regs.pc.wrapping_add(imm.value() << 12)),
        Instr::Jal { rd, offset } => link(regs, rd, moved(regs.pc, offset.value())),
        Instr::Jalr { rd, rs1, imm } => link_to_register(regs, rd, rs1, imm),
        Instr::Branch {
            condition,
            rs1,
            rs2,
            offset,
        } => branch(regs, condition, rs1, rs2, offset),
        Instr::Load {
            operator,
            rd,
            rs1,
            imm,
        } => load(regs, bus, operator, rd, rs1, imm),
        Instr::Store {
            width,
            rs1,
            rs2,
            imm,
        } => store(regs, bus, rs2, rs1, imm, width),
        Instr::Immediate {
            operator,
            rd,
            rs1,
            imm,
        } => by_immediate(regs, operator, rd, rs1, imm),
        Instr::Shift {
            operator,
            rd,
            rs1,
            amount,
        } => by_amount(regs, operator.arithmetic(), rd, rs1, amount),
        Instr::Register {
            operator,
            rd,
            rs1,
            rs2,
        } => by_registers(regs, operator, rd, rs1, rs2),
        Instr::Fence | Instr::FenceI => advance(regs),
        Instr::Ecall => Outcome::Call,
        Instr::Ebreak => Outcome::Trap(Cause::Breakpoint),
    }
}

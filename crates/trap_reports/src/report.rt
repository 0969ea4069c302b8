//! What is reported of a machine that stands at a trap.
ghost use Rattle.std.specs.Prelude.{◌≡◌, is_some, IfSome};
ghost use Rattle.std.specs.Option.{option_map};
ghost use Rattle.machine_model.specs.States.{stopped_at};
ghost use Rattle.memory_model.specs.Access.{value_at};
ghost use Rattle.trap_reports.specs.Named.{named_in};
ghost use Rattle.trap_reports.specs.Places.{below_stack, is_word_there, place_of, there_at};
ghost use Rattle.trap_reports.specs.Traps.{cause_in};

use crate::address::named_by;
use crate::there::There;
use formats::{Reg, decode};
use machine::Machine;
use machine_model::{Cause, Stop};
use std::fmt;

/// The number of the register sp.
const SP: u8 = 2;

/// The lowest address of the stack.
const STACK: u32 = 0x7FFF_C000;

/// A trap: its cause, where the machine stands, and what it is about. It prints as one line.
#[derive(Clone, Copy, Debug)]
pub struct TrapReport {
    pub cause: Cause,
    pub pc: u32,
    /// The word at the pc, if bytes stand there.
    pub word: Option<u32>,
    /// The address that the instruction names, if it names one, and what is there.
    pub named: Option<(u32, There)>,
    /// What is at the pc.
    pub there: There,
    /// The stack pointer, where it stands below the stack and no page is there.
    pub below_stack: Option<u32>,
}

impl TrapReport {
    /// The address that the trap is about, and what is there: the address that the instruction names, where that is misaligned or may
    /// not be used; else the pc.
    pub fn place(&self) -> (u32, There)
        ensures { result ≡ place_of self.now }
    {
        let here = (self.pc, self.there);
        match self.cause {
            Cause::MisalignedTarget | Cause::MisalignedData | Cause::PageFault => {
                self.named.unwrap_or(here)
            }
            Cause::Illegal | Cause::FetchFault | Cause::Breakpoint => here,
        }
    }
}

/// The four bytes at the pc as a word, whatever the rights of their page.
fn word_of(machine: &Machine) -> Option<u32>
    ensures there { is_some result ≡ is_word_there machine.now.architectural.memory machine.now.architectural.pc }
    ensures word { IfSome result (λ word. word ≡ value_at machine.now.architectural.memory machine.now.architectural.pc 4) }
{
    let space = machine.space();
    let at = machine.pc();
    Some(u32::from_le_bytes([
        space.byte(at)?,
        space.byte(at + 1)?,
        space.byte(at + 2)?,
        space.byte(at + 3)?,
    ]))
}

/// The address that the instruction at the pc names, if it names one, and what is there.
fn named_at(machine: &Machine, word: Option<u32>) -> Option<(u32, There)>
    ensures address { option_map (λ n. n.0) result ≡ named_in word machine.now.architectural }
    ensures there { IfSome result (λ n. n.1 ≡ there_at machine.now.architectural.memory n.0) }
{
    let at = named_by(machine, decode(word?)?)?;
    Some((at, There::at(machine.space(), at)))
}

/// The stack pointer, where it stands below the stack and no page is there.
fn below_stack(machine: &Machine) -> Option<u32>
    ensures { result ≡ below_stack machine.now.architectural }
{
    let at = machine.reg(Reg::new(SP));
    if at < STACK && machine.space().byte(at).is_none() {
        Some(at)
    } else {
        None
    }
}

/// The report of a machine that stands at a trap of this cause.
fn report(machine: &Machine, cause: Cause) -> TrapReport
    ensures cause { result.cause ≡ cause }
    ensures pc { result.pc ≡ machine.now.architectural.pc }
    ensures told { is_some result.word ≡ is_word_there machine.now.architectural.memory machine.now.architectural.pc }
    ensures word { IfSome result.word (λ word. word ≡ value_at machine.now.architectural.memory machine.now.architectural.pc 4) }
    ensures named { option_map (λ n. n.0) result.named ≡ named_in result.word machine.now.architectural }
    ensures named_there { IfSome result.named (λ n. n.1 ≡ there_at machine.now.architectural.memory n.0) }
    ensures there { result.there ≡ there_at machine.now.architectural.memory machine.now.architectural.pc }
    ensures below_stack { result.below_stack ≡ below_stack machine.now.architectural }
{
    let pc = machine.pc();
    let word = word_of(machine);
    TrapReport {
        cause,
        pc,
        word,
        named: named_at(machine, word),
        there: There::at(machine.space(), pc),
        below_stack: below_stack(machine),
    }
}

/// What is reported of a machine. None where it stands at no trap.
pub fn trap_report(machine: &Machine) -> Option<TrapReport>
    ensures cause { option_map (λ r. r.cause) result ≡ cause_in (stopped_at machine.now) }
    ensures pc { IfSome result (λ r. r.pc ≡ machine.now.architectural.pc) }
    ensures told { IfSome result (λ r. is_some r.word ≡ is_word_there machine.now.architectural.memory machine.now.architectural.pc) }
    ensures word { IfSome result (λ r. IfSome r.word (λ word. word ≡ value_at machine.now.architectural.memory machine.now.architectural.pc 4)) }
    ensures named { IfSome result (λ r. option_map (λ n. n.0) r.named ≡ named_in r.word machine.now.architectural) }
    ensures named_there { IfSome result (λ r. IfSome r.named (λ n. n.1 ≡ there_at machine.now.architectural.memory n.0)) }
    ensures there { IfSome result (λ r. r.there ≡ there_at machine.now.architectural.memory machine.now.architectural.pc) }
    ensures below_stack { IfSome result (λ r. r.below_stack ≡ below_stack machine.now.architectural) }
{
    match machine.stopped() {
        Some(Stop::Trap(cause)) => Some(report(machine, cause)),
        _ => None,
    }
}

/// Writes what is at the address of a load or a store, and whether the stack pointer has left the stack.
fn write_place<W: fmt::Write>(
    at: u32,
    there: There,
    below_stack: Option<u32>,
    f: &mut fmt::Formatter<W>,
) -> fmt::Result {
    write!(f, ", address {at:08x}, {there}")?;
    match below_stack {
        Some(sp) if there == There::NoPage => {
            write!(f, "; sp is {sp:08x}, below the stack of 16384 bytes")
        }
        _ => Ok(()),
    }
}

/// Writes what a trap is about, after its pc.
fn write_about<W: fmt::Write>(report: &TrapReport, f: &mut fmt::Formatter<W>) -> fmt::Result {
    match (report.cause, report.named, report.word) {
        (Cause::PageFault, Some((at, there)), _) => write_place(at, there, report.below_stack, f),
        (Cause::MisalignedData, Some((at, _)), _) => {
            write!(
                f,
                ", address {at:08x}, no multiple of the width of the access"
            )
        }
        (Cause::MisalignedTarget, Some((at, _)), _) => {
            write!(f, ", to address {at:08x}, no multiple of 4")
        }
        (Cause::Illegal, _, Some(word)) => {
            write!(f, ", where the word {word:08x} means no instruction")
        }
        (Cause::Breakpoint, _, _) => f.write_str(", where ebreak stands"),
        _ => {
            let there = report.there;
            write!(f, ", {there}")
        }
    }
}

impl fmt::Display for TrapReport {
    fn fmt<W: fmt::Write>(&self, f: &mut fmt::Formatter<W>) -> fmt::Result {
        let number = self.cause.number();
        let cause = self.cause;
        let pc = self.pc;
        write!(f, "trap {number} {cause:?} at pc {pc:08x}")?;
        write_about(self, f)
    }
}

//! A machine that goes on, an instruction at a time, with a line for each.
use crate::line::{Access, Line, Written};
use debugger::{MOST_INSTRUCTIONS, Machine};
use formats::{Instr, Reg, decode};
use isa_table::moved;
use memory_model::Width;
use std::io;
use std::io::Write;

/// The word of `ecall`.
const ECALL: u32 = 0x73;

/// The lowest bytes of a word, and how many there are.
fn lowest(word: u32, width: Width) -> (u32, u32) {
    match width {
        Width::Byte => (word % 0x100, 1),
        Width::Half => (word % 0x1_0000, 2),
        Width::Word => (word, 4),
    }
}

/// What the next instruction does with memory, if it does.
fn access_of(machine: &Machine, word: u32) -> Option<Access> {
    match decode(word)? {
        Instr::Load { rs1, imm, .. } => Some(Access::Load {
            at: moved(machine.reg(rs1), imm.value()),
        }),
        Instr::Store {
            width,
            rs1,
            rs2,
            imm,
        } => {
            let at = moved(machine.reg(rs1), imm.value());
            let (value, bytes) = lowest(machine.reg(rs2), width);
            Some(Access::Store { at, value, bytes })
        }
        _ => None,
    }
}

/// The register that the instruction of a word wrote, unless it wrote none, or x0.
fn written_by(machine: &Machine, word: u32) -> Option<Written> {
    let register = match decode(word)? {
        Instr::Lui { rd, .. }
        | Instr::Auipc { rd, .. }
        | Instr::Jal { rd, .. }
        | Instr::Jalr { rd, .. }
        | Instr::Load { rd, .. }
        | Instr::Immediate { rd, .. }
        | Instr::Shift { rd, .. }
        | Instr::Register { rd, .. } => rd,
        _ => return None,
    };
    if register.number() == 0 {
        return None;
    }
    Some(Written {
        register,
        value: machine.reg(register),
    })
}

/// Does the next instruction. None where it cannot be done, since it is a call, traps, or is one too many: then nothing has changed.
fn step(machine: &mut Machine) -> Option<Line> {
    let at = machine.pc();
    let word = machine.space().fetch(at).ok()?;
    let access = access_of(machine, word);
    if machine.count() >= MOST_INSTRUCTIONS {
        return None;
    }
    let (done, _stop) = machine.run(1);
    if done == 0 {
        return None;
    }
    Some(Line {
        at,
        word,
        written: written_by(machine, word),
        access,
    })
}

/// Does so many instructions, or fewer where a call or a trap comes before, and writes a line for each.
pub fn write_steps<O: Write>(machine: &mut Machine, steps: u64, out: &mut O) -> io::Result<()> {
    for _ in 0..steps {
        let Some(line) = step(machine) else {
            return Ok(());
        };
        line.write(out)?;
    }
    Ok(())
}

/// Writes the line of a call at an address, which was told this in a0.
pub fn write_call<O: Write>(at: u32, told: u32, out: &mut O) -> io::Result<()> {
    let written = Written {
        register: Reg::new(10),
        value: told,
    };
    let line = Line {
        at,
        word: ECALL,
        written: Some(written),
        access: None,
    };
    line.write(out)
}

//! Where a process stands, and on what it waits.
use crate::family::Family;
use call_forms::Style;
use call_lines::{Awaited, awaited_at, could_end, text_at};
use exec_files::PlaceText;
use formats::decode;
use kernel::Core;
use std::fmt;

/// Where a process stands, as a part of a line: the instruction, and the line of its source or the function, as far as they are known.
#[derive(Clone, Copy)]
pub struct StandText<'c, 'f> {
    pub core: &'c Core,
    pub family: &'f Family,
    pub pid: u32,
}

/// Nothing where no word may be fetched: a jump into nowhere has no line, and is in no function.
impl fmt::Display for StandText<'_, '_> {
    fn fmt<W: fmt::Write>(&self, f: &mut fmt::Formatter<W>) -> fmt::Result {
        let Ok(machine) = self.core.machine(self.pid) else {
            return Ok(());
        };
        let address = machine.pc();
        let Ok(word) = machine.space().fetch(address) else {
            return Ok(());
        };
        match decode(word) {
            Some(instruction) => write!(f, ", {instruction}")?,
            None => write!(f, ", the word {word:08x}")?,
        }
        match self.family.program_of(self.pid) {
            Some(program) => {
                let place = PlaceText {
                    places: &program.places,
                    address,
                };
                write!(f, "{place}")
            }
            None => Ok(()),
        }
    }
}

/// The call at which a process waits, on what, and which processes could end that.
#[derive(Clone, Copy)]
pub struct WaitText<'a> {
    pub core: &'a Core,
    pub pid: u32,
}

fn write_cause<W: fmt::Write>(f: &mut fmt::Formatter<W>, awaited: Awaited) -> fmt::Result {
    match awaited {
        Awaited::Bytes(pipe) => write!(f, "pipe {pipe} is empty, and may still be written by"),
        Awaited::Room(pipe) => write!(f, "pipe {pipe} is full, and may still be read by"),
        Awaited::Child => f.write_str("none of its children has ended:"),
    }
}

impl fmt::Display for WaitText<'_> {
    fn fmt<W: fmt::Write>(&self, f: &mut fmt::Formatter<W>) -> fmt::Result {
        let (tables, pid) = (self.core.tables(), self.pid);
        let Ok(machine) = self.core.machine(pid) else {
            return Ok(());
        };
        let call = text_at(machine, Style::Registers);
        write!(f, "{call}: ")?;
        let Some(awaited) = awaited_at(tables, pid, machine) else {
            return Ok(());
        };
        write_cause(f, awaited)?;
        let mut before = " process ";
        for other in 1..=tables.processes.len() as u32 {
            if could_end(tables, pid, awaited, other) {
                write!(f, "{before}{other}")?;
                before = ", ";
            }
        }
        Ok(())
    }
}

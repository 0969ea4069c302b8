//! Where a process is, and what its registers hold.
use crate::place_data::PlaceData;
use exec_reports::{Family, StandText};
use formats::Reg;
use kernel::{Core, Machine};
use std::alloc::{AllocError, Global};
use std::collections::BTreeMap;

/// How many registers a machine has.
const REGISTERS: usize = 32;

/// What the registers of a machine hold.
#[derive(Clone, Copy)]
pub struct Registers {
    words: [u32; REGISTERS],
}

impl Registers {
    /// All zero.
    pub fn zero() -> Registers {
        Registers {
            words: [0; REGISTERS],
        }
    }

    pub fn of(machine: &Machine) -> Registers {
        let mut words = [0; REGISTERS];
        for number in 0..32 {
            words[number as usize] = machine.reg(Reg::new(number));
        }
        Registers { words }
    }

    /// Those that hold something else than before, by their numbers, in hexadecimal digits.
    fn changed(
        &self,
        alloc: Global,
        before: &Registers,
    ) -> Result<BTreeMap<u32, String>, AllocError> {
        let mut changed = BTreeMap::new(alloc);
        for (number, (word, old)) in self.words.iter().zip(before.words.iter()).enumerate() {
            if word != old {
                let (word, number) = (*word, number as u32);
                changed.insert(number, format!(in alloc; "{word:08x}")?)?;
            }
        }
        Ok(changed)
    }
}

/// A core, and which program each of its processes runs.
#[derive(Clone, Copy)]
pub struct Seen<'c> {
    pub core: &'c Core,
    pub family: &'c Family,
}

/// Where a process is whose registers held this before. None where there is no such process.
pub fn place_of(
    alloc: Global,
    seen: Seen<'_>,
    pid: u32,
    before: &Registers,
) -> Result<Option<PlaceData>, AllocError> {
    let Seen { core, family } = seen;
    let Ok(machine) = core.machine(pid) else {
        return Ok(None);
    };
    let (pc, next) = (machine.pc(), StandText { core, family, pid });
    Ok(Some(PlaceData {
        pc: format!(in alloc; "{pc:08x}")?,
        next: format!(in alloc; "{next}")?,
        regs: Registers::of(machine).changed(alloc, before)?,
    }))
}

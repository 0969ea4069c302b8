//! Which of a source's faults are told, one for each cause.
use crate::place::place_in;
use crate::saying::said_of;
use crate::source::Source;
use assembler::{AsmFault, Cause};
use std::alloc::{AllocError, Global};

/// How many faults are told.
const MOST_TOLD: usize = 20;

/// Of how many faults it is found what would be said of them. The others are counted, since that takes its time.
const MOST_COMPARED: usize = 1000;

/// How many lines are named that have the same fault.
const MOST_LINES: usize = 6;

/// A fault that is told, and the lines of others of which the same would be said.
#[derive(Drop)]
pub struct Told {
    pub fault: AsmFault,
    /// By what it is known that of another fault the same would be said.
    key: String,
    lines: Vec<usize>,
}

impl Told {
    /// Adds which other lines have the same fault, if there are any.
    pub fn push_lines(&self, text: &mut String) -> Result<(), AllocError> {
        let count = self.lines.len();
        if count == 0 {
            return Ok(());
        }
        text.push_str(if count > 1 {
            "the same at lines"
        } else {
            "the same at line"
        })?;
        for (at, line) in self.lines.iter().take(MOST_LINES).enumerate() {
            let is_last = at.saturating_add(1) == count;
            let mark = match at {
                0 => " ",
                _ if is_last => " and ",
                _ => ", ",
            };
            write!(text, "{mark}{line}")?;
        }
        if count > MOST_LINES {
            let more = count - MOST_LINES;
            write!(text, " and {more} more")?;
        }
        text.push('\n')
    }
}

/// The faults that are told, and how many more there are.
#[derive(Drop)]
pub struct Telling {
    pub told: Vec<Told>,
    pub more: usize,
}

/// By what faults are the same: what is said of them, or of a label its name.
fn key_of(alloc: Global, source: &Source<'_>, fault: AsmFault) -> Result<String, AllocError> {
    let place = place_in(source.line(fault.line), fault.column);
    match fault.why {
        Cause::UnknownName | Cause::DoubleLabel => String::from_str(alloc, place.found),
        _ => said_of(alloc, source, fault.why, &place),
    }
}

impl Telling {
    /// Adds the line of a fault to one that is told and is the same. False where none is.
    fn fold(&mut self, fault: AsmFault, key: &str) -> Result<bool, AllocError> {
        for told in &mut self.told {
            if told.fault.why == fault.why && told.key.as_str() == key {
                told.lines.push(fault.line)?;
                return Ok(true);
            }
        }
        Ok(false)
    }

    /// Adds a fault if fewer than so many are told, and else counts it.
    fn add(
        &mut self,
        alloc: Global,
        fault: AsmFault,
        key: String,
        room: usize,
    ) -> Result<(), AllocError> {
        if self.told.len() >= room {
            self.more = self.more.saturating_add(1);
            return Ok(());
        }
        let lines = Vec::new(alloc);
        self.told.push(Told { fault, key, lines })?;
        Ok(())
    }
}

/// Which of the faults of a source are told, in their order. That which the assembler tells is always among them. Of the others it is
/// each of which something else is said, up to the most that are told.
pub fn tell(
    alloc: Global,
    source: &Source<'_>,
    faults: &[AsmFault],
    first: AsmFault,
) -> Result<Telling, AllocError> {
    let mut telling = Telling {
        told: Vec::new(alloc),
        more: 0,
    };
    let mut room = MOST_TOLD.saturating_sub(1);
    for (before, fault) in faults.iter().enumerate() {
        let is_first = *fault == first;
        if is_first {
            room = MOST_TOLD;
        }
        if is_first || before < MOST_COMPARED {
            let key = key_of(alloc, source, *fault)?;
            if is_first || !telling.fold(*fault, key.as_str())? {
                telling.add(alloc, *fault, key, room)?;
            }
        } else {
            telling.more = telling.more.saturating_add(1);
        }
    }
    Ok(telling)
}

//! The faults of a source's lines, each line read by itself, and its labels then looked up among all lines.
use crate::place::{label_of, name_of, without_comment, without_indent};
use crate::statements::{parts_of, tokens_of};
use asm_statements::{Mnemonic, Operands, Statement, Value, expanded, number_of, text_at};
use asm_text::Line;
use assembler::{AsmFault, Cause, Position, Spot};
use std::alloc::{AllocError, Global};
use std::collections::BTreeMap;

/// An instruction, and its place.
#[derive(Clone, Copy)]
struct Instruction {
    number: usize,
    /// Where its line begins in the source.
    start: usize,
    mnemonic: Mnemonic,
    operands: Operands,
    position: Position,
}

/// What was read of the lines so far.
struct Reading<'a> {
    source: &'a [u8],
    /// Where the next line begins in the source.
    start: usize,
    position: Position,
    /// Where each label stands. A word with which a wrong line begins stands nowhere, but may be meant as a label.
    spots: BTreeMap<&'a [u8], Option<Spot>>,
    instructions: Vec<Instruction>,
    /// Whether it is known of each line how much of its section it takes.
    is_placed: bool,
}

impl<'a> Drop for Reading<'a> {
    fn drop(self) {
        let Reading {
            source: _,
            start: _,
            position: _,
            spots: _spots,
            instructions: _instructions,
            is_placed: _,
        } = self;
    }
}

/// A fault at a byte of the line of a number.
fn fault_at(why: Cause, number: usize, at: usize) -> AsmFault {
    AsmFault {
        why,
        line: number,
        column: at.saturating_add(1),
    }
}

/// The place of a number that is out of its range, whatever other lines have.
fn range_fault(line: &Line, in_data: bool, statement: &Statement) -> Option<usize> {
    match statement {
        Statement::Space(size, at) => {
            let size = size.value();
            if size < 0 || !in_data && size % 4 != 0 {
                return Some(*at);
            }
        }
        Statement::Bytes => {
            for token in line.tokens.as_slice() {
                if let Some(number) = number_of(&token.kind)
                    && (number.value() < -128 || number.value() > 255)
                {
                    return Some(token.start);
                }
            }
        }
        _ => {}
    }
    None
}

/// Whether a line ends with CR, outside its comment.
fn has_cr(line: &str) -> bool {
    line.ends_with('\r') && without_comment(line).len() == line.len()
}

/// The section to which a line would go on that has no form, where its statement names one.
fn section_meant(statement: &str, in_data: bool) -> bool {
    let (name, rest) = name_of(statement);
    match name {
        ".text" | ".ktext" => false,
        ".data" | ".bss" | ".rodata" | ".sdata" | ".sbss" | ".srodata" | ".kdata" => true,
        ".section" => !rest.trim_start().starts_with(".text"),
        _ => in_data,
    }
}

/// The name of a label that a value has, from one byte of its line up to another, and what is added to it.
fn sum_of(value: Value) -> (usize, usize, i64) {
    match value {
        Value::Number(number) => (0, 0, number.value()),
        Value::Above { start, end, by } => (start, end, by.value()),
        Value::Below { start, end, by } => (start, end, 0i64.saturating_sub(by.value())),
    }
}

impl<'a> Reading<'a> {
    fn new(alloc: Global, source: &'a [u8]) -> Reading<'a> {
        Reading {
            source,
            start: 0,
            position: Position::start(),
            spots: BTreeMap::new(alloc),
            instructions: Vec::new(alloc),
            is_placed: true,
        }
    }

    /// Takes the label with which a line may begin. False where it stands further up already.
    fn declare(&mut self, label: Option<&'a str>) -> Result<bool, AllocError> {
        let Some(name) = label else {
            return Ok(true);
        };
        if name.contains('.') {
            return Ok(true);
        }
        let name = name.as_bytes();
        if let Some(Some(_)) = self.spots.get(&name).copied() {
            return Ok(false);
        }
        self.spots.insert(name, Some(self.position.spot()))?;
        Ok(true)
    }

    /// Takes a statement that has no form.
    fn take_wrong(&mut self, statement: &'a str) -> Result<(), AllocError> {
        self.is_placed = false;
        self.position.in_data = section_meant(statement, self.position.in_data);
        let name = name_of(statement).0.as_bytes();
        if self.spots.get(&name).is_none() {
            self.spots.insert(name, None)?;
        }
        Ok(())
    }

    /// Takes a line that has tokens, and adds the fault of a number. Gives the byte at which it has no form.
    fn take_tokens(
        &mut self,
        text: &str,
        line: &Line,
        number: usize,
        faults: &mut Vec<AsmFault>,
    ) -> Result<Option<usize>, AllocError> {
        let position = self.position;
        let statement = match parts_of(text.as_bytes(), line, position.in_data) {
            Ok((_, statement)) => statement,
            Err(at) => return Ok(Some(at)),
        };
        self.position = position.after(&statement, line.tokens.as_slice());
        if let Some(at) = range_fault(line, position.in_data, &statement) {
            faults.push(fault_at(Cause::Range, number, at))?;
            if !matches!(statement, Statement::Bytes) {
                self.is_placed = false;
            }
        }
        if let Statement::Instruction(mnemonic, operands) = statement {
            self.instructions.push(Instruction {
                number,
                start: self.start,
                mnemonic,
                operands,
                position,
            })?;
        }
        Ok(None)
    }

    /// Takes a line by its number, and adds its faults. One that ends with CR LF has that fault, and is read without its CR.
    fn take(
        &mut self,
        alloc: Global,
        number: usize,
        line: &'a str,
        faults: &mut Vec<AsmFault>,
    ) -> Result<(), AllocError> {
        let text = line.strip_suffix('\r').unwrap_or(line);
        let (label, statement) = label_of(text);
        if !self.declare(label)? {
            let at = text.len().saturating_sub(without_indent(text).len());
            faults.push(fault_at(Cause::DoubleLabel, number, at))?;
        }
        let wrong = match tokens_of(alloc, text)? {
            Ok(line) => self.take_tokens(text, &line, number, faults)?,
            Err(at) => Some(at),
        };
        if let Some(at) = wrong {
            faults.push(fault_at(Cause::Syntax, number, at))?;
            self.take_wrong(statement)?;
        }
        if has_cr(line) && wrong != Some(text.len()) {
            faults.push(fault_at(Cause::Syntax, number, text.len()))?;
        }
        self.start = self.start.saturating_add(line.len()).saturating_add(1);
        Ok(())
    }

    /// How far a place in a section is from the start of text.
    fn address(&self, spot: Spot) -> i64 {
        let offset = i64::from(spot.offset);
        if spot.in_data {
            let pages = (4 * i64::from(self.position.words) + 4095) / 4096;
            4096 * pages + offset
        } else {
            4 * offset
        }
    }

    /// What is wrong with an instruction whose line has a form.
    fn fault_of(&self, instruction: &Instruction) -> Option<Cause> {
        let (start, end, added) = sum_of(instruction.operands.value);
        let start = instruction.start.saturating_add(start);
        let name = text_at(self.source, start, instruction.start.saturating_add(end));
        let number = if name.is_empty() {
            added
        } else {
            match self.spots.get(&name).copied() {
                None => return Some(Cause::UnknownName),
                Some(Some(spot)) if self.is_placed => self
                    .address(spot)
                    .saturating_add(added)
                    .saturating_sub(self.address(instruction.position.spot())),
                Some(_) => return None,
            }
        };
        match expanded(instruction.mnemonic, &instruction.operands, number) {
            Some(_) => None,
            None => Some(Cause::Range),
        }
    }

    /// Adds what is wrong with the instructions, all labels known.
    fn look_up(&self, faults: &mut Vec<AsmFault>) -> Result<(), AllocError> {
        for instruction in &self.instructions {
            if let Some(why) = self.fault_of(instruction) {
                faults.push(fault_at(why, instruction.number, instruction.operands.at))?;
            }
        }
        Ok(())
    }
}

/// The faults of a source's lines, in no order: of each line those of its end, its label and the first of its statement.
///
/// What may come of another fault alone is left out. That is a target too far, where it is not known how long each line is. And it is
/// a label that is not there, where a line without a form begins with its name.
pub fn line_faults(alloc: Global, source: &str) -> Result<Vec<AsmFault>, AllocError> {
    let mut faults = Vec::new(alloc);
    let mut reading = Reading::new(alloc, source.as_bytes());
    for (before, line) in source.split('\n').enumerate() {
        reading.take(alloc, before.saturating_add(1), line, &mut faults)?;
    }
    reading.look_up(&mut faults)?;
    Ok(faults)
}

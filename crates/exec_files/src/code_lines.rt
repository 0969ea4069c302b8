//! The lines of an executable, by its section .debug_line (DWARF).
use crate::cursor::Cursor;
use crate::sections::section_named;
use crate::unit_headers::{Broken, Header, NameSections, Opcodes, header_of, whole};
use std::alloc::{AllocError, Global};

/// The most rows that are read. A unit that has more has no lines.
const MOST_ROWS: usize = 1_000_000;

/// From this length on a unit is of a kind that is not known.
const UNKNOWN_LENGTH: u32 = 0xFFFF_FFF0;

/// A line of a file.
#[derive(Clone, Copy, PartialEq, Eq)]
struct Place {
    /// The place of the file's name in the list of all.
    name: usize,
    line: u32,
}

/// From an address on, up to the next row's, code is of a place; of none where it ends.
#[derive(Clone, Copy)]
struct Row {
    address: u32,
    place: Option<Place>,
}

/// The lines of an executable.
pub struct CodeLines {
    names: Vec<String>,
    /// In ascending order.
    rows: Vec<Row>,
}

impl Drop for CodeLines {
    fn drop(self) {
        let CodeLines {
            names: _names,
            rows: _rows,
        } = self;
    }
}

/// Where a line program stands.
#[derive(Clone, Copy)]
struct Registers {
    address: u32,
    file: u64,
    line: i64,
}

const BEGIN: Registers = Registers {
    address: 0,
    file: 1,
    line: 1,
};

/// A line program that goes on.
struct Running<'a, 'l> {
    opcodes: Opcodes<'a>,
    /// The number of the unit's first file, and the place of its name.
    first: u64,
    names: usize,
    registers: Registers,
    lines: &'l mut CodeLines,
}

impl Drop for Running<'_, '_> {
    fn drop(self) {
        let Running {
            opcodes: _,
            first: _,
            names: _,
            registers: _,
            lines: _,
        } = self;
    }
}

impl Running<'_, '_> {
    /// The place at which the registers are; None where they name no file, or line 0.
    fn place(&self) -> Option<Place> {
        let number = self.registers.file.checked_sub(self.first)?;
        let name = self.names.checked_add(usize::try_from(number).ok()?)?;
        let line = u32::try_from(self.registers.line).ok()?;
        if line == 0 || name >= self.lines.names.len() {
            return None;
        }
        Some(Place { name, line })
    }

    /// Adds a row. Damaged where there is no room for one.
    fn push(&mut self, place: Option<Place>) -> Result<(), Broken> {
        if self.lines.rows.len() >= MOST_ROWS {
            return Err(Broken::Damaged);
        }
        let address = self.registers.address;
        self.lines.rows.push(Row { address, place })?;
        Ok(())
    }

    /// Whether the last row begins where the registers are.
    fn is_at_last(&self) -> bool {
        match self.lines.rows.as_slice().last() {
            Some(row) => row.place.is_some() && row.address == self.registers.address,
            None => false,
        }
    }

    /// Ends a range of code. Rows that begin where it ends are of no code, as all are of code that a linker left out.
    fn end(&mut self) -> Result<(), Broken> {
        for _ in 0..self.lines.rows.len() {
            if !self.is_at_last() {
                break;
            }
            self.lines.rows.pop();
        }
        self.push(None)?;
        self.registers = BEGIN;
        Ok(())
    }

    /// Moves the address on, by so many instructions.
    fn advance(&mut self, count: u64) {
        let bytes = count.wrapping_mul(u64::from(self.opcodes.step));
        let bytes = u32::try_from(bytes % 0x1_0000_0000).unwrap_or(0);
        self.registers.address = self.registers.address.wrapping_add(bytes);
    }

    /// How far a special opcode moves the address.
    fn moved_by(&self, opcode: u8) -> Result<u64, Broken> {
        let beyond = opcode.wrapping_sub(self.opcodes.special);
        let count = whole(beyond.checked_div(self.opcodes.range))?;
        Ok(u64::from(count))
    }

    fn special(&mut self, opcode: u8) -> Result<(), Broken> {
        let count = self.moved_by(opcode)?;
        self.advance(count);
        let beyond = opcode.wrapping_sub(self.opcodes.special);
        let lines = whole(beyond.checked_rem(self.opcodes.range))?;
        let lines = i64::from(lines).wrapping_add(i64::from(self.opcodes.least));
        self.registers.line = self.registers.line.wrapping_add(lines);
        let place = self.place();
        self.push(place)
    }

    /// An opcode with a length of its own.
    fn extended(&mut self, program: &mut Cursor<'_>) -> Result<(), Broken> {
        let length = whole(program.unsigned())?;
        let bytes = whole(program.take(usize::try_from(length).unwrap_or(usize::MAX)))?;
        let mut operands = Cursor::new(bytes);
        match operands.byte() {
            Some(1) => self.end()?,
            Some(2) => self.registers.address = whole(operands.word())?,
            _ => {}
        }
        Ok(())
    }

    /// A standard opcode that moves nothing: its operands are passed.
    fn pass(&self, opcode: u8, program: &mut Cursor<'_>) -> Result<(), Broken> {
        let place = usize::from(opcode.wrapping_sub(1));
        for _ in 0..whole(self.opcodes.operands.get(place).copied())? {
            whole(program.unsigned())?;
        }
        Ok(())
    }

    fn standard(&mut self, opcode: u8, program: &mut Cursor<'_>) -> Result<(), Broken> {
        match opcode {
            1 => {
                let place = self.place();
                self.push(place)?;
            }
            2 => self.advance(whole(program.unsigned())?),
            3 => {
                let lines = whole(program.signed())?;
                self.registers.line = self.registers.line.wrapping_add(lines);
            }
            4 => self.registers.file = whole(program.unsigned())?,
            8 => {
                let count = self.moved_by(u8::MAX)?;
                self.advance(count);
            }
            9 => {
                let bytes = u32::from(whole(program.half())?);
                self.registers.address = self.registers.address.wrapping_add(bytes);
            }
            opcode => self.pass(opcode, program)?,
        }
        Ok(())
    }

    /// Does the next opcode.
    fn step(&mut self, program: &mut Cursor<'_>) -> Result<(), Broken> {
        match whole(program.byte())? {
            0 => self.extended(program),
            opcode if opcode >= self.opcodes.special => self.special(opcode),
            opcode => self.standard(opcode, program),
        }
    }
}

impl CodeLines {
    fn none(alloc: Global) -> CodeLines {
        CodeLines {
            names: Vec::new(alloc),
            rows: Vec::new(alloc),
        }
    }

    /// Adds the names of a unit's files. One that is no text is empty.
    fn push_names(&mut self, alloc: Global, files: &[&[u8]]) -> Result<(), AllocError> {
        for file in files {
            let name = str::from_utf8(file).unwrap_or("");
            self.names.push(String::from_str(alloc, name)?)?;
        }
        Ok(())
    }

    /// Adds the rows of a unit.
    fn push_unit(&mut self, alloc: Global, header: &Header<'_>) -> Result<(), Broken> {
        let names = self.names.len();
        self.push_names(alloc, header.files.as_slice())?;
        let mut program = header.program;
        let mut running = Running {
            opcodes: header.opcodes,
            first: header.first,
            names,
            registers: BEGIN,
            lines: self,
        };
        for _ in 0..u64::MAX {
            if program.is_empty() {
                break;
            }
            running.step(&mut program)?;
        }
        Ok(())
    }

    /// Adds the rows of a unit; none of one that is damaged.
    fn push_whole(
        &mut self,
        alloc: Global,
        unit: &[u8],
        names: NameSections<'_>,
    ) -> Result<(), AllocError> {
        let before = self.rows.len();
        let done = match header_of(alloc, unit, names) {
            Ok(header) => self.push_unit(alloc, &header),
            Err(broken) => Err(broken),
        };
        match done {
            Ok(()) => Ok(()),
            Err(Broken::Damaged) => {
                self.rows.truncate(before);
                Ok(())
            }
            Err(Broken::OutOfMemory) => Err(AllocError),
        }
    }

    /// The lines of an executable's file. None are found where it has no such section, or it is damaged.
    pub fn of(alloc: Global, file: &[u8]) -> Result<CodeLines, AllocError> {
        let mut lines = CodeLines::none(alloc);
        let mut section = Cursor::new(section_named(file, b".debug_line"));
        let names = NameSections::of(file);
        for _ in 0..u64::MAX {
            let Some(unit) = next_unit(&mut section) else {
                break;
            };
            lines.push_whole(alloc, unit, names)?;
        }
        // Where one range ends and the next begins, the end comes first.
        lines
            .rows
            .sort_by_key(|row| (row.address, row.place.is_some()))?;
        Ok(lines)
    }

    pub fn is_empty(&self) -> bool {
        self.rows.is_empty()
    }

    /// The file and the number of the line of the code at an address, if they are known.
    pub fn line_at(&self, address: u32) -> Option<(&str, u32)> {
        let mut found = None;
        for row in &self.rows {
            if row.address > address {
                break;
            }
            found = row.place;
        }
        let place = found?;
        Some((self.names.as_slice().get(place.name)?.as_str(), place.line))
    }
}

/// The next unit of a section, without its length.
fn next_unit<'a>(section: &mut Cursor<'a>) -> Option<&'a [u8]> {
    let length = section.word()?;
    if length >= UNKNOWN_LENGTH {
        return None;
    }
    section.take(length as usize)
}

//! Where two logs differ.
use crate::line::Line;
use crate::registers::Registers;
use formats::decode;
use std::io;
use std::io::Write;

/// One of two logs.
#[derive(Clone, Copy)]
pub enum Side {
    First,
    Second,
}

/// The first difference of two logs.
#[derive(Clone, Copy)]
pub struct Difference {
    /// The number of the instruction that differs, from 1.
    pub number: u64,
    /// What the first log has there. None where it ends.
    pub first: Option<Line>,
    /// What the second log has there.
    pub second: Option<Line>,
    /// The registers before it, by the lines in which the logs are equal.
    pub registers: Registers,
}

/// Prints what a log of this name has.
fn print_side<O: Write>(name: &str, line: Option<Line>, out: &mut O) -> io::Result<()> {
    write!(out, "{name}: ")?;
    match line {
        Some(line) => line.write(out),
        None => out.write_all(b"ends\n"),
    }
}

/// Prints the instruction that a word means, if it means one.
fn print_instruction<O: Write>(line: Line, out: &mut O) -> io::Result<()> {
    match decode(line.word) {
        Some(instruction) => writeln!(out, "instruction: {instruction}"),
        None => out.write_all(b"instruction: none of RV32IM\n"),
    }
}

impl Difference {
    /// Prints the difference; the logs by these names.
    pub fn print<O: Write>(&self, first: &str, second: &str, out: &mut O) -> io::Result<()> {
        let number = self.number;
        writeln!(out, "instruction {number} differs")?;
        print_side(first, self.first, out)?;
        print_side(second, self.second, out)?;
        if let Some(line) = self.first.or(self.second) {
            print_instruction(line, out)?;
        }
        out.write_all(b"registers before it:\n")?;
        self.registers.print(out)
    }
}

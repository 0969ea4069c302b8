//! The registers that a log tells of.
use crate::line::Written;
use formats::Reg;
use std::io;
use std::io::Write;

const REGISTERS: usize = 32;

/// What the registers hold, by all lines so far; 0 before one is written.
#[derive(Clone, Copy)]
pub struct Registers {
    values: [u32; REGISTERS],
}

impl Registers {
    pub fn new() -> Registers {
        Registers {
            values: [0; REGISTERS],
        }
    }

    /// Notes what an instruction wrote.
    pub fn note(&mut self, written: Option<Written>) {
        if let Some(Written { register, value }) = written {
            self.values[usize::from(register.number())] = value;
        }
    }

    /// Prints all of them, four in a line.
    pub fn print<O: Write>(&self, out: &mut O) -> io::Result<()> {
        for number in 0..REGISTERS {
            let register = Reg::new(number as u8);
            let value = self.values[number];
            let end = if number % 4 == 3 { "\n" } else { "  " };
            write!(out, "x{number:<2} {register} {value:08x}{end}")?;
        }
        Ok(())
    }
}

//! A line of a log: an instruction that was done, and what it changed.
use crate::line_text::LineText;
use formats::Reg;
use std::io;
use std::io::Write;

/// A register that an instruction wrote, and its value then.
#[derive(Clone, Copy, PartialEq, Eq)]
pub struct Written {
    pub register: Reg,
    pub value: u32,
}

/// What an instruction did with memory.
#[derive(Clone, Copy, PartialEq, Eq)]
pub enum Access {
    /// It loaded from an address.
    Load { at: u32 },
    /// It stored the lowest bytes of a word at an address: 1, 2 or 4 of them.
    Store { at: u32, value: u32, bytes: u32 },
}

/// An instruction that was done.
#[derive(Clone, Copy, PartialEq, Eq)]
pub struct Line {
    /// The address of the instruction.
    pub at: u32,
    pub word: u32,
    /// None where no register was written, or x0.
    pub written: Option<Written>,
    pub access: Option<Access>,
}

/// Adds an access, a value with as many digits as were stored.
fn add_access(text: &mut LineText, access: Access) {
    text.add(b" mem ");
    match access {
        Access::Load { at } => text.add_word(at),
        Access::Store { at, value, bytes } => {
            text.add_word(at);
            text.add(b" ");
            text.add_bytes(value, bytes);
        }
    }
}

impl Line {
    /// Writes the line: `core   0: 3 0x00010000 (0x00500513) x10 0x00000005`.
    pub fn write<O: Write>(&self, out: &mut O) -> io::Result<()> {
        let mut text = LineText::new();
        text.add(b"core   0: 3 ");
        text.add_word(self.at);
        text.add(b" (");
        text.add_word(self.word);
        text.add(b")");
        if let Some(Written { register, value }) = self.written {
            text.add(b" x");
            text.add_register(u32::from(register.number()));
            text.add(b" ");
            text.add_word(value);
        }
        if let Some(access) = self.access {
            add_access(&mut text, access);
        }
        text.add(b"\n");
        out.write_all(text.as_slice())
    }
}

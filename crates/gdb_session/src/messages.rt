//! `Messages`: text that gdb is to print, as what terminals show.
ghost use Rattle.std.specs.Prelude.{◌<◌};
ghost use Rattle.kernel_model.specs.World.{terminal_count};

use kernel_model::TERMINALS;
use std::alloc::{AllocError, Global};
use std::fmt::Display;
use std::io;
use std::io::Write;
use timeline::LiveKernel;

/// What gdb is to print: what terminals show, and lines about the program.
#[derive(Drop)]
pub struct Messages {
    text: Vec<u8>,
    /// Whether what gdb printed ends within a line.
    is_line_open: bool,
}

impl Messages {
    /// No messages.
    pub fn new(alloc: Global) -> Messages {
        Messages {
            text: Vec::new(alloc),
            is_line_open: false,
        }
    }

    /// The text that gdb is to print.
    pub fn text(&self) -> &[u8] {
        self.text.as_slice()
    }

    /// Forgets the text, since gdb was told it.
    pub fn clear(&mut self) {
        self.is_line_open = self.is_line_open();
        self.text.clear();
    }

    /// Whether what gdb prints ends within a line.
    fn is_line_open(&self) -> bool {
        match self.text.last() {
            Some(byte) => *byte != b'\n',
            None => self.is_line_open,
        }
    }

    /// Adds a line.
    pub fn add<T: Display + Drop>(&mut self, line: T) -> io::Result<()> {
        if self.is_line_open() {
            self.text.push(b'\n')?;
        }
        writeln!(self.text, "bench: {line}")
    }

    /// Adds the bytes that terminals show and that were not told before, by rising number of the terminal.
    pub fn add_shown(&mut self, live: &mut LiveKernel) -> Result<(), AllocError> {
        for terminal in 0..TERMINALS as u32 {
            self.text.extend_from_slice(live.tell(terminal))?;
        }
        Ok(())
    }
}

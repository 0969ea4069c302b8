//! `Transcript`: which bytes of the terminals are to be written out next.
ghost use Rattle.std.specs.Prelude.{◌<◌, IfSome};
ghost use Rattle.kernel_model.specs.World.{terminal_count};

use kernel::Core;
use kernel_model::TERMINALS;
use std::alloc::{AllocError, Global};

/// One terminal, and how many of its bytes were taken.
#[derive(Clone, Copy)]
pub struct OneTerminal {
    terminal: u32,
    taken: usize,
    ghost there: { terminal < terminal_count },
}

/// All terminals, and how many bytes of each were taken.
#[derive(Clone, Copy)]
pub struct AllTerminals {
    taken: [usize; TERMINALS],
    /// The terminal whose bytes were taken last, if any were.
    last: Option<u32>,
    /// Whether the byte taken last ends its line; true where none was taken.
    is_line_ended: bool,
}

/// What is written out of a run: the bytes of one terminal, or of all. Where it is all, a line that names the terminal stands
/// before each part of one terminal. A part ends where bytes of another terminal come next. Each terminal's bytes keep their order.
#[derive(Clone, Copy)]
pub enum Transcript {
    One(OneTerminal),
    All(AllTerminals),
}

/// The bytes after the first `taken`, at most `limit`.
fn part(shown: &[u8], taken: usize, limit: usize) -> &[u8] {
    let rest = shown.get(taken..).unwrap_or_default();
    rest.get(..limit).unwrap_or(rest)
}

impl OneTerminal {
    /// Adds the bytes that the terminal shows and that were not taken, at most `limit`.
    fn add_more(
        &mut self,
        core: &Core,
        limit: usize,
        text: &mut Vec<u8>,
    ) -> Result<(), AllocError> {
        let bytes = part(core.shown(self.terminal), self.taken, limit);
        self.taken = self.taken.saturating_add(bytes.len());
        text.extend_from_slice(bytes)
    }
}

impl AllTerminals {
    /// All terminals, before any byte is taken.
    fn new() -> AllTerminals {
        AllTerminals {
            taken: [0; TERMINALS],
            last: None,
            is_line_ended: true,
        }
    }

    /// Adds the line that names a terminal, unless bytes of this terminal came last. The line begins at the beginning of a line.
    fn turn_to(
        &mut self,
        alloc: Global,
        terminal: u32,
        text: &mut Vec<u8>,
    ) -> Result<(), AllocError> {
        if self.last == Some(terminal) {
            return Ok(());
        }
        if !self.is_line_ended {
            text.push(b'\n')?;
        }
        self.last = Some(terminal);
        let line = format!(in alloc; "== terminal {terminal} ==\n")?;
        text.extend_from_slice(line.as_bytes())
    }

    /// Adds the bytes that a terminal shows and that were not taken, at most `limit`.
    fn add(
        &mut self,
        alloc: Global,
        terminal: u32,
        shown: &[u8],
        limit: usize,
        text: &mut Vec<u8>,
    ) -> Result<(), AllocError> {
        let Some(taken) = self.taken.get_mut(terminal as usize) else {
            return Ok(());
        };
        let bytes = part(shown, *taken, limit);
        *taken = taken.saturating_add(bytes.len());
        let Some(&last) = bytes.last() else {
            return Ok(());
        };
        self.turn_to(alloc, terminal, text)?;
        self.is_line_ended = last == b'\n';
        text.extend_from_slice(bytes)
    }

    /// Adds the bytes that the terminals show and that were not taken, by rising number of the terminal.
    fn add_more(
        &mut self,
        alloc: Global,
        core: &Core,
        limit: usize,
        text: &mut Vec<u8>,
    ) -> Result<(), AllocError> {
        for terminal in 0..TERMINALS as u32 {
            self.add(alloc, terminal, core.shown(terminal), limit, text)?;
        }
        Ok(())
    }
}

impl Transcript {
    /// The transcript of this terminal, or of all where none is given, before any byte is taken.
    pub fn of(terminal: Option<u32>) -> Transcript
        requires { IfSome terminal (λ t. t < terminal_count) }
    {
        match terminal {
            Some(terminal) => Transcript::One(OneTerminal { terminal, taken: 0 }),
            None => Transcript::All(AllTerminals::new()),
        }
    }

    /// Takes bytes that are shown and were not taken before, of no terminal more than `limit`, and adds them to the text: they are to
    /// be written out next. Not to be called again after memory ran out.
    pub fn add_more(
        &mut self,
        alloc: Global,
        core: &Core,
        limit: usize,
        text: &mut Vec<u8>,
    ) -> Result<(), AllocError> {
        match self {
            Transcript::One(one) => one.add_more(core, limit, text),
            Transcript::All(all) => all.add_more(alloc, core, limit, text),
        }
    }
}

//! Prints what a location holds before an instruction and after it.
use crate::changes::MOST;
use crate::labelled::Labelled;
use debug_info::SourceLines;
use formats::Reg;
use std::io::Write;
use std::{fmt, io};
use timeline::Location;

/// Bytes that a location holds, each of which prints with a blank before it; `--` where no page is.
#[derive(Clone, Copy)]
struct HeldBytes<'a>(&'a [Option<u32>]);

impl fmt::Display for HeldBytes<'_> {
    fn fmt<W: fmt::Write>(&self, f: &mut fmt::Formatter<W>) -> fmt::Result {
        for byte in self.0 {
            match byte {
                Some(byte) => write!(f, " {byte:02x}")?,
                None => f.write_str(" --")?,
            }
        }
        Ok(())
    }
}

/// What a location holds before an instruction and after it.
#[derive(Clone, Copy)]
pub struct HeldChange<'a> {
    /// The number of the watch that follows the location, if one does.
    pub number: Option<usize>,
    pub location: Location,
    pub before: &'a [Option<u32>],
    pub after: &'a [Option<u32>],
    pub lines: Option<&'a SourceLines>,
}

/// The bytes from a place on, four at most.
fn four_from(held: &[Option<u32>], place: usize) -> &[Option<u32>] {
    held.get(place..held.len().min(place.saturating_add(4)))
        .unwrap_or_default()
}

/// The word of a register.
fn word_of(held: &[Option<u32>]) -> u32 {
    held.first().copied().flatten().unwrap_or(0)
}

impl HeldChange<'_> {
    /// Begins a line: with the watch, or what the next instruction does.
    fn print_head<O: Write>(&self, out: &mut O) -> io::Result<()> {
        match self.number {
            Some(number) => write!(out, "watch {number}: "),
            None => out.write_all(b"  changes "),
        }
    }

    fn print_register<O: Write>(&self, register: Reg, out: &mut O) -> io::Result<()> {
        let (before, after) = (word_of(self.before), word_of(self.after));
        if before == after {
            return Ok(());
        }
        self.print_head(out)?;
        writeln!(out, "{register} {before:08x} -> {after:08x}")
    }

    /// Prints four bytes from a place on, if they differ. Says whether they do.
    fn print_four<O: Write>(&self, at: u32, place: usize, out: &mut O) -> io::Result<bool> {
        let (before, after) = (four_from(self.before, place), four_from(self.after, place));
        if before == after {
            return Ok(false);
        }
        self.print_head(out)?;
        let at = Labelled {
            at,
            lines: self.lines,
        };
        let (before, after) = (HeldBytes(before), HeldBytes(after));
        writeln!(out, "{at}:{before} ->{after}")?;
        Ok(true)
    }

    fn print_bytes<O: Write>(&self, at: u32, length: u32, out: &mut O) -> io::Result<()> {
        let mut printed = 0;
        for part in 0..length.div_ceil(4) {
            let place = part.saturating_mul(4);
            if printed < MOST && self.print_four(at.wrapping_add(place), place as usize, out)? {
                printed += 1;
            }
        }
        Ok(())
    }

    /// Prints what differs: a register, or the first eight groups of four bytes that do.
    pub fn print<O: Write>(&self, out: &mut O) -> io::Result<()> {
        match self.location {
            Location::Register(register) => self.print_register(register, out),
            Location::Bytes { at, length } => self.print_bytes(at, length, out),
        }
    }
}

//! Prints which words of memory a command changed.
use crate::labelled::Labelled;
use crate::writable::{Words, Writable, words_of};
use debug_info::SourceLines;
use memory::Space;
use std::io::Write;
use std::{fmt, io};

/// The most words that are printed at a stop.
pub const MOST: u32 = 8;

/// The memory before a command and after it, and the source whose labels name addresses.
#[derive(Clone, Copy)]
pub struct Spaces<'a> {
    pub before: &'a Space,
    pub after: &'a Space,
    pub lines: Option<&'a SourceLines>,
}

impl<'a> Spaces<'a> {
    fn labelled(&self, at: u32) -> Labelled<'a> {
        Labelled {
            at,
            lines: self.lines,
        }
    }
}

/// The byte at an address, or 0 where no memory is.
fn byte_at(space: &Space, at: u32) -> u8 {
    space.byte(at).unwrap_or(0)
}

/// The bytes of a word, each of which prints with a blank before it.
#[derive(Clone, Copy, PartialEq)]
struct WordBytes([u8; 4]);

impl fmt::Display for WordBytes {
    fn fmt<W: fmt::Write>(&self, f: &mut fmt::Formatter<W>) -> fmt::Result {
        for byte in &self.0 {
            write!(f, " {byte:02x}")?;
        }
        Ok(())
    }
}

fn bytes_at(space: &Space, at: u32) -> WordBytes {
    WordBytes([
        byte_at(space, at),
        byte_at(space, at.wrapping_add(1)),
        byte_at(space, at.wrapping_add(2)),
        byte_at(space, at.wrapping_add(3)),
    ])
}

/// Prints a word that changed, byte by byte, with its bytes before and after.
fn print_bytes<O: Write>(
    at: Labelled<'_>,
    before: WordBytes,
    after: WordBytes,
    out: &mut O,
) -> io::Result<()> {
    writeln!(out, "  {at}:{before} ->{after}")
}

/// Prints those of some words that changed, while no more than eight are printed in all. `changed` is how many changed before; the
/// result is how many changed with these.
fn print_changed_words<O: Write>(
    spaces: Spaces<'_>,
    words: Words,
    mut changed: u32,
    out: &mut O,
) -> io::Result<u32> {
    for word in words.first..words.end {
        let at = word.wrapping_mul(4);
        let (old, new) = (bytes_at(spaces.before, at), bytes_at(spaces.after, at));
        if old != new {
            if changed < MOST {
                print_bytes(spaces.labelled(at), old, new, out)?;
            }
            changed = changed.saturating_add(1);
        }
    }
    Ok(changed)
}

/// Prints the first eight words that changed, and gives how many changed in all.
fn print_first_words<O: Write>(
    spaces: Spaces<'_>,
    writable: &Writable,
    out: &mut O,
) -> io::Result<u32> {
    let mut changed = 0;
    for page in writable.pages() {
        changed = print_changed_words(spaces, words_of(*page), changed, out)?;
    }
    Ok(changed)
}

fn print_others<O: Write>(changed: u32, out: &mut O) -> io::Result<()> {
    if changed > MOST {
        let more = changed - MOST;
        writeln!(out, "  and {more} words more")
    } else {
        Ok(())
    }
}

/// Prints what changed in memory: the first eight words, a line each, and how many more there are.
pub fn print_changed_memory<O: Write>(
    spaces: Spaces<'_>,
    writable: &Writable,
    out: &mut O,
) -> io::Result<()> {
    if spaces.before.is_same(spaces.after) {
        return Ok(());
    }
    let changed = print_first_words(spaces, writable, out)?;
    print_others(changed, out)
}

//! Logs that are read, a line at a time.
use crate::line::{Access, Line, Written};
use input_reading::{hex_word, numbered_register};
use std::alloc::Global;
use std::io;
use std::io::BufRead;
use std::str::SplitAsciiWhitespace;

/// A number after `0x`, below 2^32.
fn number_of(word: &str) -> Option<u32> {
    hex_word(word.strip_prefix("0x")?)
}

/// The word of an instruction, which stands in parentheses.
fn word_in(text: &str) -> Option<u32> {
    number_of(text.strip_prefix("(")?.strip_suffix(")")?)
}

/// How many bytes a store writes, by the length of their value, as `0x0a`.
fn stored_bytes(length: usize) -> u32 {
    match length {
        0..=4 => 1,
        5..=6 => 2,
        _ => 4,
    }
}

/// The access at an address, where the next word is the value of a store, or is not.
fn access_of(at: u32, word: &str) -> Access {
    match number_of(word) {
        Some(value) => Access::Store {
            at,
            value,
            bytes: stored_bytes(word.len()),
        },
        None => Access::Load { at },
    }
}

/// What an instruction changed, by the words after its own. Words that say something else, as of a control register, are passed over.
fn changes_in(mut words: SplitAsciiWhitespace<'_>, at: u32, word: u32) -> Option<Line> {
    let mut line = Line {
        at,
        word,
        written: None,
        access: None,
    };
    while let Some(name) = words.next() {
        if name == "mem" {
            let at = number_of(words.next()?)?;
            line.access = Some(access_of(at, words.next().unwrap_or("")));
        } else if let Some(register) = numbered_register(name) {
            let value = number_of(words.next()?)?;
            line.written = Some(Written { register, value });
        }
    }
    Some(line)
}

/// The instruction of a line; None where the line is none of an instruction. Which processor did it, and with what rights, is passed over.
fn line_of(text: &str) -> Option<Line> {
    let mut words = text.split_ascii_whitespace();
    if words.next()? != "core" {
        return None;
    }
    let _processor = words.next()?;
    let _rights = words.next()?;
    let at = number_of(words.next()?)?;
    let word = word_in(words.next()?)?;
    changes_in(words, at, word)
}

/// A log.
#[derive(Drop)]
pub struct Log<B> {
    input: B,
    text: Vec<u8>,
}

impl<B: BufRead> Log<B> {
    pub fn new(alloc: Global, input: B) -> Log<B> {
        Log {
            input,
            text: Vec::new(alloc),
        }
    }

    /// The next instruction. Lines that are none of an instruction are passed over.
    pub fn next(&mut self) -> io::Result<Option<Line>> {
        for _ in 0..u64::MAX {
            self.text.clear();
            if self.input.read_until(b'\n', &mut self.text)? == 0 {
                return Ok(None);
            }
            let line = str::from_utf8(self.text.as_slice()).ok().and_then(line_of);
            if line.is_some() {
                return Ok(line);
            }
        }
        Ok(None)
    }
}

//! The parts of a program: the lines of its source, or its functions.
use crate::functions::Function;
use crate::program::{LoadedProgram, Names};
use debug_info::SourceLines;
use formats::decode;
use machine_model::{Image, Segment};
use std::alloc::{AllocError, Global};
use std::fmt;

/// What a part of a program is. It prints as what stands after the path of the program's file.
#[derive(Clone, Copy)]
pub enum PartName<'a> {
    /// A line of the source: its number, from 1, and its text.
    Line { number: usize, text: &'a str },
    /// A function, by its symbol.
    Function(&'a str),
}

/// A part of a program's text, up to the next one.
#[derive(Clone, Copy)]
pub struct Part<'a> {
    /// The address of its first word.
    pub start: u32,
    pub name: PartName<'a>,
}

/// The word at an address of a program, as it was loaded: the path of its file, the address, and the instruction, if it is one.
#[derive(Clone, Copy)]
pub struct WordText<'a> {
    pub program: &'a LoadedProgram,
    pub address: u32,
}

impl PartName<'_> {
    /// Whether it is a line of a source.
    pub fn is_line(&self) -> bool {
        matches!(self, PartName::Line { .. })
    }
}

impl fmt::Display for PartName<'_> {
    fn fmt<W: fmt::Write>(&self, f: &mut fmt::Formatter<W>) -> fmt::Result {
        match self {
            PartName::Line { number, text } => write!(f, ":{number}: {text}"),
            PartName::Function(name) => write!(f, ": {name}"),
        }
    }
}

/// The word at an address of an image; None where the image has no four bytes there.
fn word_at(image: &Image, address: u32) -> Option<u32> {
    for segment in image.segments() {
        if let Some(offset) = address.checked_sub(segment.vaddr)
            && let Some([a, b, c, d, ..]) = segment.bytes.as_slice().get(offset as usize..)
        {
            return Some(u32::from_le_bytes([*a, *b, *c, *d]));
        }
    }
    None
}

impl fmt::Display for WordText<'_> {
    fn fmt<W: fmt::Write>(&self, f: &mut fmt::Formatter<W>) -> fmt::Result {
        let path = self.program.places.path.as_str();
        let address = self.address;
        write!(f, "{path}: {address:08x}")?;
        let Some(word) = word_at(&self.program.image, address) else {
            return Ok(());
        };
        match decode(word) {
            Some(instruction) => write!(f, ": {instruction}"),
            None => Ok(()),
        }
    }
}

/// Adds the lines of the words of a segment.
fn push_lines<'a>(
    parts: &mut Vec<Part<'a>>,
    lines: &'a SourceLines,
    segment: &Segment,
) -> Result<(), AllocError> {
    let mut last = 0;
    let mut start = segment.vaddr;
    for _ in 0..segment.memsz.div_ceil(4) {
        if let Some((number, text)) = lines.line_at(start)
            && number != last
        {
            last = number;
            let name = PartName::Line { number, text };
            parts.push(Part { start, name })?;
        }
        start = start.wrapping_add(4);
    }
    Ok(())
}

/// The lines of a source that have words of text in its image.
fn lines_of<'a>(
    alloc: Global,
    lines: &'a SourceLines,
    image: &Image,
) -> Result<Vec<Part<'a>>, AllocError> {
    let mut parts = Vec::new(alloc);
    for segment in image.segments() {
        push_lines(&mut parts, lines, segment)?;
    }
    Ok(parts)
}

/// The functions, in ascending order; of those that begin at one address the first alone.
fn functions_of<'a>(alloc: Global, functions: &'a [Function]) -> Result<Vec<Part<'a>>, AllocError> {
    let mut all: Vec<Part<'a>> = Vec::new(alloc);
    for function in functions {
        all.push(Part {
            start: function.start,
            name: PartName::Function(function.name.as_str()),
        })?;
    }
    all.sort_by_key(|part| part.start)?;
    let mut parts: Vec<Part<'a>> = Vec::new(alloc);
    let mut last = None;
    for part in all.as_slice() {
        if last != Some(part.start) {
            last = Some(part.start);
            parts.push(*part)?;
        }
    }
    Ok(parts)
}

impl LoadedProgram {
    /// The parts of the program's text, in ascending order. None where no more is known than its image.
    pub fn parts(&self, alloc: Global) -> Result<Vec<Part<'_>>, AllocError> {
        match &self.places.names {
            Names::Source(lines) => lines_of(alloc, lines, &self.image),
            Names::Executable { functions, .. } => functions_of(alloc, functions.as_slice()),
        }
    }
}

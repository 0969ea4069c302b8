//! Sources, read beside an image.
use crate::labels::{Label, Labels};
use asm_text::{Line, lines};
use assembler::{AsmFault, Listing, assemble};
use machine_model::Image;
use std::alloc::{AllocError, Global};

/// A source, where the words of its text are, and its labels.
pub struct SourceLines {
    text: String,
    lines: Vec<Line>,
    listing: Listing,
    labels: Labels,
}

impl Drop for SourceLines {
    fn drop(self) {
        let SourceLines {
            text: _text,
            lines: _lines,
            listing: _listing,
            labels: _labels,
        } = self;
    }
}

/// Whether two images are the same, by the bytes of their files.
fn are_same(alloc: Global, one: &Image, other: &Image) -> Result<bool, AllocError> {
    let one = elf32::write(alloc, one)?;
    let other = elf32::write(alloc, other)?;
    Ok(one.as_slice() == other.as_slice())
}

impl SourceLines {
    /// The lines of a source; None where it assembles to another image. Refused: the source's first fault; OutOfMemory.
    pub fn read(
        alloc: Global,
        text: String,
        image: &Image,
    ) -> Result<Option<SourceLines>, AsmFault> {
        let (assembled, listing) = assemble(alloc, text.as_str())?;
        if !are_same(alloc, &assembled, image)? {
            return Ok(None);
        }
        let lines = lines(alloc, text.as_str())?;
        let labels = Labels::read(alloc, text.as_str().as_bytes(), &lines, image)?;
        Ok(Some(SourceLines {
            text,
            lines,
            listing,
            labels,
        }))
    }

    /// The line of the word at an address: its number, from 1, and its text without blanks at its ends. None where no word of text
    /// stands there.
    pub fn line_at(&self, address: u32) -> Option<(usize, &str)> {
        let row = self
            .listing
            .rows()
            .iter()
            .find(|row| row.address == address)?;
        let line = self.lines.get(row.line.checked_sub(1)?)?;
        let text = self.text.as_str().get(line.start..line.end)?;
        Some((row.line, text.trim_ascii()))
    }

    /// The number of the line of the word at an address.
    pub fn number_at(&self, address: u32) -> Option<usize> {
        let (number, _) = self.line_at(address)?;
        Some(number)
    }

    /// The text of a line, with the blanks before it. None past the last line.
    pub fn line(&self, number: usize) -> Option<&str> {
        let line = self.lines.get(number.checked_sub(1)?)?;
        self.text.as_str().get(line.start..line.end)
    }

    /// The line from which on a word of text is found, and the word's address: that of a line, or else of the next one with a word.
    pub fn word_from(&self, number: usize) -> Option<(usize, u32)> {
        let row = self.listing.rows().iter().find(|row| row.line >= number)?;
        Some((row.line, row.address))
    }

    /// The label of a name.
    pub fn label(&self, name: &str) -> Option<Label> {
        self.labels
            .named(self.text.as_str().as_bytes(), name.as_bytes())
    }

    /// The number of the line of a label.
    pub fn line_of_label(&self, name: &str) -> Option<usize> {
        let label = self.label(name)?;
        let line = self
            .lines
            .iter()
            .find(|line| line.start <= label.start && label.start < line.end)?;
        Some(line.number)
    }

    /// The name of the nearest label at an address or before it, and how far the address is beyond it. None where the image has no
    /// byte there, or no label comes before.
    pub fn label_before(&self, address: u32) -> Option<(&str, u32)> {
        let (label, offset) = self.labels.before(address)?;
        let name = self.text.as_str().get(label.start..label.end)?;
        Some((name, offset))
    }
}

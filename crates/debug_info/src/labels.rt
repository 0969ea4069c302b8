//! The labels of a source, at their addresses.
ghost use Rattle.std.specs.Prelude.{length};
ghost use Rattle.debug_info.specs.Labels.{IsNearest};

use crate::numbers::length_of;
use crate::symbol::{Symbol, symbols_of};
use asm_text::Line;
use machine_model::{Image, Segment};
use std::alloc::{AllocError, Global};

/// A label: where its name is in the source, and its address.
#[derive(Clone, Copy)]
pub struct Label {
    pub start: usize,
    pub end: usize,
    pub at: u32,
    /// How many bytes of data there are up to the next label that is further on. 0 in text.
    pub room: u32,
    pub in_data: bool,
}

/// The bytes of an image's section, from an address on.
#[derive(Clone, Copy)]
struct Section {
    at: u32,
    bytes: u32,
}

fn section_of(segment: Option<&Segment>) -> Section {
    match segment {
        Some(segment) => Section {
            at: segment.vaddr,
            bytes: length_of(segment.bytes.as_slice().len()),
        },
        None => Section { at: 0, bytes: 0 },
    }
}

impl Section {
    fn has(&self, address: u32) -> bool {
        address >= self.at && address - self.at < self.bytes
    }
}

/// The labels of a source, and the sections of its image.
#[derive(Drop)]
pub struct Labels {
    labels: Vec<Label>,
    text: Section,
    data: Section,
}

fn label_of(symbol: &Symbol<'_>, text: Section, data: Section) -> Label {
    let section = if symbol.in_data { data } else { text };
    Label {
        start: symbol.start,
        end: symbol.start.saturating_add(symbol.name.len()),
        at: section.at.saturating_add(symbol.offset),
        room: symbol.room,
        in_data: symbol.in_data,
    }
}

/// The place of the label with the greatest address that is not above one, and how far that is beyond it. None where each label is
/// above.
fn nearest(labels: &[Label], address: u32) -> Option<(usize, u32)>
    ensures { IsNearest labels.now address (length labels.now) result }
{
    let mut nearest: Option<(usize, u32)> = None;
    for (place, label) in labels.iter().enumerate() {
        if label.at <= address {
            let offset = address - label.at;
            match nearest {
                Some((_, least)) if least <= offset => {}
                _ => nearest = Some((place, offset)),
            }
        }
    }
    nearest
}

impl Labels {
    /// The labels of a source that assembles to an image.
    pub fn read(
        alloc: Global,
        source: &[u8],
        lines: &[Line],
        image: &Image,
    ) -> Result<Labels, AllocError> {
        let text = section_of(image.segments().first());
        let data = section_of(image.segments().get(1));
        let mut labels = Vec::new(alloc);
        for symbol in symbols_of(alloc, source, lines, data.bytes)?.as_slice() {
            labels.push(label_of(symbol, text, data))?;
        }
        Ok(Labels { labels, text, data })
    }

    /// The label of this name.
    pub fn named(&self, source: &[u8], name: &[u8]) -> Option<Label> {
        self.labels
            .iter()
            .find(|label| source.get(label.start..label.end) == Some(name))
            .copied()
    }

    /// The nearest label at an address or before it, and how far the address is beyond it. None where that
    /// label's section has no byte there.
    pub fn before(&self, address: u32) -> Option<(Label, u32)> {
        let (place, offset) = nearest(self.labels.as_slice(), address)?;
        let label = *self.labels.get(place)?;
        let section = if label.in_data { self.data } else { self.text };
        section.has(address).then_some((label, offset))
    }
}

//! The file of symbols.
use crate::info::{ABBREVIATIONS, Unit, info};
use crate::line_table::line_table;
use crate::numbers::length_of;
use crate::sections::{EXECUTED, Header, PROGRAM, STRINGS, SYMBOLS, Sections, WRITTEN};
use crate::symbol::{Symbol, symbols_of};
use crate::tables::{SYMBOL_BYTES, Tables, tables_of};
use asm_text::lines;
use assembler::{AsmFault, ListingRow, assemble};
use machine_model::{Image, Segment};
use std::alloc::{AllocError, Global};

/// The number of the section .strtab.
const NAMES: u32 = 4;

/// A file of symbols, and what it tells of.
#[derive(Drop)]
pub struct SymbolFile {
    /// The file's bytes.
    pub bytes: Vec<u8>,
    /// How many labels the source has.
    pub labels: usize,
    /// How many words of text.
    pub words: usize,
}

fn start_of(segment: Option<&Segment>) -> u32 {
    match segment {
        Some(segment) => segment.vaddr,
        None => 0,
    }
}

fn bytes_of(segment: Option<&Segment>) -> &[u8] {
    match segment {
        Some(segment) => segment.bytes.as_slice(),
        None => &[],
    }
}

/// The folder and the name of a path. `.` is the folder in which gdb is begun.
fn parted(path: &str) -> (&[u8], &[u8]) {
    match path.rsplit_once('/') {
        Some(("", name)) => (b"/".as_slice(), name.as_bytes()),
        Some((folder, name)) => (folder.as_bytes(), name.as_bytes()),
        None => (b".".as_slice(), path.as_bytes()),
    }
}

/// What an image says of the unit of a source at a path.
fn unit_of<'a>(image: &Image, path: &'a str) -> Unit<'a> {
    let (folder, name) = parted(path);
    let text = image.segments().first();
    Unit {
        name,
        folder,
        start: start_of(text),
        text_bytes: length_of(bytes_of(text).len()),
        data_start: start_of(image.segments().get(1)),
    }
}

fn put_segment(
    sections: &mut Sections,
    name: &'static str,
    flags: u32,
    segment: Option<&Segment>,
) -> Result<(), AllocError> {
    let header = Header {
        flags,
        address: start_of(segment),
        align: 4,
        ..Header::plain(name, PROGRAM)
    };
    sections.put(&header, bytes_of(segment))
}

/// The sections of text and data, as the image has them.
fn put_image(sections: &mut Sections, image: &Image) -> Result<(), AllocError> {
    put_segment(sections, ".text", EXECUTED, image.segments().first())?;
    put_segment(sections, ".data", WRITTEN, image.segments().get(1))
}

fn put_tables(sections: &mut Sections, tables: &Tables) -> Result<(), AllocError> {
    let symbols = Header {
        link: NAMES,
        info: tables.count,
        align: 4,
        entry: SYMBOL_BYTES,
        ..Header::plain(".symtab", SYMBOLS)
    };
    sections.put(&symbols, &tables.symbols)?;
    sections.put(&Header::plain(".strtab", STRINGS), &tables.names)
}

fn put_lines(
    alloc: Global,
    sections: &mut Sections,
    unit: &Unit<'_>,
    symbols: &[Symbol<'_>],
    rows: &[ListingRow],
) -> Result<(), AllocError> {
    let end = unit.start.saturating_add(unit.text_bytes);
    let described = info(alloc, unit, symbols)?;
    let lines = line_table(alloc, unit.name, rows, unit.start, end)?;
    sections.put(&Header::plain(".debug_abbrev", PROGRAM), ABBREVIATIONS)?;
    sections.put(&Header::plain(".debug_info", PROGRAM), &described)?;
    sections.put(&Header::plain(".debug_line", PROGRAM), &lines)
}

/// The file of symbols of a source, which gdb is to find by a path. It has the sections of text and data as the image has them, all
/// labels, and a line for each statement of text. For each label of data it has a variable, up to the next label: an int or an array
/// of them where `.word` stands there, and an array of char elsewhere. Fails where the source does not assemble, with its first
/// fault.
pub fn symbol_file(alloc: Global, source: &str, path: &str) -> Result<SymbolFile, AsmFault> {
    let (image, listing) = assemble(alloc, source)?;
    let lines = lines(alloc, source)?;
    let unit = unit_of(&image, path);
    let data_bytes = length_of(bytes_of(image.segments().get(1)).len());
    let symbols = symbols_of(alloc, source.as_bytes(), lines.as_slice(), data_bytes)?;
    let tables = tables_of(alloc, &symbols, unit.start, unit.data_start)?;
    let mut sections = Sections::new(alloc)?;
    put_image(&mut sections, &image)?;
    put_tables(&mut sections, &tables)?;
    put_lines(alloc, &mut sections, &unit, &symbols, listing.rows())?;
    Ok(SymbolFile {
        bytes: sections.into_file(alloc, image.entry())?,
        labels: symbols.len(),
        words: listing.rows().len(),
    })
}

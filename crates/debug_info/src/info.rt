//! The sections .debug_info and .debug_abbrev: one unit, two types, and a variable for each label of data.
use crate::numbers::{length_of, put_half, put_text, put_word};
use crate::symbol::{Kind, Symbol};
use std::alloc::{AllocError, Global};

/// The forms of the entries, each with its number, its tag, whether it has children, and pairs of attribute and form.
pub const ABBREVIATIONS: &[u8] = &[
    // 1: a compile unit: name, folder, language, first address, length, line table.
    1, 0x11, 1, 0x03, 0x08, 0x1b, 0x08, 0x13, 0x05, 0x11, 0x01, 0x12, 0x06, 0x10, 0x17, 0, 0,
    // 2: a variable: name, type, place.
    2, 0x34, 0, 0x03, 0x08, 0x49, 0x13, 0x02, 0x18, 0, 0,
    // 3: a type: name, bytes, encoding.
    3, 0x24, 0, 0x03, 0x08, 0x0b, 0x0b, 0x3e, 0x0b, 0, 0,
    // 4: an array: the type of its elements.
    4, 0x01, 1, 0x49, 0x13, 0, 0,
    // 5: its range: the type of an index, and the last one.
    5, 0x21, 0, 0x49, 0x13, 0x2f, 0x06, 0, 0, 0,
];

const VERSION: u16 = 4;

const ADDRESS_BYTES: u8 = 4;

/// Assembly by the compilers of MIPS, which stands for assembly of any kind.
const ASSEMBLER: u16 = 0x8001;

const SIGNED: u8 = 5;

const UNSIGNED_CHAR: u8 = 8;

/// The operation that gives an address, and how many bytes it is with that.
const PLACE: [u8; 2] = [5, 3];

/// Where a source's file is, and its text.
#[derive(Clone, Copy)]
pub struct Unit<'a> {
    pub name: &'a [u8],
    pub folder: &'a [u8],
    pub start: u32,
    pub text_bytes: u32,
    pub data_start: u32,
}

/// The entries of a unit, and where those of its types begin.
struct Entries {
    bytes: Vec<u8>,
    word_type: u32,
    byte_type: u32,
}

impl Drop for Entries {
    fn drop(self) {
        let Entries {
            bytes: _bytes,
            word_type: _,
            byte_type: _,
        } = self;
    }
}

/// Where the next entry begins in its section, which begins with a length of four bytes.
fn place_of(bytes: &[u8]) -> u32 {
    length_of(bytes.len()).saturating_add(4)
}

fn put_type(out: &mut Vec<u8>, name: &[u8], size: u8, encoding: u8) -> Result<u32, AllocError> {
    let at = place_of(out);
    out.push(3)?;
    put_text(out, name)?;
    out.extend_from_slice(&[size, encoding])?;
    Ok(at)
}

fn put_unit(out: &mut Vec<u8>, unit: &Unit<'_>) -> Result<(), AllocError> {
    put_half(out, VERSION)?;
    // The abbreviations begin at once.
    put_word(out, 0)?;
    out.push(ADDRESS_BYTES)?;
    out.push(1)?;
    put_text(out, unit.name)?;
    put_text(out, unit.folder)?;
    put_half(out, ASSEMBLER)?;
    put_word(out, unit.start)?;
    put_word(out, unit.text_bytes)?;
    // So does the line table.
    put_word(out, 0)
}

/// A unit, before its variables.
fn entries_of(alloc: Global, unit: &Unit<'_>) -> Result<Entries, AllocError> {
    let mut bytes = Vec::new(alloc);
    put_unit(&mut bytes, unit)?;
    let word_type = put_type(&mut bytes, b"int", 4, SIGNED)?;
    let byte_type = put_type(&mut bytes, b"char", 1, UNSIGNED_CHAR)?;
    Ok(Entries {
        bytes,
        word_type,
        byte_type,
    })
}

impl Entries {
    /// Adds the type of an array with elements of this type, whose last index this is.
    fn put_array(&mut self, element: u32, last: u32) -> Result<u32, AllocError> {
        let at = place_of(&self.bytes);
        self.bytes.push(4)?;
        put_word(&mut self.bytes, element)?;
        self.bytes.push(5)?;
        put_word(&mut self.bytes, self.word_type)?;
        put_word(&mut self.bytes, last)?;
        self.bytes.push(0)?;
        Ok(at)
    }

    /// The type of a label's bytes: an int or several of them where `.word` stands there, and an array of char elsewhere.
    fn type_of(&mut self, symbol: &Symbol<'_>) -> Result<u32, AllocError> {
        let room = symbol.room;
        if symbol.kind == Kind::Words && room == 4 {
            Ok(self.word_type)
        } else if symbol.kind == Kind::Words && room % 4 == 0 {
            self.put_array(self.word_type, (room / 4).saturating_sub(1))
        } else {
            self.put_array(self.byte_type, room.saturating_sub(1))
        }
    }

    fn put_variable(&mut self, symbol: &Symbol<'_>, data_start: u32) -> Result<(), AllocError> {
        let of = self.type_of(symbol)?;
        self.bytes.push(2)?;
        put_text(&mut self.bytes, symbol.name)?;
        put_word(&mut self.bytes, of)?;
        self.bytes.extend_from_slice(&PLACE)?;
        put_word(&mut self.bytes, data_start.saturating_add(symbol.offset))
    }
}

/// The section .debug_info: a variable for each label of data before a statement that takes bytes.
pub fn info(alloc: Global, unit: &Unit<'_>, symbols: &[Symbol<'_>]) -> Result<Vec<u8>, AllocError> {
    let mut entries = entries_of(alloc, unit)?;
    for symbol in symbols {
        if symbol.in_data && symbol.kind != Kind::Nothing && symbol.room != 0 {
            entries.put_variable(symbol, unit.data_start)?;
        }
    }
    entries.bytes.push(0)?;
    let mut section = Vec::new(alloc);
    put_word(&mut section, length_of(entries.bytes.len()))?;
    section.extend_from_slice(&entries.bytes)?;
    Ok(section)
}

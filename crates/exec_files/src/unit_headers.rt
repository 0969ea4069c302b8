//! The headers of units in the section .debug_line, DWARF 2 to 5.
use crate::cursor::Cursor;
use crate::sections::{bytes_to_zero, section_named};
use std::alloc::{AllocError, AllocFailed, Global};

/// Why a unit is read no further.
#[derive(Clone, Copy)]
pub enum Broken {
    /// It is damaged, or of a kind that is not known.
    Damaged,
    OutOfMemory,
}

impl From<AllocError> for Broken {
    fn from(_error: AllocError) -> Broken {
        Broken::OutOfMemory
    }
}

impl<T: Drop> From<AllocFailed<T>> for Broken {
    fn from(_failed: AllocFailed<T>) -> Broken {
        Broken::OutOfMemory
    }
}

/// What was read, if it was whole.
pub fn whole<T: Drop>(read: Option<T>) -> Result<T, Broken> {
    match read {
        Some(value) => Ok(value),
        None => Err(Broken::Damaged),
    }
}

/// The sections in which names stand that a header tells by a place.
#[derive(Clone, Copy)]
pub struct NameSections<'a> {
    line_names: &'a [u8],
    names: &'a [u8],
}

impl<'a> NameSections<'a> {
    /// Those of a file.
    pub fn of(file: &'a [u8]) -> NameSections<'a> {
        NameSections {
            line_names: section_named(file, b".debug_line_str"),
            names: section_named(file, b".debug_str"),
        }
    }
}

/// How a unit's opcodes are read.
#[derive(Clone, Copy)]
pub struct Opcodes<'a> {
    /// How many bytes an instruction has at least, by which addresses go on.
    pub step: u8,
    /// By how much a special opcode moves the line at least, and how many such numbers there are.
    pub least: i8,
    pub range: u8,
    /// The first special opcode.
    pub special: u8,
    /// How many operands the standard opcodes have, from 1 on.
    pub operands: &'a [u8],
}

/// The header of a unit.
pub struct Header<'a> {
    pub opcodes: Opcodes<'a>,
    /// The number of its first file.
    pub first: u64,
    pub files: Vec<&'a [u8]>,
    pub program: Cursor<'a>,
}

impl Drop for Header<'_> {
    fn drop(self) {
        let Header {
            opcodes: _,
            first: _,
            files: _files,
            program: _,
        } = self;
    }
}

fn opcodes_of<'a>(version: u16, header: &mut Cursor<'a>) -> Option<Opcodes<'a>> {
    let step = header.byte()?;
    if version >= 4 {
        header.byte()?;
    }
    let _is_statement = header.byte()?;
    let least = header.byte()?.cast_signed();
    let range = header.byte()?;
    let special = header.byte()?;
    let operands = header.take(usize::from(special.checked_sub(1)?))?;
    Some(Opcodes {
        step,
        least,
        range,
        special,
        operands,
    })
}

/// Passes the folders, up to DWARF 4: names, and last an empty one.
fn pass_folders(header: &mut Cursor<'_>) -> Option<()> {
    for _ in 0..u64::MAX {
        if header.text()?.is_empty() {
            break;
        }
    }
    Some(())
}

/// The next file, up to DWARF 4: its name, and three numbers. None stands for the end.
fn file_before_5<'a>(header: &mut Cursor<'a>) -> Option<Option<&'a [u8]>> {
    let name = header.text()?;
    if name.is_empty() {
        return Some(None);
    }
    for _ in 0..3 {
        header.unsigned()?;
    }
    Some(Some(name))
}

fn files_before_5<'a>(alloc: Global, header: &mut Cursor<'a>) -> Result<Vec<&'a [u8]>, Broken> {
    let mut files = Vec::new(alloc);
    whole(pass_folders(header))?;
    for _ in 0..u64::MAX {
        match whole(file_before_5(header))? {
            Some(name) => files.push(name)?,
            None => break,
        }
    }
    Ok(files)
}

/// The text of a form, or nothing where it is none; which is passed.
fn text_of<'a>(form: u64, entries: &mut Cursor<'a>, names: NameSections<'a>) -> Option<&'a [u8]> {
    match form {
        0x08 => entries.text(),
        0x0e => bytes_to_zero(names.names, entries.word()? as usize),
        0x1f => bytes_to_zero(names.line_names, entries.word()? as usize),
        0x0b => entries.take(1),
        0x05 => entries.take(2),
        0x06 => entries.take(4),
        0x07 => entries.take(8),
        0x1e => entries.take(16),
        0x0f => {
            entries.unsigned()?;
            Some(&[])
        }
        0x09 => {
            let count = entries.unsigned()?;
            entries.take(usize::try_from(count).ok()?)
        }
        _ => None,
    }
}

/// What an entry of a table has, in DWARF 5: pairs of what it is and in which form.
#[derive(Clone, Copy)]
struct Format<'a> {
    count: u8,
    pairs: Cursor<'a>,
}

fn format_of<'a>(header: &mut Cursor<'a>) -> Option<Format<'a>> {
    let count = header.byte()?;
    let pairs = *header;
    for _ in 0..count {
        header.unsigned()?;
        header.unsigned()?;
    }
    Some(Format { count, pairs })
}

/// The path of the next entry.
fn path_of<'a>(
    format: Format<'a>,
    header: &mut Cursor<'a>,
    names: NameSections<'a>,
) -> Option<&'a [u8]> {
    let mut pairs = format.pairs;
    let mut path: &'a [u8] = &[];
    for _ in 0..format.count {
        let is_path = pairs.unsigned()? == 1;
        let text = text_of(pairs.unsigned()?, header, names)?;
        if is_path {
            path = text;
        }
    }
    Some(path)
}

/// The paths of a table's entries. Entries without a part would be without an end, so they are damaged.
fn paths_of<'a>(
    alloc: Global,
    header: &mut Cursor<'a>,
    names: NameSections<'a>,
) -> Result<Vec<&'a [u8]>, Broken> {
    let format = whole(format_of(header))?;
    let mut paths = Vec::new(alloc);
    let count = whole(header.unsigned())?;
    if format.count == 0 && count > 0 {
        return Err(Broken::Damaged);
    }
    for _ in 0..count {
        paths.push(whole(path_of(format, header, names))?)?;
    }
    Ok(paths)
}

/// The files of a unit of this version, as the rest of its header has them.
fn files_of<'a>(
    alloc: Global,
    version: u16,
    header: &mut Cursor<'a>,
    names: NameSections<'a>,
) -> Result<Vec<&'a [u8]>, Broken> {
    match version {
        2..=4 => files_before_5(alloc, header),
        5 => {
            paths_of(alloc, header, names)?;
            paths_of(alloc, header, names)
        }
        _ => Err(Broken::Damaged),
    }
}

/// The header of a unit, whose bytes begin after its length.
pub fn header_of<'a>(
    alloc: Global,
    unit: &'a [u8],
    names: NameSections<'a>,
) -> Result<Header<'a>, Broken> {
    let mut program = Cursor::new(unit);
    let version = whole(program.half())?;
    if version == 5 {
        whole(program.half())?;
    }
    let length = whole(program.word())?;
    let mut header = Cursor::new(whole(program.take(length as usize))?);
    Ok(Header {
        opcodes: whole(opcodes_of(version, &mut header))?,
        first: if version == 5 { 0 } else { 1 },
        files: files_of(alloc, version, &mut header, names)?,
        program,
    })
}

//! The sections of an ELF file, as far as they are whole.

/// How many bytes a section header has.
const SECTION_HEADER: usize = 40;

/// A section.
#[derive(Clone, Copy)]
pub struct Section {
    /// Where its name begins among those of all sections.
    name: u32,
    pub kind: u32,
    address: u32,
    offset: usize,
    size: usize,
    /// The number of another section that belongs to it.
    pub link: u32,
}

pub fn word_at(bytes: &[u8], at: usize) -> Option<u32> {
    match bytes.get(at..)? {
        [a, b, c, d, ..] => Some(u32::from_le_bytes([*a, *b, *c, *d])),
        _ => None,
    }
}

pub fn half_at(bytes: &[u8], at: usize) -> Option<u16> {
    match bytes.get(at..)? {
        [a, b, ..] => Some(u16::from_le_bytes([*a, *b])),
        _ => None,
    }
}

/// How many sections a file has.
pub fn section_count(file: &[u8]) -> u32 {
    u32::from(half_at(file, 48).unwrap_or(0))
}

/// The section of a number, by the header of a file.
pub fn section_numbered(file: &[u8], number: u32) -> Option<Section> {
    if number >= section_count(file) {
        return None;
    }
    let table = word_at(file, 32)? as usize;
    let at = table.checked_add((number as usize).checked_mul(SECTION_HEADER)?)?;
    let header = file.get(at..)?;
    Some(Section {
        name: word_at(header, 0)?,
        kind: word_at(header, 4)?,
        address: word_at(header, 12)?,
        offset: word_at(header, 16)? as usize,
        size: word_at(header, 20)? as usize,
        link: word_at(header, 24)?,
    })
}

/// The address after a section, as far as there are addresses.
pub fn end_of(section: Section) -> u32 {
    let size = u32::try_from(section.size).unwrap_or(u32::MAX);
    section.address.saturating_add(size)
}

/// The bytes of a section.
pub fn content(file: &[u8], section: Section) -> Option<&[u8]> {
    file.get(section.offset..)?.get(..section.size)
}

/// The bytes before the next 0 from a place on.
pub fn bytes_to_zero(bytes: &[u8], at: usize) -> Option<&[u8]> {
    let rest = bytes.get(at..)?;
    let end = rest.iter().position(|byte| *byte == 0)?;
    rest.get(..end)
}

/// The bytes of the first section of a name; none where there is no such section.
pub fn section_named<'a>(file: &'a [u8], name: &[u8]) -> &'a [u8] {
    named(file, name).unwrap_or(&[])
}

fn named<'a>(file: &'a [u8], name: &[u8]) -> Option<&'a [u8]> {
    let names = content(file, section_numbered(file, u32::from(half_at(file, 50)?))?)?;
    for number in 0..section_count(file) {
        let section = section_numbered(file, number)?;
        if bytes_to_zero(names, section.name as usize) == Some(name) {
            return content(file, section);
        }
    }
    None
}

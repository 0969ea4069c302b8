//! Files of images.
use crate::limited::read_up_to;
use byteorder::{ByteOrder, LittleEndian};
use elf32::{ElfFault, parse};
use std::rt::Files;
use std::{fs, io};

/// How many bytes a file header has.
const FILE_HEADER: usize = 52;

/// How many bytes a program header has, of which a file has four at most.
const PROGRAM_HEADER: usize = 32;

/// The most bytes that headers take.
const MOST_HEADERS: u64 = 180;

/// Where the bytes of the last segment end, by a file's headers: the greatest `p_offset` + `p_filesz`.
fn end_of_segments(headers: &[u8]) -> u64 {
    let Some((header, table)) = headers.split_at_checked(FILE_HEADER) else {
        return 0;
    };
    let count = usize::from(LittleEndian::read_u16(&header[44..]));
    let (segments, _rest) = table.as_chunks::<PROGRAM_HEADER>();
    let mut end = 0;
    for segment in segments.iter().take(count) {
        let offset = LittleEndian::read_u32(&segment[4..]);
        let size = LittleEndian::read_u32(&segment[16..]);
        end = (u64::from(offset) + u64::from(size)).max(end);
    }
    end
}

/// The bytes of an image's file, as far as `elf32::parse` needs them: its headers, and where they pass the checks before it, all up to
/// the end of the last segment's bytes. What `parse` makes of these it would make of the whole file.
pub fn image_file_in<R: Files + AllocGlobal>(rt: &R, path: &str) -> io::Result<Vec<u8>> {
    let mut file = fs::open(rt, path)?;
    let mut bytes = Vec::new(rt.alloc());
    read_up_to(&mut file, &mut bytes, MOST_HEADERS)?;
    if matches!(parse(rt.alloc(), &bytes), Err(ElfFault::PastEnd)) {
        let end = end_of_segments(&bytes);
        read_up_to(&mut file, &mut bytes, end)?;
    }
    Ok(bytes)
}

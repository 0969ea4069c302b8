//! `list_file`: prints the words of an image, a line each (`bench list`).
use crate::reading::image_in;
use byteorder::{ByteOrder, LittleEndian};
use faults::Fault;
use formats::decode;
use machine_model::{Image, Segment};
use std::io::Write;
use std::rt::Files;

/// Prints the line of a word: its address, the word, and the instruction that it means, if it means one.
fn list_word<O: Write>(at: u32, word: u32, out: &mut O) -> Result<(), Fault> {
    match decode(word) {
        Some(instruction) => writeln!(out, "{at:08x}: {word:08x}  {instruction}")?,
        None => writeln!(out, "{at:08x}: {word:08x}  .word 0x{word:08x}")?,
    }
    Ok(())
}

/// Prints a line for each word of a segment's file bytes, from the first byte on.
fn list_segment<O: Write>(segment: &Segment, out: &mut O) -> Result<(), Fault> {
    let mut at = segment.vaddr;
    for bytes in segment.bytes.as_slice().chunks_exact(4) {
        let word = LittleEndian::read_u32(bytes);
        list_word(at, word, out)?;
        // A segment ends far below the last address.
        at = at.wrapping_add(4);
    }
    Ok(())
}

/// Prints a line for each word of the file bytes in segments that may be executed; a rest of one to three bytes is left
/// out.
fn list<O: Write>(image: &Image, out: &mut O) -> Result<(), Fault> {
    for segment in image.segments() {
        if segment.rights.execute {
            list_segment(segment, out)?;
        }
    }
    Ok(())
}

/// Prints the words of the image in a file that may be executed, a line each.
pub fn list_file<R: Files + AllocGlobal, O: Write>(
    rt: &R,
    path: &str,
    out: &mut O,
) -> Result<(), Fault> {
    list(&image_in(rt, path)?, out)
}

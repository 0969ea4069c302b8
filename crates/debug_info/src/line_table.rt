//! The section .debug_line: which line each word of text is of.
use crate::numbers::{length_of, put_half, put_signed, put_text, put_unsigned, put_word};
use assembler::ListingRow;
use std::alloc::{AllocError, Global};

const VERSION: u16 = 4;

/// Instructions are measured in bytes, one at a time; each row begins a statement; the special opcodes, of which none is used; and how
/// many operands the standard opcodes 1 to 9 take.
const MACHINE: [u8; 15] = [1, 1, 1, 0xfb, 14, 10, 0, 1, 1, 1, 1, 0, 0, 0, 1];

/// Opcodes of the line program.
const COPY: u8 = 1;

const ADVANCE_PC: u8 = 2;

const ADVANCE_LINE: u8 = 3;

/// An extended opcode of five bytes: the address is set.
const SET_ADDRESS: [u8; 3] = [0, 5, 2];

const END_SEQUENCE: [u8; 3] = [0, 1, 1];

/// A header's rest: no folders, and one file, in the folder of the unit, with no time and no length.
fn put_names(out: &mut Vec<u8>, name: &[u8]) -> Result<(), AllocError> {
    out.extend_from_slice(&MACHINE)?;
    out.push(0)?;
    put_text(out, name)?;
    out.extend_from_slice(&[0, 0, 0, 0])
}

fn put_advance(out: &mut Vec<u8>, from: u32, to: u32) -> Result<(), AllocError> {
    out.push(ADVANCE_PC)?;
    put_unsigned(out, to.saturating_sub(from))
}

/// A row for each line of text; a line's further words have none. The rows' addresses and lines ascend. Lines count from 1.
fn put_rows(
    out: &mut Vec<u8>,
    rows: &[ListingRow],
    start: u32,
    end: u32,
) -> Result<(), AllocError> {
    out.extend_from_slice(&SET_ADDRESS)?;
    put_word(out, start)?;
    let mut at = start;
    let mut line = 0;
    // The machine that runs the line program begins at line 1.
    let mut registered = 1;
    for row in rows {
        let next = length_of(row.line);
        if next != line {
            put_advance(out, at, row.address)?;
            out.push(ADVANCE_LINE)?;
            put_signed(out, next.saturating_sub(registered))?;
            out.push(COPY)?;
            at = row.address;
            line = next;
            registered = next;
        }
    }
    put_advance(out, at, end)?;
    out.extend_from_slice(&END_SEQUENCE)
}

/// The section of a source's file of this name, whose text has these rows and ends before `end`.
pub fn line_table(
    alloc: Global,
    name: &[u8],
    rows: &[ListingRow],
    start: u32,
    end: u32,
) -> Result<Vec<u8>, AllocError> {
    let mut names = Vec::new(alloc);
    put_names(&mut names, name)?;
    let mut rest = Vec::new(alloc);
    put_half(&mut rest, VERSION)?;
    put_word(&mut rest, length_of(names.len()))?;
    rest.extend_from_slice(&names)?;
    put_rows(&mut rest, rows, start, end)?;
    let mut section = Vec::new(alloc);
    put_word(&mut section, length_of(rest.len()))?;
    section.extend_from_slice(&rest)?;
    Ok(section)
}

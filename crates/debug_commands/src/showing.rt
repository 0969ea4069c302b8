//! Prints bytes of memory, for `show ADDR N`.
use memory::Space;
use std::io;
use std::io::Write;
use trap_reports::There;

/// The most bytes that are printed at a time.
pub const MOST_SHOWN: u32 = 4096;

/// A line ends before each address that is a multiple of this.
const ROW: u32 = 16;

/// The letter of a right, or `-` where a page has not that right.
fn letter(has: bool, letter: char) -> char {
    if has { letter } else { '-' }
}

/// Begins a line with an address, and the rights of the page in which it lies.
fn begin_row<O: Write>(space: &Space, at: u32, out: &mut O) -> io::Result<()> {
    let There::Page {
        read,
        write,
        execute,
    } = There::at(space, at)
    else {
        return write!(out, "  {at:08x}: no page");
    };
    let (read, write) = (letter(read, 'r'), letter(write, 'w'));
    let execute = letter(execute, 'x');
    write!(out, "  {at:08x} {read}{write}{execute}:")
}

/// Prints the byte at an address, if a page is there.
fn print_byte<O: Write>(space: &Space, at: u32, out: &mut O) -> io::Result<()> {
    match space.byte(at) {
        Some(byte) => write!(out, " {byte:02x}"),
        None => Ok(()),
    }
}

/// Prints `count` bytes from an address on, at least one, in lines with the rights of their page. No byte stands past the greatest
/// address.
pub fn print_memory<O: Write>(space: &Space, at: u32, count: u32, out: &mut O) -> io::Result<()> {
    begin_row(space, at, out)?;
    for i in 0..count {
        let Some(place) = at.checked_add(i) else {
            return out.write_all(b"\n");
        };
        if i > 0 && place % ROW == 0 {
            out.write_all(b"\n")?;
            begin_row(space, place, out)?;
        }
        print_byte(space, place, out)?;
    }
    out.write_all(b"\n")
}

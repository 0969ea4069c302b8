//! Lines that are written at once.
use std::fmt::Display;
use std::io::{self, Write};

/// The longest line that is written at once, its end included.
const LONGEST_LINE: usize = 256;

/// The length of a line of this text, which then stands in the room; or an error where it is longer than the room.
fn put_line<T: Display>(room: &mut [u8], text: &T) -> io::Result<usize> {
    let whole = room.len();
    let mut rest = room;
    writeln!(rest, "{text}")?;
    Ok(whole.saturating_sub(rest.len()))
}

/// Writes a text and the end of its line, by one write where they have no more than 256 bytes. It takes no memory.
pub fn write_line<W: Write, T: Display + Drop>(out: &mut W, text: T) -> io::Result<()> {
    let mut room = [0u8; LONGEST_LINE];
    match put_line(&mut room, &text) {
        Ok(length) => out.write_all(room.get(..length).unwrap_or(&[])),
        Err(_) => writeln!(out, "{text}"),
    }
}

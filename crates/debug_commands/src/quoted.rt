//! Prints bytes as text between quotes.
use std::io;
use std::io::Write;

/// Prints a byte as a string of a source spells it. A byte that no string has prints as `\x` and two hexadecimal digits.
fn print_byte<O: Write>(byte: u8, out: &mut O) -> io::Result<()> {
    match byte {
        b'\n' => out.write_all(b"\\n"),
        b'\t' => out.write_all(b"\\t"),
        b'\0' => out.write_all(b"\\0"),
        b'\\' => out.write_all(b"\\\\"),
        b'"' => out.write_all(b"\\\""),
        b' '..=b'~' => out.write_all(&[byte]),
        byte => write!(out, "\\x{byte:02x}"),
    }
}

/// Prints bytes between quotes.
pub fn print_quoted<O: Write>(bytes: &[u8], out: &mut O) -> io::Result<()> {
    out.write_all(b"\"")?;
    for byte in bytes {
        print_byte(*byte, out)?;
    }
    out.write_all(b"\"")
}

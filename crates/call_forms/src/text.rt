//! A call as a text.
use crate::call::{Argument, Call};
use std::fmt;

/// The first bytes, at most so many, and two dots where there are more: printable ASCII as it is, the end of a line as `\n`, and any
/// other byte as a dot.
#[derive(Clone, Copy)]
pub struct BytesText<'a> {
    pub bytes: &'a [u8],
    pub most: usize,
}

impl fmt::Display for BytesText<'_> {
    fn fmt<W: fmt::Write>(&self, f: &mut fmt::Formatter<W>) -> fmt::Result {
        for byte in self.bytes.iter().take(self.most) {
            match *byte {
                b'\n' => f.write_str("\\n")?,
                byte @ b' '..=b'~' => f.write_char(char::from(byte))?,
                _ => f.write_char('.')?,
            }
        }
        f.write_str(if self.bytes.len() > self.most {
            ".."
        } else {
            ""
        })
    }
}

/// How the arguments of a call are written.
#[derive(Clone, Copy)]
pub enum Style<'a> {
    /// As they are in registers: addresses in hexadecimal digits, other numbers with their signs.
    Registers,
    /// Without addresses, and in place of each length the bytes, of which so many are shown. `bytes` are all that the call reads, if it
    /// may read them.
    Bytes {
        bytes: Option<&'a [u8]>,
        most: usize,
    },
}

/// A call by its number, with its arguments.
#[derive(Clone, Copy)]
pub struct CallText<'a> {
    pub number: u32,
    pub arguments: [u32; 3],
    pub style: Style<'a>,
}

/// The arguments of a number that means no call.
const UNKNOWN: &[Argument] = &[Argument::Number, Argument::Number, Argument::Number];

/// Writes bytes between quotes, or a question mark where they may not be read.
fn write_quoted<W: fmt::Write>(
    f: &mut fmt::Formatter<W>,
    bytes: Option<&[u8]>,
    most: usize,
) -> fmt::Result {
    match bytes {
        Some(bytes) => {
            let text = BytesText { bytes, most };
            write!(f, "'{text}'")
        }
        None => f.write_str("?"),
    }
}

impl<'a> Style<'a> {
    /// Writes an argument, and says how those after it are written: without the bytes of this one.
    fn write<W: fmt::Write>(
        self,
        f: &mut fmt::Formatter<W>,
        kind: Argument,
        value: u32,
    ) -> Result<Style<'a>, fmt::Error> {
        match (self, kind) {
            (Style::Registers, Argument::Address) => write!(f, "0x{value:x}")?,
            (Style::Registers, _) => {
                let value = value.cast_signed();
                write!(f, "{value}")?;
            }
            (Style::Bytes { bytes, most }, Argument::Length) => {
                let length = value as usize;
                write_quoted(f, bytes.and_then(|bytes| bytes.get(..length)), most)?;
                let bytes = bytes.and_then(|bytes| bytes.get(length..));
                return Ok(Style::Bytes { bytes, most });
            }
            (Style::Bytes { .. }, _) => write!(f, "{value}")?,
        }
        Ok(self)
    }
}

impl fmt::Display for CallText<'_> {
    fn fmt<W: fmt::Write>(&self, f: &mut fmt::Formatter<W>) -> fmt::Result {
        let number = self.number;
        let call = Call::of(number);
        match call {
            Some(call) => f.write_str(call.form().name)?,
            None => write!(f, "call {number}")?,
        }
        let kinds = call.map_or(UNKNOWN, |call| call.form().arguments);
        let mut style = self.style;
        let mut is_first = true;
        f.write_str("(")?;
        for (kind, value) in kinds.iter().zip(&self.arguments) {
            if matches!((style, *kind), (Style::Bytes { .. }, Argument::Address)) {
                continue;
            }
            if !is_first {
                f.write_str(", ")?;
            }
            is_first = false;
            style = style.write(f, *kind, *value)?;
        }
        f.write_str(")")
    }
}

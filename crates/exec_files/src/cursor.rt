//! Bytes that are read one after the other.

/// The bytes that are left.
#[derive(Clone, Copy)]
pub struct Cursor<'a> {
    rest: &'a [u8],
}

/// The most bytes of a number in groups of seven bits.
const MOST_GROUPS: u32 = 10;

impl<'a> Cursor<'a> {
    pub fn new(bytes: &'a [u8]) -> Cursor<'a> {
        Cursor { rest: bytes }
    }

    pub fn is_empty(&self) -> bool {
        self.rest.is_empty()
    }

    /// The next bytes, so many. None where fewer are left.
    pub fn take(&mut self, count: usize) -> Option<&'a [u8]> {
        let taken = self.rest.get(..count)?;
        self.rest = self.rest.get(count..)?;
        Some(taken)
    }

    pub fn byte(&mut self) -> Option<u8> {
        match self.rest {
            [byte, rest @ ..] => {
                self.rest = rest;
                Some(*byte)
            }
            [] => None,
        }
    }

    pub fn half(&mut self) -> Option<u16> {
        match self.take(2)? {
            [a, b] => Some(u16::from_le_bytes([*a, *b])),
            _ => None,
        }
    }

    pub fn word(&mut self) -> Option<u32> {
        match self.take(4)? {
            [a, b, c, d] => Some(u32::from_le_bytes([*a, *b, *c, *d])),
            _ => None,
        }
    }

    /// The bytes before the next 0, which is passed.
    pub fn text(&mut self) -> Option<&'a [u8]> {
        let end = self.rest.iter().position(|byte| *byte == 0)?;
        let text = self.take(end)?;
        self.byte()?;
        Some(text)
    }

    /// A number in groups of seven bits (LEB128), and how many bits it has; none of more than ten groups.
    fn groups(&mut self) -> Option<(u64, u32)> {
        let mut value = 0u64;
        for done in 0..MOST_GROUPS {
            let byte = self.byte()?;
            value |= u64::from(byte % 128)
                .checked_shl(done.wrapping_mul(7))
                .unwrap_or(0);
            if byte < 128 {
                return Some((value, done.wrapping_mul(7).wrapping_add(7)));
            }
        }
        None
    }

    /// A number in groups of seven bits.
    pub fn unsigned(&mut self) -> Option<u64> {
        let (value, _bits) = self.groups()?;
        Some(value)
    }

    /// The same with a sign: its highest bit stands for all above it.
    pub fn signed(&mut self) -> Option<i64> {
        let (value, bits) = self.groups()?;
        let above = u64::MAX.checked_shl(bits).unwrap_or(0);
        let is_negative = value.checked_shr(bits.wrapping_sub(1)).unwrap_or(0) % 2 == 1;
        let value = if is_negative { value | above } else { value };
        Some(value.cast_signed())
    }
}

//! The text of a line, made piece by piece: a log has millions of lines.

/// The most bytes of a text. What stands beyond is left out; no line has so many.
const ROOM: usize = 96;

/// How many hexadecimal digits a word has.
const DIGITS: usize = 8;

/// 1 in each of eight bytes.
const ONES: u64 = 0x0101_0101_0101_0101;

/// A text.
#[derive(Clone, Copy)]
pub struct LineText {
    bytes: [u8; ROOM],
    length: usize,
}

/// The hexadecimal digits of a number, made all at once: each in a byte of its own, to which `0` is added, or what `a` has beyond ten.
fn digits_of(number: u32) -> [u8; DIGITS] {
    let spread = u64::from(number);
    let spread = (spread | (spread << 16)) & 0x0000_FFFF_0000_FFFF;
    let spread = (spread | (spread << 8)) & 0x00FF_00FF_00FF_00FF;
    let spread = (spread | (spread << 4)) & 0x0F0F_0F0F_0F0F_0F0F;
    let letters = (spread.wrapping_add(ONES.wrapping_mul(6)) >> 4) & ONES;
    let zeros = ONES.wrapping_mul(0x30);
    let beyond = letters.wrapping_mul(0x27);
    spread
        .wrapping_add(zeros)
        .wrapping_add(beyond)
        .to_be_bytes()
}

/// The last decimal digit of a number.
fn decimal(number: u32) -> u8 {
    b'0'.wrapping_add((number % 10) as u8)
}

impl LineText {
    /// An empty text.
    pub fn new() -> LineText {
        LineText {
            bytes: [0; ROOM],
            length: 0,
        }
    }

    pub fn as_slice(&self) -> &[u8] {
        self.bytes.get(..self.length).unwrap_or(&[])
    }

    /// Adds bytes.
    #[inline]
    pub fn add(&mut self, bytes: &[u8]) {
        let (at, count) = (self.length, bytes.len());
        if count <= ROOM && at <= ROOM - count {
            self.bytes[at..at + count].copy_from_slice(bytes);
            self.length = at + count;
        }
    }

    /// Adds a word, as `0x` and all its digits.
    #[inline]
    pub fn add_word(&mut self, word: u32) {
        self.add(b"0x");
        self.add(&digits_of(word));
    }

    /// Adds the lowest bytes of a number, each as two digits, after `0x`.
    pub fn add_bytes(&mut self, number: u32, count: u32) {
        let digits = digits_of(number);
        let left = DIGITS.saturating_sub((count as usize).saturating_mul(2));
        self.add(b"0x");
        self.add(digits.get(left..).unwrap_or(&[]));
    }

    /// Adds the number of a register, below 32, in two places.
    pub fn add_register(&mut self, number: u32) {
        if number < 10 {
            self.add(&[decimal(number), b' ']);
        } else {
            self.add(&[decimal(number / 10), decimal(number)]);
        }
    }
}

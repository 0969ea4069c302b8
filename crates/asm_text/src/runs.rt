//! Runs of bytes of one kind.
ghost use Rattle.std.specs.Prelude.{◌≡◌, ◌<◌, ◌≤◌, true, length};
ghost use Rattle.std.specs.List.{prefix_len};
ghost use Rattle.asm_text.specs.Letters.{is_name_byte, begins_word, is_blank, goes_on};
ghost use Rattle.asm_text.specs.Scan.{run_len, begins_fence_i, word_len};

/// The one word that has a `.` inside.
const FENCE_I: [u8; 7] = *b"fence.i";

/// Whether a word goes on with this byte.
pub fn is_name_byte(byte: u8) -> bool
    ensures { result ≡ is_name_byte byte }
{
    byte.is_ascii_alphanumeric() || byte == b'_'
}

/// Whether a word begins with this byte.
pub fn begins_word(byte: u8) -> bool
    ensures { result ≡ begins_word byte }
{
    byte.is_ascii_alphabetic() || byte == b'_' || byte == b'.'
}

fn is_blank(byte: u8) -> bool
    ensures { result ≡ is_blank byte }
{
    byte == b' ' || byte == b'\t'
}

/// How many blanks come first.
pub fn blank_len(bytes: &[u8]) -> usize
    ensures value { result ≡ prefix_len is_blank bytes.now }
    ensures bound { result ≤ length bytes.now }
{
    for (len, byte) in bytes.iter().enumerate() {
        if !is_blank(*byte) {
            return len;
        }
    }
    bytes.len()
}

/// How many letters, digits and `_` come first.
fn name_len(bytes: &[u8]) -> usize
    ensures value { result ≡ prefix_len is_name_byte bytes.now }
    ensures bound { result ≤ length bytes.now }
{
    for (len, byte) in bytes.iter().enumerate() {
        if !is_name_byte(*byte) {
            return len;
        }
    }
    bytes.len()
}

/// How many bytes a run takes that comes first, its first byte whatever it is.
pub fn run_len(bytes: &[u8]) -> usize
    ensures value { result ≡ run_len bytes.now }
    ensures bound { result ≤ length bytes.now }
{
    match bytes {
        [] => 0,
        [_, rest @ ..] => 1 + name_len(rest),
    }
}

/// Whether `fence.i` comes first, with no letter, digit or `_` after it.
fn begins_fence_i(bytes: &[u8]) -> bool
    ensures value { result ≡ begins_fence_i bytes.now }
    ensures bound { result ≡ true → 7 ≤ length bytes.now }
{
    match bytes.strip_prefix(&FENCE_I) {
        Some(rest) => name_len(rest) == 0,
        None => false,
    }
}

/// How many bytes a word takes that comes first.
pub fn word_len(bytes: &[u8]) -> usize
    ensures value { result ≡ word_len bytes.now }
    ensures some { 0 < length bytes.now → 0 < result }
    ensures bound { result ≤ length bytes.now }
{
    if begins_fence_i(bytes) {
        FENCE_I.len()
    } else {
        run_len(bytes)
    }
}

/// How many bytes stand before the first line feed.
pub fn line_len(bytes: &[u8]) -> usize
    ensures value { result ≡ prefix_len goes_on bytes.now }
    ensures bound { result ≤ length bytes.now }
{
    for (len, byte) in bytes.iter().enumerate() {
        if *byte == b'\n' {
            return len;
        }
    }
    bytes.len()
}

//! Numbers and bytes as hexadecimal digits.
ghost use Rattle.std.specs.Prelude.{◌≡◌, ◌++◌, ◌<◌, OnOk};
ghost use Rattle.gdb_packets.specs.Digits.{digit, digits_of, hex_of};

use input_reading::{hex_number, hex_word};
use std::alloc::AllocError;

/// An address and a length, as `AT,N`.
pub fn range(words: &str) -> Option<(u32, u32)> {
    let (at, length) = words.split_once(',')?;
    Some((hex_word(at)?, hex_word(length)?))
}

/// The number of one to eight pairs of digits, the lowest pair first. None for another word.
pub fn little_endian(word: &str) -> Option<u64> {
    let digits = word.len();
    if digits == 0 || digits > 16 || digits % 2 == 1 {
        return None;
    }
    Some(hex_number(word)?.swap_bytes() >> (64 - 4 * digits))
}

/// The digit of a number below 16.
pub fn digit_of(number: u8) -> u8
    requires { number < 16 }
    ensures { result ≡ digit number }
{
    if number < 10 {
        b'0' + number
    } else {
        b'a' + (number - 10)
    }
}

/// Adds the two digits of a byte.
fn push_byte(out: &mut Vec<u8>, byte: u8) -> Result<(), AllocError>
    ensures { OnOk result (out.new.items ≡ out.old.items ++ digits_of byte) }
{
    out.extend_from_slice(&[digit_of(byte / 16), digit_of(byte % 16)])
}

/// Adds the digits of bytes.
pub fn push_bytes(out: &mut Vec<u8>, bytes: &[u8]) -> Result<(), AllocError>
    ensures { OnOk result (out.new.items ≡ out.old.items ++ hex_of bytes.now) }
{
    for byte in bytes {
        push_byte(out, *byte)?;
    }
    Ok(())
}

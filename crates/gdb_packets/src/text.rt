//! The text of a packet, between `$` and `#`: its checksum, and the payload that it stands for.
ghost use Rattle.std.specs.Prelude.{◌≡◌, ◌%◌, ◌++◌, false, IfOk, OnOk, sum};
ghost use Rattle.gdb_packets.specs.Reading.{ends_escaped, escapes, spelled, unescaped};

use std::alloc::{AllocError, Global};

/// Stands before a byte that is escaped.
pub const ESCAPE: u8 = b'}';

/// By this bit an escaped byte differs from the one that stands for it.
pub const FLIP: u8 = 32;

/// The checksum of a text: the sum of its bytes, modulo 256.
pub fn sum_of(text: &[u8]) -> u8
    ensures { result ≡ sum text.now % 256 }
{
    let mut sum: u8 = 0;
    for byte in text {
        sum = sum.wrapping_add(*byte);
    }
    sum
}

/// Whether a byte of a text escapes the next one. A byte that is escaped itself does not.
fn escapes(is_escaped: bool, byte: u8) -> bool
    ensures { result ≡ escapes is_escaped byte }
{
    !is_escaped && byte == ESCAPE
}

/// Whether a text ends within an escape.
pub fn is_cut(text: &[u8]) -> bool
    ensures { result ≡ ends_escaped false text.now }
{
    let mut is_escaped = false;
    for byte in text {
        is_escaped = escapes(is_escaped, *byte);
    }
    is_escaped
}

/// Adds what a byte of a text stands for. An escaped byte has a bit flipped; one that escapes the next stands for nothing.
fn push_spelled(payload: &mut Vec<u8>, is_escaped: bool, byte: u8) -> Result<(), AllocError>
    ensures { OnOk result (payload.new.items ≡ payload.old.items ++ spelled is_escaped byte) }
{
    if is_escaped {
        Ok(payload.push(byte ^ FLIP)?)
    } else if byte == ESCAPE {
        Ok(())
    } else {
        Ok(payload.push(byte)?)
    }
}

/// The payload that a text stands for.
pub fn payload_of(alloc: Global, text: &[u8]) -> Result<Vec<u8>, AllocError>
    ensures { IfOk result (λ payload. payload.items ≡ unescaped false text.now) }
{
    let mut payload = Vec::new(alloc);
    let mut is_escaped = false;
    for byte in text {
        push_spelled(&mut payload, is_escaped, *byte)?;
        is_escaped = escapes(is_escaped, *byte);
    }
    Ok(payload)
}

//! Numbers and texts in the sections.
use std::alloc::AllocError;

/// A length as a number of 32 bits. Sections are far shorter than that.
pub fn length_of(bytes: usize) -> u32 {
    bytes.min(u32::MAX as usize) as u32
}

pub fn put_half(out: &mut Vec<u8>, number: u16) -> Result<(), AllocError> {
    out.extend_from_slice(&number.to_le_bytes())
}

pub fn put_word(out: &mut Vec<u8>, number: u32) -> Result<(), AllocError> {
    out.extend_from_slice(&number.to_le_bytes())
}

/// A text and the zero after it.
pub fn put_text(out: &mut Vec<u8>, text: &[u8]) -> Result<(), AllocError> {
    out.extend_from_slice(text)?;
    Ok(out.push(0)?)
}

/// The lowest seven bits of a number.
fn low_bits(number: u32) -> u8 {
    (number % 128) as u8
}

/// Seven bits a byte, the lowest first; all but the last byte have bit 7 set (LEB128).
pub fn put_unsigned(out: &mut Vec<u8>, number: u32) -> Result<(), AllocError> {
    let mut rest = number;
    for _ in 0..4 {
        if rest < 128 {
            break;
        }
        out.push(low_bits(rest) | 128)?;
        rest /= 128;
    }
    Ok(out.push(low_bits(rest))?)
}

/// A number that is not negative, as a signed one: the last byte has bit 6 clear.
pub fn put_signed(out: &mut Vec<u8>, number: u32) -> Result<(), AllocError> {
    let mut rest = number;
    for _ in 0..4 {
        if rest < 64 {
            break;
        }
        out.push(low_bits(rest) | 128)?;
        rest /= 128;
    }
    Ok(out.push(low_bits(rest))?)
}

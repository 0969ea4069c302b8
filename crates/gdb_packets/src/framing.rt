//! `framed`: makes a packet of a payload. It escapes bytes, and adds the checksum.
ghost use Rattle.std.specs.Prelude.{◌≡◌, [], ◌∷◌, ◌++◌, IfOk, OnOk};
ghost use Rattle.std.specs.List.{flat_map};
ghost use Rattle.gdb_packets.specs.Framing.{escape_of, first_digit, framed as frame_of, last_digit};

use crate::numbers::digit_of;
use crate::text::{ESCAPE, FLIP, sum_of};
use std::alloc::{AllocError, Global};

/// Adds a byte of the payload, escaped where it has to be.
fn push_escaped(out: &mut Vec<u8>, byte: u8) -> Result<(), AllocError>
    ensures { OnOk result (out.new.items ≡ out.old.items ++ escape_of byte) }
{
    match byte {
        b'#' | b'$' | b'*' | b'}' => out.extend_from_slice(&[ESCAPE, byte ^ FLIP]),
        _ => Ok(out.push(byte)?),
    }
}

/// The text of a payload, with its bytes escaped.
fn text_of(alloc: Global, payload: &[u8]) -> Result<Vec<u8>, AllocError>
    ensures { IfOk result (λ text. text.items ≡ flat_map escape_of payload.now) }
{
    let mut text = Vec::new(alloc);
    for byte in payload {
        push_escaped(&mut text, *byte)?;
    }
    Ok(text)
}

/// The two digits of a text's checksum.
fn digits_of(text: &[u8]) -> [u8; 2]
    ensures { result ≡ first_digit text.now ∷ last_digit text.now ∷ [] }
{
    let sum = sum_of(text);
    [digit_of(sum / 16), digit_of(sum % 16)]
}

/// The packet of a payload, as it is sent. Nothing in it is run-length encoded.
pub fn framed(alloc: Global, payload: &[u8]) -> Result<Vec<u8>, AllocError>
    ensures { IfOk result (λ packet. packet.items ≡ frame_of payload.now) }
{
    let text = text_of(alloc, payload)?;
    let mut packet = Vec::new(alloc);
    packet.push(b'$')?;
    packet.extend_from_slice(&text)?;
    packet.push(b'#')?;
    packet.extend_from_slice(&digits_of(&text))?;
    Ok(packet)
}

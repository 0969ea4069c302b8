//! The pieces that a stage writes.
ghost use Rattle.std.specs.Prelude.{◌≡◌, ◌≤◌, ◌<◌, ◌+◌, ◌^◌, ◌++◌, ◌∷◌, [], List, length, IfOk};
ghost use Rattle.std.specs.Int.{w32, to_le_bytes};
ghost use Rattle.disk_model.specs.Storage.{pieces, one_byte, selector};
ghost use Rattle.group_commit.specs.Stages.{items_of};

use byte_list::Bytes;
use disk_model::Piece;
use journal::selector_of;
use std::alloc::{AllocError, Global};

/// How many bytes a piece has; the last of a stage may have fewer.
const PIECE: usize = 4096;

/// What stands of a record after its gate: the length of its body, little-endian, the body, and the next gate, closed.
pub fn record_of(alloc: Global, body: &[u8]) -> Result<Vec<u8>, AllocError>
    requires { length body.now < 2 ^ 32 }
    ensures { IfOk result (λ v. v.items ≡ to_le_bytes w32 (length body.now) ++ body.now ++ 0 ∷ []) }
{
    let mut record = Vec::new(alloc);
    record.extend_from_slice(&(body.len() as u32).to_le_bytes())?;
    record.extend_from_slice(body)?;
    record.push(0)?;
    Ok(record)
}

/// The bytes from a place on as pieces of 4,096 bytes, the last shorter.
pub fn pieces_of(alloc: Global, at: u32, bytes: &[u8]) -> Result<Vec<Piece>, AllocError>
    requires { at + length bytes.now ≤ 2097152 }
    ensures { IfOk result (λ v. v.items ≡ pieces at bytes.now) }
{
    let mut pieces = Vec::new(alloc);
    let mut from = at;
    let mut rest = bytes;
    while !rest.is_empty() {
        let (prefix, after) = rest.split_at(rest.len().min(PIECE));
        let bytes = Bytes::copy_of(alloc, prefix)?;
        pieces.push(Piece { at: from, bytes })?;
        from += PIECE as u32;
        rest = after;
    }
    Ok(pieces)
}

/// The piece of one byte at a place.
pub fn byte_piece(alloc: Global, at: u32, byte: u8) -> Result<Vec<Piece>, AllocError>
    ensures { IfOk result (λ v. v.items ≡ one_byte at byte) }
{
    let bytes = Bytes::copy_of(alloc, &[byte])?;
    let mut pieces = Vec::new(alloc);
    pieces.push(Piece { at, bytes })?;
    Ok(pieces)
}

/// The pieces of a record of this body, but for its gate, which is at a place.
pub fn record_pieces(alloc: Global, gate: u32, body: &[u8]) -> Result<Vec<Piece>, AllocError>
    requires { gate + 6 + length body.now ≤ 2097152 }
    ensures { IfOk result (λ v. v.items ≡ pieces (gate + 1) (to_le_bytes w32 (length body.now) ++ body.now ++ 0 ∷ [])) }
{
    let record = record_of(alloc, body)?;
    pieces_of(alloc, gate + 1, &record)
}

/// The place of the gate after a record of this body, whose own gate is at a place.
pub fn gate_past(gate: u32, body: &[u8]) -> u32
    requires { gate + 5 + length body.now < 2 ^ 32 }
    ensures { result ≡ gate + 5 + length body.now }
{
    gate + 5 + body.len() as u32
}

/// The stages of a checkpoint after its first: its pieces, its gate at a place, and byte 0, which selects its half.
pub fn checkpoint_stages(
    alloc: Global,
    record: Vec<Piece>,
    gate: u32,
    half: bool,
) -> Result<Vec<Vec<Piece>>, AllocError>
    ensures { IfOk result (λ v. items_of v.items ≡ record.items ∷ one_byte gate 1 ∷ one_byte 0 (selector half) ∷ []) }
{
    let mut stages = Vec::new(alloc);
    stages.push(record)?;
    stages.push(byte_piece(alloc, gate, 1)?)?;
    stages.push(byte_piece(alloc, 0, selector_of(half))?)?;
    Ok(stages)
}

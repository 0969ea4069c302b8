//! Copies of writes.
ghost use Rattle.std.specs.Prelude.{◌≡◌, IfOk};

use kernel::Piece;
use std::alloc::{AllocError, Global};

/// The same pieces in memory of their own. Fails for want of memory alone.
pub(crate) fn copies_of(alloc: Global, pieces: &[Piece]) -> Result<Vec<Piece>, AllocError>
    ensures { IfOk result (λ copies. copies.items ≡ pieces.now) }
{
    let mut copies = Vec::new(alloc);
    for piece in pieces {
        let bytes = piece.bytes.try_clone(alloc)?;
        copies.push(Piece {
            at: piece.at,
            bytes,
        })?;
    }
    Ok(copies)
}

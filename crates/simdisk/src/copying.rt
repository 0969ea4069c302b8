//! Copies of a disk.
ghost use Rattle.std.specs.Prelude.{◌≡◌, IfOk};

use crate::disk::SimDisk;
use disk_model::Piece;
use std::alloc::{AllocError, Global};
use std::sync::Arc;

fn copy_of(alloc: Global, piece: &Piece) -> Result<Piece, AllocError>
    ensures { IfOk result (λ copy. copy ≡ piece.now) }
{
    Ok(Piece {
        at: piece.at,
        bytes: piece.bytes.try_clone(alloc)?,
    })
}

/// The same pieces, in memory of their own.
pub fn copies_of(alloc: Global, pieces: &[Piece]) -> Result<Vec<Piece>, AllocError>
    ensures { IfOk result (λ copies. copies.items ≡ pieces.now) }
{
    let mut copies = Vec::new(alloc);
    for piece in pieces {
        copies.push(copy_of(alloc, piece)?)?;
    }
    Ok(copies)
}

impl SimDisk {
    /// The bytes as completed writes left them, for others to read. It takes room for a copy of them, which is made at the next completion
    /// or crash if others still read them then. Where memory runs out the disk is as it was.
    pub fn share(&mut self) -> Result<Arc<Vec<u8>>, AllocError>
        ensures same { self.new ≡ self.old }
        ensures share { IfOk result (λ share. share.value.items ≡ self.old.disk) }
    {
        self.bytes.share(self.alloc)
    }

    /// The same disk, with the writes in flight and those that failed. Its 2 MiB are copied here, or where they are shared once a write
    /// to it or a crash changes them.
    pub fn try_clone(&self, alloc: Global) -> Result<SimDisk, AllocError>
        ensures { IfOk result (λ copy. copy ≡ self.now) }
    {
        Ok(SimDisk {
            alloc,
            bytes: self.bytes.try_clone(alloc)?,
            in_flight: copies_of(alloc, &self.in_flight)?,
            failed: copies_of(alloc, &self.failed)?,
        })
    }
}

//! `Recovered`: the files of a disk, and which of its bytes say so.
ghost use Rattle.std.specs.Prelude.{◌≡◌, ◌<◌, ◌+◌, false, length};

use crash_outcomes::Fill;
use disk_model::Piece;
use faults::Fault;
use files::FileTable;
use journal::{first_gate, half_of, open};
use kernel::SimDisk;
use std::alloc::{AllocError, Global};
use std::sync::Arc;

/// The files that recovery finds on a disk. It reads the first byte of the disk, which selects a half, and of that half the bytes from its
/// first gate to the first one that is not open. So a disk with the same bytes there has the same files, whatever the others are.
#[derive(Drop)]
pub struct Recovered {
    pub files: Arc<FileTable>,
    /// How many disks had been read before. Of one mirror, what has the same number has the same files.
    pub number: u64,
    /// Where the first gate of the half is.
    first: u32,
    /// Where the first gate is that is not open.
    gate: u32,
}

/// Whether a gate is open that has the first of these bytes.
fn opens(bytes: &[u8]) -> bool {
    bytes.first().copied() == Some(1)
}

impl Recovered {
    /// Reads a disk, before which so many were read.
    pub fn read(alloc: Global, device: &SimDisk, number: u64) -> Result<Recovered, Fault> {
        let (files, gate) = open(alloc, device)?;
        Ok(Recovered {
            files: Arc::new(alloc, files)?,
            number,
            first: first_gate(half_of(device.bytes()[0])),
            gate,
        })
    }

    /// The same, which shares the files.
    pub fn share(&self) -> Result<Recovered, AllocError> {
        Ok(Recovered {
            files: Arc::try_clone(&self.files)?,
            number: self.number,
            first: self.first,
            gate: self.gate,
        })
    }

    /// Whether recovery read a byte where a piece is to go. `crashes_elsewhere_leave_the_files` says what it means where it did not.
    fn reads(&self, piece: &Piece) -> bool
        ensures selector { result ≡ false → 0 < piece.now.at }
        ensures half { result ≡ false → self.now.first < piece.now.at + length piece.now.bytes → self.now.gate < piece.now.at }
    {
        let begin = piece.at as usize;
        let end = begin.saturating_add(piece.bytes.as_slice().len());
        begin == 0 || (begin <= self.gate as usize && (self.first as usize) < end)
    }

    /// Whether a piece is the last gate that was read, alone.
    fn is_gate(&self, piece: &Piece) -> bool {
        piece.at == self.gate && piece.bytes.as_slice().len() == 1
    }

    /// Whether a completed write leaves the files as they are: recovery reads none of its bytes.
    pub fn stays_with(&self, piece: &Piece) -> bool {
        !self.reads(piece)
    }

    /// Whether a completed write opens the gate, and does nothing else.
    pub fn is_opened_by(&self, piece: &Piece) -> bool {
        self.is_gate(piece) && opens(piece.bytes.as_slice())
    }

    /// Whether a crash with this fill leaves the files as they are, where these writes are in flight: recovery reads none of their bytes,
    /// or they are the gate alone, which gets another byte than 1, or the one that it has.
    pub fn stays_after(&self, writes: &[Piece], fill: Fill) -> bool {
        match writes {
            [piece] if self.is_gate(piece) => !opens(fill.bytes()),
            _ => writes.iter().all(|piece| self.stays_with(piece)),
        }
    }

    /// Whether a crash with this fill opens the gate, and does nothing else, where these writes are in flight.
    pub fn is_opened_after(&self, writes: &[Piece], fill: Fill) -> bool {
        match writes {
            [piece] => self.is_gate(piece) && opens(fill.bytes()),
            _ => false,
        }
    }
}

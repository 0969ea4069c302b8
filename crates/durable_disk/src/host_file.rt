//! `HostFile`: a file of the host that holds a disk.
ghost use Rattle.std.specs.Prelude.{◌≡◌, ℕ, List, Bool, is_ok};
ghost use Rattle.durable_disk.specs.FileRecords.{record_in, wrote, synced};

use crate::disk_file::{DiskFile, HostRefused};
use crate::file_notes::FileNotes;
use disk_model::Piece;
use std::fs::File;
use std::os::unix::fs::FileExt;

/// What a host does with an open file. Each call says whether the host did it.
pub trait HostCalls {
    // Relates the file before a write, the offset, the bytes, whether the host did it, and the file after it.
    ghost writes: { Self → ℕ → List ℕ → Bool → Self → Type 0 } = { λ _ _ _ _ _. Unit {0} };

    // Relates the file before a sync, whether the host did it, and the file after it.
    ghost syncs: { Self → Bool → Self → Type 0 } = { λ _ _ _. Unit {0} };

    /// Writes these bytes, from this offset on.
    fn put(&mut self, offset: u64, bytes: &[u8]) -> bool
        ensures { writes self.old offset bytes.now result self.new };

    /// Has the host keep what was written.
    fn keep(&mut self) -> bool
        ensures { syncs self.old result self.new };
}

// No contract of the standard library says what a host's file is asked.
impl HostCalls for File {
    fn put(&mut self, offset: u64, bytes: &[u8]) -> bool {
        self.write_all_at(bytes, offset).is_ok()
    }

    fn keep(&mut self) -> bool {
        self.sync_data().is_ok()
    }
}

/// An open file, with its record, which exists in proofs alone.
#[derive(Drop)]
pub struct PlacedFile<H> {
    host: H,
    notes: FileNotes,
}

/// An open file of the host.
pub type HostFile = PlacedFile<File>;

impl<H: HostCalls> PlacedFile<H> {
    /// This file, open for writing.
    pub fn new(host: H) -> PlacedFile<H> {
        PlacedFile {
            host,
            notes: FileNotes::none(),
        }
    }
}

impl<H: HostCalls> DiskFile for PlacedFile<H> {
    ghost record_of = { λ f. record_in f.notes };

    fn write(&mut self, piece: &Piece) -> Result<(), HostRefused>
        ensures noted { record_in self.new.notes ≡ wrote (record_in self.old.notes) piece.now (is_ok result) }
        ensures host { H.writes self.old.host piece.now.at piece.now.bytes (is_ok result) self.new.host }
    {
        let done = self.host.put(u64::from(piece.at), piece.bytes.as_slice());
        self.notes.note_write(piece, done);
        if done { Ok(()) } else { Err(HostRefused) }
    }

    fn sync(&mut self) -> Result<(), HostRefused>
        ensures noted { record_in self.new.notes ≡ synced (record_in self.old.notes) (is_ok result) }
        ensures host { H.syncs self.old.host (is_ok result) self.new.host }
    {
        let done = self.host.keep();
        self.notes.note_sync(done);
        if done { Ok(()) } else { Err(HostRefused) }
    }
}

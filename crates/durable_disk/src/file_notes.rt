//! `FileNotes`: the record of a file, as whoever implements `DiskFile` keeps it.
ghost use Rattle.std.specs.Prelude.{◌≡◌, []};
ghost use Rattle.durable_disk.specs.FileRecords.{record_in, wrote, synced};

use crate::disk_file::FileCall;
use disk_model::Piece;
use notes::Notes;

/// The calls of a file, and the pieces of its writes, which no code reads. They have no bytes and take no memory.
#[derive(Drop)]
pub struct FileNotes {
    calls: Notes<FileCall>,
    pieces: Notes<Piece>,
}

impl FileNotes {
    /// No call as yet.
    pub fn none() -> FileNotes {
        FileNotes {
            calls: Notes::new(),
            pieces: Notes::new(),
        }
    }

    /// Notes a write of this piece, and whether the host did it.
    pub fn note_write(&mut self, piece: &Piece, is_done: bool)
        ensures { record_in self.new ≡ wrote (record_in self.old) piece.now is_done }
    {
        self.calls = self.calls.and(&FileCall::Write(is_done));
        self.pieces = self.pieces.and(piece);
    }

    /// Notes a sync, and whether the host did it.
    pub fn note_sync(&mut self, is_done: bool)
        ensures { record_in self.new ≡ synced (record_in self.old) is_done }
    {
        self.calls = self.calls.and(&FileCall::Sync(is_done));
    }
}

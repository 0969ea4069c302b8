//! `DiskFile`: a file that holds a disk, whatever the host gives.
ghost use Rattle.std.specs.Prelude.{◌≡◌, is_ok};
ghost use Rattle.durable_disk.specs.FileRecords.{FileRecord, wrote, synced};

use disk_model::Piece;
use thiserror::Error;

/// The host did not do a call. After a write any bytes may stand in its range, and after a sync in the range of each write that was
/// not synced before.
#[derive(Clone, Copy, Debug, PartialEq, Eq, Error)]
#[error("the host refused a call of a file")]
pub struct HostRefused;

/// A call of a file, and whether the host did it.
#[derive(Clone, Copy)]
pub enum FileCall {
    Write(bool),
    Sync(bool),
}

/// A file in which a disk stands, with a record that exists in proofs alone: its calls, in order, and the piece of each write.
pub trait DiskFile {
    ghost record_of: { Self → FileRecord };

    /// Writes the bytes of a piece over those from its place on.
    fn write(&mut self, piece: &Piece) -> Result<(), HostRefused>
        ensures noted { record_of self.new ≡ wrote (record_of self.old) piece.now (is_ok result) };

    /// Has the host keep, whatever happens to it, all that was written.
    fn sync(&mut self) -> Result<(), HostRefused>
        ensures noted { record_of self.new ≡ synced (record_of self.old) (is_ok result) };
}

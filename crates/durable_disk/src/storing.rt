//! `store`: stores the writes of a stage in a file.
ghost use Rattle.durable_disk.specs.Stages.{IsAsked};

use crate::disk_file::DiskFile;
use disk_model::Piece;

/// Writes each piece at its place, in order, and then syncs once. It stops at the first call that the host refuses. Says whether the
/// host did all of them: only then does the file hold the pieces.
#[tactic(auto, using(crate::proofs::RecordSteps::begins, crate::proofs::RecordSteps::ends))]
pub fn store<F: DiskFile>(file: &mut F, pieces: &[Piece]) -> bool
    ensures { IsAsked result pieces.now (F.record_of file.old) (F.record_of file.new) }
{
    for piece in pieces {
        if file.write(piece).is_err() {
            return false;
        }
    }
    file.sync().is_ok()
}

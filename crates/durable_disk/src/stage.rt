//! `commit_stage`: stores the writes in flight in a file, and then tells the core.
ghost use Rattle.std.specs.Prelude.{◌≡◌};
ghost use Rattle.durable_disk.specs.Stages.{staging, CommitsStage};

use crate::completions::Completions;
use crate::disk_file::DiskFile;
use crate::report::report;
use crate::staged_core::StagedCore;
use crate::storing::store;

/// Stores the writes in flight in the file, and then tells the core what came of each. They are complete only where the host did
/// all: then the file holds them. Where it refused a call they have failed, and else only the one that is to fail. Says whether any
/// were in flight. A refusal is the core's: for want of memory, before anything is written, or the first of what it is told.
#[tactic(auto, using(crate::proofs::StageEnds::idle, crate::proofs::StageEnds::unasked, crate::proofs::StageEnds::committed, crate::proofs::StageEnds::stopped))]
pub fn commit_stage<C: StagedCore, F: DiskFile>(
    core: &mut C,
    file: &mut F,
    completions: &mut Completions,
) -> Result<bool, C::Refusal>
    ensures { CommitsStage C.submitted (staging (C.calls_of core.old) (F.record_of file.old) completions.old) (staging (C.calls_of core.new) (F.record_of file.new) completions.new) result }
{
    let pieces = core.stage()?;
    if pieces.is_empty() {
        return Ok(false);
    }
    let is_stored = store(file, pieces.as_slice());
    report(core, pieces.as_slice(), is_stored, completions)?;
    Ok(true)
}

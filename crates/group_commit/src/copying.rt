//! Copies of a committer.
ghost use Rattle.std.specs.Prelude.{◌≡◌, IfOk};
ghost use Rattle.group_commit.specs.Stages.{items_of};

use crate::committer::Committer;
use disk_model::Piece;
use simdisk::copies_of;
use std::alloc::{AllocError, Global};

fn stages_of(alloc: Global, stages: &[Vec<Piece>]) -> Result<Vec<Vec<Piece>>, AllocError>
    ensures { IfOk result (λ copies. items_of copies.items ≡ items_of stages.now) }
{
    let mut copies = Vec::new(alloc);
    for stage in stages {
        copies.push(copies_of(alloc, stage)?)?;
    }
    Ok(copies)
}

impl Committer {
    /// The same committer, with a group that is on its way, over a copy of the device (`SimDisk::try_clone`).
    pub fn try_clone(&self, alloc: Global) -> Result<Committer, AllocError>
        ensures { IfOk result (λ copy. copy ≡ self.now) }
    {
        Ok(Committer {
            device: self.device.try_clone(alloc)?,
            stages: stages_of(alloc, &self.stages)?,
            half: self.half,
            gate: self.gate,
            committed: self.committed,
            next_half: self.next_half,
            next_gate: self.next_gate,
            next_committed: self.next_committed,
        })
    }
}

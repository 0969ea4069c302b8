//! A put that begins.
ghost use Rattle.std.specs.Prelude.{◌≡◌, true, IfOk};
ghost use Rattle.disk_model.specs.Files.{IsName};
ghost use Rattle.disk_model.specs.Storage.{is_quiet};
ghost use Rattle.disk_files.specs.Putting.{IsPut, writes_left};

use crate::edit::changes_putting;
use disk_model::held_files_are_made;
use faults::Fault;
use files::FileTable;
use group_commit::Committer;
use simdisk::SimDisk;
use std::alloc::Global;

/// Begins to put a file of this name and these bytes on a disk, as one group of changes. Gives what commits them, and how many writes
/// that takes.
pub fn begin_put(
    alloc: Global,
    device: SimDisk,
    name: &[u8],
    bytes: &[u8],
) -> Result<(Committer, u64), Fault>
    requires name { IsName name.now }
    requires quiet { is_quiet device ≡ true }
    ensures put { IfOk result (λ begun. IsPut device.disk name.now bytes.now begun.0) }
    ensures writes { IfOk result (λ begun. begun.1 ≡ writes_left begun.0) }
{
    held_files_are_made();
    let (table, gate) = journal::open(alloc, &device)?;
    let mut files = table.list().try_clone()?;
    let changes = changes_putting(alloc, &mut files, name, bytes)?;
    let files = FileTable::numbered(alloc, files)?;
    let mut committer = Committer::new(alloc, device, gate);
    match committer.cut(alloc, changes.as_slice(), &files) {
        Ok((_changes, writes)) => Ok((committer, writes)),
        // A disk on which nothing is in flight refuses few changes only if memory runs out.
        Err(_) => Err(Fault::OutOfMemory),
    }
}

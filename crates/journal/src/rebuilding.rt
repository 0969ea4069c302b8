//! The changes of a checkpoint.
ghost use Rattle.std.specs.Prelude.{◌≡◌, ◌≤◌, ◌++◌, List, length, IfOk, OnOk};
ghost use Rattle.std.specs.List.{AllByRecursion};
ghost use Rattle.disk_model.specs.declared.change.NamedFile.{NamedFile};
ghost use Rattle.disk_model.specs.Limits.{most_files, longest_file, longest_file_write};
ghost use Rattle.disk_model.specs.Rebuild.{rebuild as checkpoint_changes, writes_from};

use byte_list::Bytes;
use disk_model::{Change, LONGEST_FILE_WRITE};
use files::FileTable;
use std::alloc::{AllocError, Global};

fn push_writes(
    alloc: Global,
    changes: &mut Vec<Change>,
    file: u16,
    bytes: &[u8],
) -> Result<(), AllocError>
    requires { length bytes.now ≤ longest_file }
    ensures { OnOk result (changes.new.items ≡ changes.old.items ++ writes_from (length bytes.now) longest_file_write file 0 bytes.now) }
{
    let mut offset = 0u32;
    let mut rest = bytes;
    while !rest.is_empty() {
        let (prefix, after) = rest.split_at(rest.len().min(LONGEST_FILE_WRITE as usize));
        let bytes = Bytes::copy_of(alloc, prefix)?;
        changes.push(Change::Write {
            file,
            offset,
            bytes,
        })?;
        offset += LONGEST_FILE_WRITE;
        rest = after;
    }
    Ok(())
}

/// The changes that make the living files from nothing, as a checkpoint has them. Each file in order is created, and then written
/// 1,024 bytes at a time, the last write shorter. The changes name a file by its place, and keep nothing of its number.
pub fn rebuild(alloc: Global, files: &FileTable) -> Result<Vec<Change>, AllocError>
    requires few { length files.now.living ≤ most_files }
    requires short { AllByRecursion (λ (f : NamedFile). length f.bytes ≤ longest_file) files.now.living }
    ensures { IfOk result (λ v. v.items ≡ checkpoint_changes files.now.living) }
{
    let mut changes = Vec::new(alloc);
    for place in 0..files.count() {
        let name = Bytes::copy_of(alloc, files.name(place))?;
        changes.push(Change::Create(name))?;
        push_writes(alloc, &mut changes, place as u16, files.bytes(place))?;
    }
    Ok(changes)
}

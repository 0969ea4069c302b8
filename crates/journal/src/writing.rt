//! The spelling of changes: their bytes in a record's body.
ghost use Rattle.std.specs.Prelude.{◌≡◌, ◌<◌, ◌≤◌, ◌++◌, ◌∷◌, List, length, IfOk, OnOk};
ghost use Rattle.std.specs.Int.{w16, w32, to_le_bytes};
ghost use Rattle.std.specs.List.{AllByRecursion};
ghost use Rattle.disk_model.specs.Limits.{longest_file_write};
ghost use Rattle.disk_model.specs.Files.{IsFormed};
ghost use Rattle.disk_model.specs.Spelling.{spelling, body_of as body};

use disk_model::Change;
use std::alloc::{AllocError, Global};

/// Appends a name after its length, which is one byte.
fn push_name(out: &mut Vec<u8>, name: &[u8]) -> Result<(), AllocError>
    requires { length name.now < 256 }
    ensures { OnOk result (out.new.items ≡ out.old.items ++ length name.now ∷ name.now) }
{
    out.push(name.len() as u8)?;
    out.extend_from_slice(name)
}

/// Appends the kind of a change, one byte, and the place of its file, two bytes.
fn push_place(out: &mut Vec<u8>, kind: u8, file: u16) -> Result<(), AllocError>
    ensures { OnOk result (out.new.items ≡ out.old.items ++ kind ∷ to_le_bytes w16 file) }
{
    out.push(kind)?;
    out.extend_from_slice(&file.to_le_bytes())
}

/// Appends an offset of four bytes, and bytes after their length, two bytes.
fn push_bytes(out: &mut Vec<u8>, offset: u32, bytes: &[u8]) -> Result<(), AllocError>
    requires { length bytes.now ≤ longest_file_write }
    ensures { OnOk result (out.new.items
        ≡ out.old.items ++ to_le_bytes w32 offset ++ to_le_bytes w16 (length bytes.now) ++ bytes.now) }
{
    out.extend_from_slice(&offset.to_le_bytes())?;
    out.extend_from_slice(&(bytes.len() as u16).to_le_bytes())?;
    out.extend_from_slice(bytes)
}

/// Appends the bytes of a change: its kind, and then its fields, numbers little-endian.
fn push_change(out: &mut Vec<u8>, change: &Change) -> Result<(), AllocError>
    requires { IsFormed change.now }
    ensures { OnOk result (out.new.items ≡ out.old.items ++ spelling change.now) }
{
    match change {
        Change::Create(name) => {
            out.push(1)?;
            push_name(out, name.as_slice())
        }
        Change::Write {
            file,
            offset,
            bytes,
        } => {
            push_place(out, 2, *file)?;
            push_bytes(out, *offset, bytes.as_slice())
        }
        Change::Empty(file) => push_place(out, 3, *file),
        Change::Remove(file) => push_place(out, 4, *file),
        Change::Rename { file, name } => {
            push_place(out, 5, *file)?;
            push_name(out, name.as_slice())
        }
    }
}

/// The body of a record: the bytes of these changes, one after the other. Recovery reads none but formed changes again.
pub fn body_of(alloc: Global, changes: &[Change]) -> Result<Vec<u8>, AllocError>
    requires { AllByRecursion IsFormed changes.now }
    ensures { IfOk result (λ v. v.items ≡ body changes.now) }
{
    let mut out = Vec::new(alloc);
    for change in changes {
        push_change(&mut out, change)?;
    }
    Ok(out)
}

//! The row of rename.
ghost use Rattle.std.specs.Prelude.{◌+◌, IfOk, Some};
ghost use Rattle.kernel_model.specs.Limits.{AreNumbered};
ghost use Rattle.kernel_model.specs.Requests.{longest_names};
ghost use Rattle.kernel_model.specs.Rows.{directory, rename_file, rename_named, rename_to, row_rename};
ghost use Rattle.kernel_model.specs.Wholes.{AreWhole};
ghost use Rattle.calls.specs.Plans.{IsRow};

use crate::errno::Errno;
use crate::names::{is_bad_length, is_name, number_named};
use crate::row::CallRow;
use byte_list::Bytes;
use files::FileTable;
use kernel_model::{Carrier, FileEdit};
use std::alloc::{AllocError, Global};

/// A rename of a name of n bytes to one of m bytes, which come after each other: the tests in their order.
pub fn rename(
    alloc: Global,
    files: &FileTable,
    n: u32,
    m: u32,
    names: Option<Bytes>,
) -> Result<CallRow, AllocError>
    requires numbered { AreNumbered files.now }
    requires whole { AreWhole longest_names (n + m) names }
    ensures { IfOk result (λ row. IsRow row (row_rename (directory files.now) n m names)) }
{
    if is_bad_length(n) || is_bad_length(m) {
        return Ok(CallRow::failure(alloc, Errno::BadArgument));
    }
    let Some(names) = names else {
        return Ok(CallRow::failure(alloc, Errno::BadAddress));
    };
    let (old, new) = names.as_slice().split_at(n as usize);
    rename_named(alloc, files, old, new)
}

fn rename_named(
    alloc: Global,
    files: &FileTable,
    old: &[u8],
    new: &[u8],
) -> Result<CallRow, AllocError>
    requires { AreNumbered files.now }
    ensures { IfOk result (λ row. IsRow row (rename_named (directory files.now) old.now new.now)) }
{
    if !(is_name(old) && is_name(new)) {
        return Ok(CallRow::failure(alloc, Errno::BadArgument));
    }
    match number_named(files, old) {
        Some(file) => rename_file(alloc, files, file, old, new),
        None => CallRow::failure(alloc, Errno::NoSuchFile).reading(Carrier::Names),
    }
}

/// A rename of this file, which has the old name, to a new one; nothing changes where the two are equal.
fn rename_file(
    alloc: Global,
    files: &FileTable,
    file: u64,
    old: &[u8],
    new: &[u8],
) -> Result<CallRow, AllocError>
    requires { AreNumbered files.now }
    ensures { IfOk result
        (λ row. IsRow row (rename_file (directory files.now) old.now new.now (Some file))) }
{
    if old == new {
        return CallRow::number(alloc, 0).reading(Carrier::Names);
    }
    rename_to(
        alloc,
        file,
        Bytes::copy_of(alloc, new)?,
        number_named(files, new),
    )
}

/// A rename of this file to a new name, which another file may have: that one loses it.
fn rename_to(
    alloc: Global,
    file: u64,
    new: Bytes,
    loser: Option<u64>,
) -> Result<CallRow, AllocError>
    ensures { IfOk result (λ row. IsRow row (rename_to file new loser)) }
{
    let row = CallRow::number(alloc, 0)
        .editing(FileEdit::Rename { file, name: new })
        .updating_all(&[Carrier::Names, Carrier::File(file)])?;
    match loser {
        Some(loser) => row.updating(Carrier::File(loser)),
        None => Ok(row),
    }
}

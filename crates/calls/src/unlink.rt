//! The row of unlink.
ghost use Rattle.std.specs.Prelude.{IfOk};
ghost use Rattle.kernel_model.specs.Limits.{AreNumbered};
ghost use Rattle.kernel_model.specs.Rows.{directory, row_unlink, unlink_file};
ghost use Rattle.calls.specs.Plans.{IsRow};

use crate::errno::Errno;
use crate::names::{is_bad_length, is_name, number_named};
use crate::row::CallRow;
use byte_list::Bytes;
use files::FileTable;
use kernel_model::{Carrier, FileEdit};
use std::alloc::{AllocError, Global};

/// An unlink of a name of n bytes: the tests in their order.
pub fn unlink(
    alloc: Global,
    files: &FileTable,
    n: u32,
    name: Option<Bytes>,
) -> Result<CallRow, AllocError>
    requires { AreNumbered files.now }
    ensures { IfOk result (λ row. IsRow row (row_unlink (directory files.now) n name)) }
{
    if is_bad_length(n) {
        return Ok(CallRow::failure(alloc, Errno::BadArgument));
    }
    let Some(name) = name else {
        return Ok(CallRow::failure(alloc, Errno::BadAddress));
    };
    if !is_name(name.as_slice()) {
        return Ok(CallRow::failure(alloc, Errno::BadArgument));
    }
    unlink_file(alloc, number_named(files, name.as_slice()))
}

fn unlink_file(alloc: Global, file: Option<u64>) -> Result<CallRow, AllocError>
    ensures { IfOk result (λ row. IsRow row (unlink_file file)) }
{
    match file {
        Some(file) => {
            CallRow::number(alloc, 0)
                .editing(FileEdit::Remove(file))
                .updating_all(&[Carrier::Names, Carrier::File(file)])
        }
        None => CallRow::failure(alloc, Errno::NoSuchFile).reading(Carrier::Names),
    }
}

//! The row of exec.
ghost use Rattle.std.specs.Prelude.{◌≡◌, option_map, IfOk};
ghost use Rattle.disk_model.specs.Numbers.{file_of};
ghost use Rattle.image_model.specs.Checks.{first_fault};
ghost use Rattle.kernel_model.specs.Limits.{AreNumbered};
ghost use Rattle.kernel_model.specs.Rows.{exec_file, exec_image, row_exec};
ghost use Rattle.calls.specs.Plans.{IsRow};

use crate::errno::Errno;
use crate::names::{is_bad_length, is_name, number_named};
use crate::row::CallRow;
use crate::verdict::with_image;
use byte_list::Bytes;
use elf32::{ElfFault, parse};
use files::FileTable;
use kernel_model::Carrier;
use machine_model::Image;
use std::alloc::{AllocError, Global};

/// An exec of the file of a name of n bytes: the tests in their order.
pub fn exec(
    alloc: Global,
    files: &FileTable,
    n: u32,
    name: Option<Bytes>,
) -> Result<CallRow, AllocError>
    requires { AreNumbered files.now }
    ensures { IfOk result (λ row. IsRow row (row_exec files.now n name)) }
{
    if is_bad_length(n) {
        return Ok(CallRow::failure(alloc, Errno::BadArgument));
    }
    let Some(name) = name else {
        return Ok(CallRow::failure(alloc, Errno::BadAddress));
    };
    if !is_name(name.as_slice()) {
        return Ok(CallRow::failure(alloc, Errno::BadArgument));
    }
    exec_file(alloc, files, number_named(files, name.as_slice()))
}

/// The bytes of the file of this number; None where it does not live.
fn bytes_of_file(files: &FileTable, file: u64) -> Option<&[u8]>
    ensures { option_map (λ bytes. bytes.now) result ≡ option_map (λ f. f.bytes) (file_of files.now file) }
{
    let place = files.place(file)?;
    Some(files.bytes(place))
}

fn exec_file(alloc: Global, files: &FileTable, file: Option<u64>) -> Result<CallRow, AllocError>
    ensures { IfOk result (λ row. IsRow row (exec_file files.now file)) }
{
    let Some(file) = file else {
        return CallRow::failure(alloc, Errno::NoSuchFile).reading(Carrier::Names);
    };
    let Some(bytes) = bytes_of_file(files, file) else {
        return CallRow::failure(alloc, Errno::NoSuchFile).reading(Carrier::Names);
    };
    exec_image(alloc, file, bytes)
}

/// An exec of the file of this number and these bytes. Memory is wanted for an image only where the bytes are one.
fn exec_image(alloc: Global, file: u64, bytes: &[u8]) -> Result<CallRow, AllocError>
    ensures { IfOk result (λ row. IsRow row (exec_image file bytes.now (first_fault bytes.now))) }
{
    let row = match parse(alloc, bytes) {
        Ok(image) => CallRow::only(alloc, with_image(alloc, image)?),
        Err(ElfFault::OutOfMemory) => return Err(AllocError),
        Err(_) => CallRow::failure(alloc, Errno::NotAnImage),
    };
    row.reading(Carrier::Names)?.reading(Carrier::File(file))
}

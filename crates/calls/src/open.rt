//! The row of open.
ghost use Rattle.std.specs.Prelude.{◌<◌, ◌==◌, IfOk};
ghost use Rattle.kernel_model.specs.Limits.{AreNumbered};
ghost use Rattle.kernel_model.specs.Rows.{directory, only, number, opened, open_emptied, open_there, open_new, open_made, open_free, row_open};
ghost use Rattle.calls.specs.Plans.{IsRow};

use crate::errno::Errno;
use crate::names::{is_bad_length, is_name, number_named};
use crate::row::CallRow;
use byte_list::Bytes;
use disk_model::MOST_FILES;
use files::FileTable;
use kernel_model::{Carrier, Descriptor, FileEdit};
use processes::Descriptors;
use std::alloc::{AllocError, Global};

/// An open of a name of n bytes by a mode: the tests in their order, then by mode and by whether the file is there.
pub fn open(
    alloc: Global,
    files: &FileTable,
    descriptors: &Descriptors,
    n: u32,
    mode: u32,
    name: Option<Bytes>,
) -> Result<CallRow, AllocError>
    requires { AreNumbered files.now }
    ensures { IfOk result
        (λ row. IsRow row (row_open (directory files.now) descriptors.now n mode name)) }
{
    if mode > 2 || is_bad_length(n) {
        return Ok(CallRow::failure(alloc, Errno::BadArgument));
    }
    let Some(name) = name else {
        return Ok(CallRow::failure(alloc, Errno::BadAddress));
    };
    if !is_name(name.as_slice()) {
        return Ok(CallRow::failure(alloc, Errno::BadArgument));
    }
    match descriptors.free() {
        None => Ok(CallRow::failure(alloc, Errno::TooManyDescriptors)),
        Some(fd) => open_free(alloc, files, fd, mode, name),
    }
}

/// An open of a good name by a free descriptor.
fn open_free(
    alloc: Global,
    files: &FileTable,
    fd: usize,
    mode: u32,
    name: Bytes,
) -> Result<CallRow, AllocError>
    requires files { AreNumbered files.now }
    requires fd { fd < 16 }
    ensures { IfOk result
        (λ row. IsRow row (open_free (directory files.now) (Some fd) mode name)) }
{
    match number_named(files, name.as_slice()) {
        Some(file) => {
            if mode == 2 {
                open_emptied(alloc, fd, file)
            } else {
                open_there(alloc, fd, file, mode == 1)
            }
        }
        None if mode == 2 => open_made(alloc, files, fd, name),
        None => CallRow::failure(alloc, Errno::NoSuchFile).reading(Carrier::Names),
    }
}

/// A reply of a descriptor that stands for the start of a file.
fn opened(alloc: Global, fd: usize, file: u64, writes: bool) -> Result<CallRow, AllocError>
    requires { fd < 16 }
    ensures { IfOk result
        (λ row. IsRow row (record (only (number fd)) { slots = opened fd file writes })) }
{
    let holds = Descriptor::File {
        file,
        offset: 0,
        writes,
    };
    CallRow::number(alloc, fd as u32).setting(fd, Some(holds))
}

/// A file that is there is opened as it stands.
fn open_there(alloc: Global, fd: usize, file: u64, writes: bool) -> Result<CallRow, AllocError>
    requires { fd < 16 }
    ensures { IfOk result (λ row. IsRow row (open_there fd file writes)) }
{
    opened(alloc, fd, file, writes)?.reading(Carrier::Names)
}

/// A file that is there is emptied, and opened to be written.
fn open_emptied(alloc: Global, fd: usize, file: u64) -> Result<CallRow, AllocError>
    requires { fd < 16 }
    ensures { IfOk result (λ row. IsRow row (open_emptied fd file)) }
{
    opened(alloc, fd, file, true)?
        .editing(FileEdit::Empty(file))
        .reading(Carrier::Names)?
        .updating(Carrier::File(file))
}

/// A new file, the next by number, is opened to be written, where there is room for one.
fn open_made(
    alloc: Global,
    files: &FileTable,
    fd: usize,
    name: Bytes,
) -> Result<CallRow, AllocError>
    requires { fd < 16 }
    ensures { IfOk result (λ row. IsRow row (open_made (directory files.now) fd name)) }
{
    if files.count() >= MOST_FILES {
        return CallRow::failure(alloc, Errno::TableFull).updating(Carrier::Names);
    }
    open_new(alloc, fd, files.made(), name)
}

/// A new file of this number is opened to be written.
fn open_new(alloc: Global, fd: usize, file: u64, name: Bytes) -> Result<CallRow, AllocError>
    requires { fd < 16 }
    ensures { IfOk result (λ row. IsRow row (open_new fd file name)) }
{
    opened(alloc, fd, file, true)?
        .editing(FileEdit::Create(name))
        .updating_all(&[Carrier::Names, Carrier::File(file)])
}

//! The row of seek.
ghost use Rattle.std.specs.Prelude.{IfOk};
ghost use Rattle.kernel_model.specs.Rows.{descriptor_at, row_seek, seek_to};
ghost use Rattle.calls.specs.Plans.{IsRow};

use crate::errno::Errno;
use crate::row::CallRow;
use disk_model::LONGEST_FILE;
use files::FileTable;
use kernel_model::Descriptor;
use processes::Descriptors;
use std::alloc::{AllocError, Global};

/// A seek to an offset through a descriptor.
pub fn seek(
    alloc: Global,
    files: &FileTable,
    descriptors: &Descriptors,
    fd: u32,
    offset: u32,
) -> Result<CallRow, AllocError>
    ensures { IfOk result
        (λ row. IsRow row (row_seek files.now (descriptor_at descriptors.now fd) fd offset)) }
{
    let held = descriptors.get(fd);
    seek_to(alloc, files, held, fd as usize, offset)?.looking_at(held)
}

/// A seek to an offset, by what the descriptor stands for: the tests in their order.
fn seek_to(
    alloc: Global,
    files: &FileTable,
    held: Option<Descriptor>,
    fd: usize,
    offset: u32,
) -> Result<CallRow, AllocError>
    ensures { IfOk result (λ row. IsRow row (seek_to files.now held fd offset)) }
{
    let Some(Descriptor::File { file, writes, .. }) = held else {
        return Ok(CallRow::failure(alloc, Errno::BadDescriptor));
    };
    if !files.alive(file) {
        return Ok(CallRow::failure(alloc, Errno::BadDescriptor));
    }
    if offset > LONGEST_FILE {
        return Ok(CallRow::failure(alloc, Errno::BadArgument));
    }
    let holds = Descriptor::File {
        file,
        offset,
        writes,
    };
    CallRow::number(alloc, offset).setting(fd, Some(holds))
}

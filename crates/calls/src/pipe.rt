//! The row of pipe.
ghost use Rattle.std.specs.Prelude.{◌≡◌, ◌<◌, ◌++◌, length, IfOk};
ghost use Rattle.std.specs.Int.{w32, to_le_bytes};
ghost use Rattle.kernel_model.specs.Rows.{pipe_made, row_pipe};
ghost use Rattle.calls.specs.Plans.{IsRow};

use crate::errno::Errno;
use crate::row::CallRow;
use crate::verdict::with_bytes;
use byte_list::Bytes;
use kernel_model::{Carrier, Descriptor, PipeEnd, PipeStep};
use pipes::{MOST_PIPES, PipeTable};
use processes::Descriptors;
use std::alloc::{AllocError, Global};

/// A pipe, whose descriptors are written to a place that may be too small for them.
pub fn pipe(
    alloc: Global,
    pipes: &PipeTable,
    descriptors: &Descriptors,
    at: u32,
    fits: bool,
) -> Result<CallRow, AllocError>
    ensures { IfOk result
        (λ row. IsRow row (row_pipe (length pipes.now) descriptors.now at fits)) }
{
    if !fits {
        return Ok(CallRow::failure(alloc, Errno::BadAddress));
    }
    let Some(reader) = descriptors.free() else {
        return Ok(CallRow::failure(alloc, Errno::TooManyDescriptors));
    };
    let Some(writer) = descriptors.free_after(reader) else {
        return Ok(CallRow::failure(alloc, Errno::TooManyDescriptors));
    };
    let count = pipes.len();
    if count >= MOST_PIPES {
        return CallRow::failure(alloc, Errno::TableFull).updating(Carrier::Pipes);
    }
    pipe_made(alloc, count as u32, at, reader, writer)
}

/// Two words as bytes, each with its low byte first.
fn pair_of(alloc: Global, first: u32, second: u32) -> Result<Bytes, AllocError>
    ensures { IfOk result
        (λ bytes. bytes ≡ to_le_bytes w32 first ++ to_le_bytes w32 second) }
{
    let mut bytes = Vec::new(alloc);
    bytes.extend_from_slice(&first.to_le_bytes())?;
    bytes.extend_from_slice(&second.to_le_bytes())?;
    Ok(Bytes::new(bytes))
}

/// A new pipe, the next by number, with two descriptors for its ends.
fn pipe_made(
    alloc: Global,
    pipe: u32,
    at: u32,
    reader: usize,
    writer: usize,
) -> Result<CallRow, AllocError>
    requires reader { reader < 16 }
    requires writer { writer < 16 }
    ensures { IfOk result (λ row. IsRow row (pipe_made pipe at reader writer)) }
{
    let words = pair_of(alloc, reader as u32, writer as u32)?;
    let told = with_bytes(alloc, 0, at, words)?;
    CallRow::only(alloc, told)
        .updating_all(&[Carrier::Pipes, Carrier::Pipe(pipe)])?
        .stepping(PipeStep::Open)?
        .setting(reader, Some(Descriptor::Pipe(PipeEnd::Read(pipe))))?
        .setting(writer, Some(Descriptor::Pipe(PipeEnd::Write(pipe))))
}

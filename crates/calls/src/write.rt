//! The row of write.
ghost use Rattle.std.specs.Prelude.{◌≡◌, ◌≤◌, ◌<◌, ◌+◌, ◌==◌, nat_lt, not, [], Some, length, slice_get, map, IfOk, IfSome, if◌then◌else◌};
ghost use Rattle.std.specs.List.{AllByRecursion};
ghost use Rattle.disk_model.specs.Limits.{longest_file};
ghost use Rattle.kernel_model.specs.Requests.{most_bytes};
ghost use Rattle.kernel_model.specs.Rows.{only, number, failure, bad_descriptor, bad_argument, descriptor_at, may_write, write_file, put_some, write_pipe, write_to, write_read, row_write};
ghost use Rattle.kernel_model.specs.Wholes.{AreWhole};
ghost use Rattle.calls.specs.Plans.{IsRow, CarriesBytes};
ghost use Rattle.calls.specs.Shares.{pipe_of, things};

use crate::ends::on_pipe;
use crate::errno::Errno;
use crate::row::CallRow;
use crate::tables::KernelTables;
use crate::verdict::number;
use byte_list::Bytes;
use disk_model::LONGEST_FILE;
use files::{FileTable, part_of};
use kernel_model::{Carrier, Descriptor, FileEdit, MOST_BYTES, Output, PipeEnd, PipeStep, Verdict};
use pipes::{Pipe, PipeTable};
use processes::Descriptors;
use std::alloc::{AllocError, Global};

fn may_write(files: &FileTable, descriptor: Option<Descriptor>) -> bool
    ensures { result ≡ may_write files.now descriptor }
{
    match descriptor {
        Some(Descriptor::Terminal(_)) => true,
        Some(Descriptor::File { file, writes, .. }) => writes && files.alive(file),
        Some(Descriptor::Pipe(end)) => matches!(end, PipeEnd::Write(_)),
        Some(Descriptor::Tape(_)) | None => false,
    }
}

fn count(bytes: &[u8]) -> u32
    requires { length bytes.now ≤ most_bytes }
    ensures count { result ≡ length bytes.now }
    ensures bytes { AllByRecursion (λ b. b < 256) bytes.now }
{
    bytes.len() as u32
}

/// A write of n bytes through a descriptor.
pub fn write(
    alloc: Global,
    tables: &KernelTables,
    descriptors: &Descriptors,
    fd: u32,
    n: u32,
    bytes: Option<Bytes>,
) -> Result<CallRow, AllocError>
    requires { AreWhole most_bytes n bytes }
    ensures row { IfOk result
        (λ row. IsRow row
        (row_write (things tables.now.files.now tables.now.pipes.now []) (descriptor_at descriptors.now fd) fd n bytes)) }
    ensures carries { IfOk result (λ row. IfSome row.edit CarriesBytes) }
{
    let to = descriptors.get(fd);
    write_tested(alloc, tables, to, fd as usize, n, bytes)?.looking_at(to)
}

/// A write of n bytes by what the descriptor stands for: the tests in their order.
fn write_tested(
    alloc: Global,
    tables: &KernelTables,
    to: Option<Descriptor>,
    fd: usize,
    n: u32,
    bytes: Option<Bytes>,
) -> Result<CallRow, AllocError>
    requires { AreWhole most_bytes n bytes }
    ensures row { IfOk result (λ row. IsRow row (
        if not (may_write tables.now.files.now to) then failure bad_descriptor
        else if nat_lt most_bytes n then failure bad_argument
        else if n == 0 then only (number 0)
        else write_read (things tables.now.files.now tables.now.pipes.now []) to fd bytes)) }
    ensures carries { IfOk result (λ row. IfSome row.edit CarriesBytes) }
{
    if !may_write(tables.files, to) {
        return Ok(CallRow::failure(alloc, Errno::BadDescriptor));
    }
    if n > MOST_BYTES {
        return Ok(CallRow::failure(alloc, Errno::BadArgument));
    }
    if n == 0 {
        return Ok(CallRow::number(alloc, 0));
    }
    match bytes {
        None => Ok(CallRow::failure(alloc, Errno::BadAddress)),
        Some(bytes) => write_to(alloc, tables, to, fd, bytes),
    }
}

/// A write of these bytes, by what the descriptor stands for.
fn write_to(
    alloc: Global,
    tables: &KernelTables,
    to: Option<Descriptor>,
    fd: usize,
    bytes: Bytes,
) -> Result<CallRow, AllocError>
    requires { length bytes ≤ most_bytes }
    ensures row { IfOk result
        (λ row. IsRow row (write_to (things tables.now.files.now tables.now.pipes.now []) to fd bytes)) }
    ensures carries { IfOk result (λ row. IfSome row.edit CarriesBytes) }
{
    match to {
        Some(Descriptor::Terminal(terminal)) => write_terminal(alloc, terminal, bytes),
        Some(
            Descriptor::File {
                file,
                offset,
                writes: true,
            },
        ) => write_file(alloc, fd, file, offset, bytes),
        Some(Descriptor::Pipe(PipeEnd::Write(pipe))) => write_pipe(
            alloc,
            tables.pipes,
            pipe,
            bytes,
        ),
        _ => Ok(CallRow::failure(alloc, Errno::BadDescriptor)),
    }
}

fn write_terminal(alloc: Global, terminal: u32, bytes: Bytes) -> Result<CallRow, AllocError>
    requires { length bytes ≤ most_bytes }
    ensures { IfOk result (λ row. IsRow row (record (only (number (length bytes))) {
      output = Some (record { terminal = terminal; bytes = bytes });
    })) }
{
    let mut row = CallRow::number(alloc, count(bytes.as_slice()));
    row.output = Some(Output { terminal, bytes });
    Ok(row)
}

fn ends_too_far(offset: u32, n: u32) -> bool
    requires { n ≤ most_bytes }
    ensures { result ≡ nat_lt longest_file (offset + n) }
{
    offset > LONGEST_FILE || offset + n > LONGEST_FILE
}

/// A write of these bytes at an offset of a file.
fn write_file(
    alloc: Global,
    fd: usize,
    file: u64,
    offset: u32,
    bytes: Bytes,
) -> Result<CallRow, AllocError>
    requires { length bytes ≤ most_bytes }
    ensures row { IfOk result (λ row. IsRow row (write_file fd file offset bytes)) }
    ensures carries { IfOk result (λ row. IfSome row.edit CarriesBytes) }
{
    let n = count(bytes.as_slice());
    if ends_too_far(offset, n) {
        return Ok(CallRow::failure(alloc, Errno::FileTooLarge));
    }
    let edit = FileEdit::Write {
        file,
        offset,
        bytes,
    };
    let holds = Descriptor::File {
        file,
        offset: offset + n,
        writes: true,
    };
    CallRow::number(alloc, n)
        .editing(edit)
        .writing(Carrier::File(file))?
        .setting(fd, Some(holds))
}

/// A write of these bytes to a pipe: refused where none can read it any more, and waiting where it is full.
fn write_pipe(
    alloc: Global,
    pipes: &PipeTable,
    pipe: u32,
    bytes: Bytes,
) -> Result<CallRow, AllocError>
    requires { length bytes ≤ most_bytes }
    ensures row { IfOk result
        (λ row. IsRow row (write_pipe pipe bytes (slice_get (map pipe_of pipes.now) pipe))) }
    ensures carries { IfOk result (λ row. IfSome row.edit CarriesBytes) }
{
    match pipes.get(pipe) {
        Some(to) => write_held(alloc, pipe, to, bytes),
        None => CallRow::failure(alloc, Errno::BadDescriptor).reading(Carrier::Pipe(pipe)),
    }
}

/// A write of these bytes to a pipe that is there.
fn write_held(alloc: Global, pipe: u32, to: &Pipe, bytes: Bytes) -> Result<CallRow, AllocError>
    requires { length bytes ≤ most_bytes }
    ensures row { IfOk result (λ row. IsRow row (write_pipe pipe bytes (Some (pipe_of to.now)))) }
    ensures carries { IfOk result (λ row. IfSome row.edit CarriesBytes) }
{
    if to.readers() == 0 {
        return on_pipe(alloc, pipe, number(Errno::NoReader.reply()));
    }
    let room = to.room();
    if room == 0 {
        return on_pipe(alloc, pipe, Verdict::Waits);
    }
    put_some(alloc, pipe, bytes.as_slice(), room)
}

/// A write of as many of these bytes to a pipe as there is room for.
fn put_some(alloc: Global, pipe: u32, bytes: &[u8], room: usize) -> Result<CallRow, AllocError>
    requires { length bytes.now ≤ most_bytes }
    ensures row { IfOk result (λ row. IsRow row (put_some pipe bytes.now room)) }
    ensures carries { IfOk result (λ row. IfSome row.edit CarriesBytes) }
{
    let taken = part_of(bytes, 0, room);
    let bytes = Bytes::copy_of(alloc, taken)?;
    let row = on_pipe(alloc, pipe, number(taken.len() as u32))?;
    row.stepping(PipeStep::Put { pipe, bytes })
}

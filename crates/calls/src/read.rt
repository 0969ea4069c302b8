//! The row of read.
ghost use Rattle.std.specs.Prelude.{◌≡◌, ◌≤◌, ◌==◌, nat_lt, not, length, take, drop, slice_get, map, option_map, Some, IfOk, if◌then◌else◌};
ghost use Rattle.std.specs.List.{AllByRecursion};
ghost use Rattle.disk_model.specs.Limits.{longest_file};
ghost use Rattle.disk_model.specs.declared.change.NamedFile.{NamedFile};
ghost use Rattle.disk_model.specs.Numbers.{file_of};
ghost use Rattle.kernel_model.specs.Requests.{most_bytes};
ghost use Rattle.kernel_model.specs.Rows.{only, number, failure, bad_descriptor, bad_argument, bad_address, descriptor_at, may_read, read_tape, read_file, take_some, read_pipe, read_from, row_read};
ghost use Rattle.calls.specs.Plans.{IsRow};
ghost use Rattle.calls.specs.Shares.{pipe_of, things};

use crate::ends::on_pipe;
use crate::errno::Errno;
use crate::row::CallRow;
use crate::tables::KernelTables;
use crate::tapes::TapeTable;
use crate::verdict::{number, with_bytes};
use byte_list::Bytes;
use files::FileTable;
use kernel_model::{Carrier, Descriptor, MOST_BYTES, PipeEnd, PipeStep, TapeRead, Verdict};
use pipes::{Pipe, PipeTable};
use processes::Descriptors;
use std::alloc::{AllocError, Global};

/// A place for at most n bytes; `fits` says that n bytes may be written there.
#[derive(Clone, Copy)]
pub struct Place {
    pub at: u32,
    pub n: u32,
    pub fits: bool,
}

fn may_read(files: &FileTable, descriptor: Option<Descriptor>) -> bool
    ensures { result ≡ may_read files.now descriptor }
{
    match descriptor {
        Some(Descriptor::Tape(_)) => true,
        Some(Descriptor::File { file, writes, .. }) => !writes && files.alive(file),
        Some(Descriptor::Pipe(end)) => matches!(end, PipeEnd::Read(_)),
        Some(Descriptor::Terminal(_)) | None => false,
    }
}

/// A read through a descriptor.
pub fn read(
    alloc: Global,
    tables: &KernelTables,
    descriptors: &Descriptors,
    fd: u32,
    place: Place,
) -> Result<CallRow, AllocError>
    requires { AllByRecursion (λ (f : NamedFile). length f.bytes ≤ longest_file) tables.now.files.now.living }
    ensures { IfOk result (λ row. IsRow row
        (row_read (things tables.now.files.now tables.now.pipes.now tables.now.tapes.now)
        (descriptor_at descriptors.now fd) fd place.at place.n place.fits)) }
{
    let from = descriptors.get(fd);
    read_tested(alloc, tables, from, fd as usize, place)?.looking_at(from)
}

/// A read by what the descriptor stands for: the tests in their order.
fn read_tested(
    alloc: Global,
    tables: &KernelTables,
    from: Option<Descriptor>,
    fd: usize,
    place: Place,
) -> Result<CallRow, AllocError>
    requires { AllByRecursion (λ (f : NamedFile). length f.bytes ≤ longest_file) tables.now.files.now.living }
    ensures { IfOk result (λ row. IsRow row (
        if not (may_read tables.now.files.now from) then failure bad_descriptor
        else if nat_lt most_bytes place.n then failure bad_argument
        else if place.n == 0 then only (number 0)
        else if not place.fits then failure bad_address
        else read_from (things tables.now.files.now tables.now.pipes.now tables.now.tapes.now) from fd place.at place.n)) }
{
    if !may_read(tables.files, from) {
        return Ok(CallRow::failure(alloc, Errno::BadDescriptor));
    }
    if place.n > MOST_BYTES {
        return Ok(CallRow::failure(alloc, Errno::BadArgument));
    }
    if place.n == 0 {
        return Ok(CallRow::number(alloc, 0));
    }
    if !place.fits {
        return Ok(CallRow::failure(alloc, Errno::BadAddress));
    }
    read_from(alloc, tables, from, fd, place)
}

/// A read by what the descriptor stands for, to a place that is large enough.
fn read_from(
    alloc: Global,
    tables: &KernelTables,
    from: Option<Descriptor>,
    fd: usize,
    place: Place,
) -> Result<CallRow, AllocError>
    requires short { AllByRecursion (λ (f : NamedFile). length f.bytes ≤ longest_file) tables.now.files.now.living }
    requires n { place.n ≤ most_bytes }
    ensures { IfOk result (λ row. IsRow row
        (read_from (things tables.now.files.now tables.now.pipes.now tables.now.tapes.now) from fd place.at place.n)) }
{
    match from {
        Some(Descriptor::Tape(tape)) => read_tape(alloc, tables.tapes, tape, place),
        Some(
            Descriptor::File {
                file,
                offset,
                writes: false,
            },
        ) => read_file(alloc, tables.files, fd, file, offset, place),
        Some(Descriptor::Pipe(PipeEnd::Read(pipe))) => read_pipe(alloc, tables.pipes, pipe, place),
        _ => Ok(CallRow::failure(alloc, Errno::BadDescriptor)),
    }
}

/// A read of what is left of a tape.
fn read_tape(
    alloc: Global,
    tapes: &TapeTable,
    tape: u32,
    place: Place,
) -> Result<CallRow, AllocError>
    requires { place.n ≤ most_bytes }
    ensures { IfOk result
        (λ row. IsRow row (read_tape tape place.at place.n (slice_get tapes.now tape))) }
{
    let Some(bytes) = tapes.read(tape, place.n as usize) else {
        return CallRow::failure(alloc, Errno::BadDescriptor).reading(Carrier::Tape(tape));
    };
    let copy = Bytes::copy_of(alloc, bytes)?;
    let told = with_bytes(alloc, bytes.len() as u32, place.at, copy)?;
    let mut row = CallRow::only(alloc, told);
    row.tape = Some(TapeRead {
        tape,
        count: bytes.len(),
    });
    row.updating(Carrier::Tape(tape))
}

/// At most n bytes of the file of this number, from an offset on; None where it does not live.
fn part_of_file(files: &FileTable, file: u64, offset: u32, n: u32) -> Option<&[u8]>
    ensures { option_map (λ bytes. bytes.now) result
        ≡ option_map (λ f. take n (drop offset f.bytes)) (file_of files.now file) }
{
    let place = files.place(file)?;
    files.read(place, offset as usize, n as usize)
}

/// A read of a file from an offset on, which moves past what is read.
fn read_file(
    alloc: Global,
    files: &FileTable,
    fd: usize,
    file: u64,
    offset: u32,
    place: Place,
) -> Result<CallRow, AllocError>
    requires short { AllByRecursion (λ (f : NamedFile). length f.bytes ≤ longest_file) files.now.living }
    requires n { place.n ≤ most_bytes }
    ensures { IfOk result
        (λ row. IsRow row (read_file fd file offset place.at place.n (file_of files.now file))) }
{
    let Some(bytes) = part_of_file(files, file, offset, place.n) else {
        return Ok(CallRow::failure(alloc, Errno::BadDescriptor));
    };
    let copy = Bytes::copy_of(alloc, bytes)?;
    let holds = Descriptor::File {
        file,
        offset: offset + bytes.len() as u32,
        writes: false,
    };
    let told = with_bytes(alloc, bytes.len() as u32, place.at, copy)?;
    CallRow::only(alloc, told).setting(fd, Some(holds))
}

/// A read of a pipe that holds nothing gives no bytes where none can write it any more, and waits where some still can.
fn read_pipe(
    alloc: Global,
    pipes: &PipeTable,
    pipe: u32,
    place: Place,
) -> Result<CallRow, AllocError>
    requires { place.n ≤ most_bytes }
    ensures { IfOk result (λ row. IsRow row
        (read_pipe pipe place.at place.n (slice_get (map pipe_of pipes.now) pipe))) }
{
    match pipes.get(pipe) {
        Some(from) => read_held(alloc, pipe, from, place),
        None => CallRow::failure(alloc, Errno::BadDescriptor).reading(Carrier::Pipe(pipe)),
    }
}

/// A read of a pipe that is there.
fn read_held(alloc: Global, pipe: u32, from: &Pipe, place: Place) -> Result<CallRow, AllocError>
    requires { place.n ≤ most_bytes }
    ensures { IfOk result
        (λ row. IsRow row (read_pipe pipe place.at place.n (Some (pipe_of from.now)))) }
{
    if from.held() > 0 {
        return take_some(alloc, pipe, from.prefix(alloc, place.n as usize)?, place.at);
    }
    if from.writers() == 0 {
        return on_pipe(alloc, pipe, number(0));
    }
    on_pipe(alloc, pipe, Verdict::Waits)
}

/// A read of these bytes, the first that a pipe holds.
fn take_some(alloc: Global, pipe: u32, bytes: Bytes, at: u32) -> Result<CallRow, AllocError>
    requires { length bytes ≤ most_bytes }
    ensures { IfOk result (λ row. IsRow row (take_some pipe at (length bytes) bytes)) }
{
    let count = bytes.as_slice().len();
    let told = with_bytes(alloc, count as u32, at, bytes)?;
    let row = on_pipe(alloc, pipe, told)?;
    row.stepping(PipeStep::Take { pipe, count })
}

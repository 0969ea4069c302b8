//! A disk that holds given files.
ghost use Rattle.std.specs.Prelude.{◌≡◌, true, IfOk};
ghost use Rattle.disk_model.specs.Storage.{is_quiet};

use disk_model::LONGEST_FILE_WRITE;
use faults::{Fault, Refusal};
use files::FileList;
use host_files::zeros;
use journal::first_gate;
use simdisk::{DiskRefusal, SimDisk};
use std::alloc::{AllocError, Global};

/// How many bytes are written at once.
const PIECE: usize = 4096;

/// A number of two bytes. No place or length of a file that a disk may hold is greater.
fn two_bytes(number: usize) -> [u8; 2] {
    u16::try_from(number).unwrap_or(u16::MAX).to_le_bytes()
}

/// A number of four bytes. No length of a record is greater.
fn four_bytes(number: usize) -> [u8; 4] {
    u32::try_from(number).unwrap_or(u32::MAX).to_le_bytes()
}

/// Appends the change that makes a file of this name.
fn push_creation(body: &mut Vec<u8>, name: &[u8]) -> Result<(), AllocError> {
    body.push(1)?;
    body.push(u8::try_from(name.len()).unwrap_or(u8::MAX))?;
    body.extend_from_slice(name)
}

/// Appends the change that writes bytes at an offset of the file at a place.
fn push_write(
    body: &mut Vec<u8>,
    place: usize,
    offset: usize,
    bytes: &[u8],
) -> Result<(), AllocError> {
    body.push(2)?;
    body.extend_from_slice(&two_bytes(place))?;
    body.extend_from_slice(&four_bytes(offset))?;
    body.extend_from_slice(&two_bytes(bytes.len()))?;
    body.extend_from_slice(bytes)
}

/// The body of a record whose changes make these files.
fn body_making(alloc: Global, files: &FileList) -> Result<Vec<u8>, AllocError> {
    let mut body = Vec::new(alloc);
    for place in 0..files.count() {
        push_creation(&mut body, files.name(place))?;
        let mut offset = 0usize;
        for part in files.bytes(place).chunks(LONGEST_FILE_WRITE as usize) {
            push_write(&mut body, place, offset, part)?;
            offset = offset.saturating_add(part.len());
        }
    }
    Ok(body)
}

/// Writes bytes from a place on, to their end.
fn write_all(device: &mut SimDisk, at: u32, bytes: &[u8]) -> Result<(), DiskRefusal> {
    let mut at = at;
    for piece in bytes.chunks(PIECE) {
        device.submit(at, piece)?;
        device.complete(at)?;
        at = at.saturating_add(PIECE as u32);
    }
    Ok(())
}

/// Writes a record of this body, and then opens its gate. The gate after it is closed on a disk of zeros.
fn write_record(device: &mut SimDisk, body: &[u8]) -> Result<(), DiskRefusal> {
    let gate = first_gate(false);
    write_all(device, gate.saturating_add(1), &four_bytes(body.len()))?;
    write_all(device, gate.saturating_add(5), body)?;
    write_all(device, gate, &[1])
}

/// A disk that holds these files, in one record. They are files that a disk may hold: else a boot on it is refused. OutOfMemory is the
/// only fault of such files.
pub fn disk_with(alloc: Global, files: &FileList) -> Result<SimDisk, Fault>
    ensures { IfOk result (λ device. is_quiet device ≡ true) }
{
    let mut device = zeros(alloc)?;
    if files.count() > 0 {
        let body = body_making(alloc, files)?;
        write_record(&mut device, &body)?;
    }
    if device.quiet() {
        Ok(device)
    } else {
        Err(Fault::from(Refusal::InputOutput))
    }
}

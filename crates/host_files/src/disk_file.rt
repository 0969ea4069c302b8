//! Reads a disk from a file of the host, and keeps it in one that is whole whenever the program is killed.
ghost use Rattle.std.specs.Prelude.{◌≡◌, true, IfOk};
ghost use Rattle.disk_model.specs.Storage.{is_quiet};

use crate::kind::{FileKind, KindText, kind_of};
use crate::output_file::OutputFile;
use faults::{Fault, Refusal, at_path};
use input_reading::bytes_in;
use simdisk::{DiskRefusal, SIZE, SimDisk};
use std::alloc::{AllocError, Global};
use std::io::ErrorKind;
use std::rt::Files;

/// What is said of a file of bytes that hold no disk: what else it is, or how many there are.
fn said_of(alloc: Global, path: &str, bytes: &[u8]) -> Result<String, AllocError> {
    let (kind, count) = (kind_of(bytes), bytes.len());
    match kind {
        FileKind::Text | FileKind::Other if count > SIZE => {
            format!(in alloc; "a disk has {SIZE} bytes, and this file has more")
        }
        FileKind::Text | FileKind::Other => {
            format!(in alloc; "a disk has {SIZE} bytes, and this file has {count}")
        }
        _ => format!(in alloc; "a disk has {SIZE} bytes; {}", KindText { kind, path }),
    }
}

/// The fault of a file of bytes that hold no disk.
fn disk_fault(alloc: Global, path: &str, bytes: &[u8], refusal: DiskRefusal) -> Fault {
    if !matches!(refusal, DiskRefusal::BadLength) {
        return Fault::from(refusal);
    }
    Fault::saying(Refusal::DiskLength, said_of(alloc, path, bytes)).at(alloc, path)
}

/// The disk of the bytes of the file at a path.
pub fn disk_of(alloc: Global, path: &str, bytes: &[u8]) -> Result<SimDisk, Fault>
    ensures { IfOk result (λ device. is_quiet device ≡ true) }
{
    match SimDisk::open(alloc, bytes) {
        Ok(device) => Ok(device),
        Err(refusal) => Err(disk_fault(alloc, path, bytes, refusal)),
    }
}

/// A disk of 2 MiB of zeros. Its only fault is OutOfMemory.
pub fn zeros(alloc: Global) -> Result<SimDisk, Fault>
    ensures { IfOk result (λ device. is_quiet device ≡ true) }
{
    Ok(SimDisk::zero(alloc)?)
}

/// The disk in a file. DiskLength where the file has not a disk's 2,097,152 bytes.
pub fn disk_in<R: Files + AllocGlobal>(rt: &R, path: &str) -> Result<SimDisk, Fault>
    ensures { IfOk result (λ device. is_quiet device ≡ true) }
{
    let bytes = at_path(rt.alloc(), path, bytes_in(rt, path, SIZE))?;
    disk_of(rt.alloc(), path, &bytes)
}

/// The disk in a file; a disk of zeros where there is no such file.
pub fn disk_or_zeros<R: Files + AllocGlobal>(rt: &R, path: &str) -> Result<SimDisk, Fault>
    ensures { IfOk result (λ device. is_quiet device ≡ true) }
{
    match bytes_in(rt, path, SIZE) {
        Ok(bytes) => disk_of(rt.alloc(), path, &bytes),
        Err(error) if error.kind() == ErrorKind::NotFound => zeros(rt.alloc()),
        Err(error) => Err(Fault::from(error).at(rt.alloc(), path)),
    }
}

/// Tests whether a disk can be kept in a file: the file beside it is made, and removed again.
pub fn test_place<R: Files + AllocGlobal>(rt: &R, path: &str) -> Result<(), Fault> {
    let _file = OutputFile::beside(rt, path)?;
    Ok(())
}

/// Keeps a disk in a file, which is whole whenever the program is killed: as it was, or as it is to be.
pub fn keep<R: Files + AllocGlobal>(rt: &R, path: &str, device: &SimDisk) -> Result<(), Fault> {
    OutputFile::beside(rt, path)?.keep_synced(device.bytes())
}

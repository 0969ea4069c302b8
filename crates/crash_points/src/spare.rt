//! `SpareDisk`: a disk that many boots use, one after the other.
ghost use Rattle.std.specs.Prelude.{◌≡◌, true, IfOk};
ghost use Rattle.disk_model.specs.Storage.{is_quiet};

use crate::putting::put_bytes;
use disk_model::LONGEST_FILE_WRITE;
use faults::{Fault, Refusal};
use files::FileList;
use journal::{first_gate, selector_of};
use kernel::SimDisk;
use std::alloc::{AllocError, Global};

/// A disk for boots that come one after the other, so that not each of them fills 2 MiB with zeros. Recovery reads no byte after the
/// first gate that is not open. So what an earlier boot left there does not matter.
pub struct SpareDisk {
    /// None before the first boot, and while a core has it.
    device: Option<SimDisk>,
}

impl Drop for SpareDisk {
    fn drop(self) {
        let SpareDisk { device: _device } = self;
    }
}

/// A number of two bytes. No place or length of a file that a disk may hold is greater.
fn two_bytes(number: usize) -> [u8; 2] {
    u16::try_from(number).unwrap_or(u16::MAX).to_le_bytes()
}

/// A number of four bytes. No length of a record is greater.
fn four_bytes(number: usize) -> [u8; 4] {
    u32::try_from(number).unwrap_or(u32::MAX).to_le_bytes()
}

/// Appends the change that makes a file of this name.
fn push_creation(body: &mut Vec<u8>, name: &[u8]) -> Result<(), AllocError> {
    body.push(1)?;
    body.push(u8::try_from(name.len()).unwrap_or(u8::MAX))?;
    body.extend_from_slice(name)
}

/// Appends the changes that write these bytes to the empty file at a place.
fn push_writes(body: &mut Vec<u8>, place: usize, bytes: &[u8]) -> Result<(), AllocError> {
    let mut offset = 0usize;
    for part in bytes.chunks(LONGEST_FILE_WRITE as usize) {
        body.push(2)?;
        body.extend_from_slice(&two_bytes(place))?;
        body.extend_from_slice(&four_bytes(offset))?;
        body.extend_from_slice(&two_bytes(part.len()))?;
        body.extend_from_slice(part)?;
        offset = offset.saturating_add(part.len());
    }
    Ok(())
}

/// The body of a record whose changes make these files.
fn body_making(alloc: Global, files: &FileList) -> Result<Vec<u8>, AllocError> {
    let mut body = Vec::new(alloc);
    for place in 0..files.count() {
        push_creation(&mut body, files.name(place))?;
        push_writes(&mut body, place, files.bytes(place))?;
    }
    Ok(body)
}

/// What a half has that holds these files: a record that makes them, if there are some, and a gate that is not open.
fn half_with(alloc: Global, files: &FileList) -> Result<Vec<u8>, AllocError> {
    let mut half = Vec::new(alloc);
    if files.count() > 0 {
        let body = body_making(alloc, files)?;
        half.push(1)?;
        half.extend_from_slice(&four_bytes(body.len()))?;
        half.extend_from_slice(body.as_slice())?;
    }
    half.push(0)?;
    Ok(half)
}

impl SpareDisk {
    /// None yet.
    pub fn new() -> SpareDisk {
        SpareDisk { device: None }
    }

    /// The disk, which then holds these files, in one record of the first half. They are files that a disk may hold: else a boot on it is
    /// refused. OutOfMemory is the only fault of such files.
    pub fn take(&mut self, alloc: Global, files: &FileList) -> Result<SimDisk, Fault>
        ensures { IfOk result (λ device. is_quiet device ≡ true) }
    {
        let mut device = match self.device.take() {
            Some(device) => device,
            None => SimDisk::zero(alloc)?,
        };
        put_bytes(&mut device, 0, &[selector_of(false)])?;
        let half = half_with(alloc, files)?;
        put_bytes(&mut device, first_gate(false), half.as_slice())?;
        if device.quiet() {
            Ok(device)
        } else {
            Err(Fault::from(Refusal::InputOutput))
        }
    }

    /// Gets the disk back from a boot.
    pub fn put_back(&mut self, device: SimDisk) {
        self.device = Some(device);
    }
}

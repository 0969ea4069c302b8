//! Tests of `journal`: a record that leaves too few bytes for the length of the next one. All other disks are cases, in
//! `damage.cores` and `disk.sessions`.
use crate::asserting::assert_row;
use journal::{DiskFault, open, recover};
use simdisk::{DiskRefusal, SIZE, SimDisk};
use std::alloc::{AllocError, Global};
use std::process::Abort;
use std::test::Fail;

/// Appends zeros up to each part's place, and then the part.
fn lay_out(bytes: &mut Vec<u8>, parts: &[(usize, &[u8])]) -> Result<(), AllocError> {
    for &(at, part) in parts {
        bytes.resize(at, 0)?;
        bytes.extend_from_slice(part)?;
    }
    Ok(())
}

/// Appends a write of 1,024 bytes to the first file.
fn push_write(body: &mut Vec<u8>, offset: u32, byte: u8) -> Result<(), AllocError> {
    body.extend_from_slice(&[2, 0, 0])?;
    body.extend_from_slice(&offset.to_le_bytes())?;
    body.extend_from_slice(&[0, 4])?;
    body.extend_from_slice(&[byte; 1024])
}

/// A body of 1,048,504 bytes: a creation, 1,015 writes to the 16 blocks of the file, one after the other and round again, and an
/// emptying.
fn long_body(alloc: Global) -> Result<Vec<u8>, AllocError> {
    let mut body = Vec::from_slice(alloc, b"\x01\x04full")?;
    for write in 0..1015u32 {
        let block = write % 16;
        push_write(&mut body, block * 1024, block as u8)?;
    }
    body.extend_from_slice(b"\x03\0\0")?;
    Ok(body)
}

/// A disk whose byte 0 is this byte, with a record of that body at this place, and this gate after it.
fn device_of_long(
    alloc: Global,
    byte: u8,
    start: usize,
    gate: [u8; 1],
) -> Result<SimDisk, DiskRefusal> {
    let body = long_body(alloc)?;
    let (selector, header) = ([byte], b"\x01\xb8\xff\x0f\0".as_slice());
    let parts = [
        (0, selector.as_slice()),
        (start, header),
        (start.saturating_add(5), &body),
        (start.saturating_add(1048509), &gate),
    ];
    let mut bytes = Vec::new(alloc);
    lay_out(&mut bytes, &parts)?;
    bytes.resize(SIZE, 0)?;
    SimDisk::open(alloc, &bytes)
}

/// The first gate of a disk that is not open is at this place, and the disk has one file, without bytes.
fn assert_closed(
    rt: &(impl Abort + AllocGlobal),
    device: Result<SimDisk, DiskRefusal>,
    gate: usize,
) -> Result<(), Fail> {
    let device = device?;
    let (files, found) = open(rt.alloc(), &device)?;
    let names = (files.count(), files.find(b"full"), files.read(0, 0, 9));
    assert_row(rt, gate, names, (1, Some(0), Some(b"".as_slice())));
    assert_row(rt, gate, found as usize, gate);
    Ok(())
}

/// The fault of a disk, if it has one.
fn fault_of(
    alloc: Global,
    device: Result<SimDisk, DiskRefusal>,
) -> Result<Option<DiskFault>, DiskRefusal> {
    let device = device?;
    Ok(recover(alloc, &device).err())
}

/// Bytes 0 and places of the long record, and the place of the gate after it, which may not be open.
const HALVES: &[(u8, usize, usize)] = &[(0, 64, 1048573), (1, 1048576, 2097085)];

#[test]
fn too_few_bytes_for_a_length(rt: HostRuntime) -> Result<(), Fail> {
    for &(byte, start, end) in HALVES {
        let closed = device_of_long(rt.alloc(), byte, start, [0]);
        assert_closed(&rt, closed, end)?;
        let open = device_of_long(rt.alloc(), byte, start, [1]);
        let fault = fault_of(rt.alloc(), open);
        assert_row(&rt, start, fault, Ok(Some(DiskFault::PastHalf)));
    }
    Ok(())
}

//! Tests of `simdisk`: writes in flight, refusals and a crash.
use crate::asserting::assert_row;
use simdisk::{DiskRefusal, SimDisk};
use std::alloc::Global;
use std::process::Abort;

/// Writes that are out of range: into one that is in flight, of no bytes, and past the end.
const OUT_OF_RANGE: &[(u32, &[u8])] = &[(65, b"x"), (70, b""), (2097151, b"xy")];

/// Writes at 70 and at 64 are in flight, and others are refused.
fn assert_in_flight(rt: &impl Abort, device: &mut SimDisk) {
    for &(at, bytes) in OUT_OF_RANGE {
        let refused = Err(DiskRefusal::OutOfRange);
        assert_row(rt, at, device.submit(at, bytes), refused);
    }
    let places = (
        device.in_flight(),
        device.is_in_flight(70),
        device.is_in_flight(71),
    );
    assert_row(rt, "in flight", places, (Some(64), true, false));
}

/// The write at 64 completes and the one at 70 fails, each once.
fn assert_ended(rt: &impl Abort, device: &mut SimDisk) {
    let no_such_write = Err(DiskRefusal::NoSuchWrite);
    let completed = [device.complete(64), device.complete(64)];
    assert_row(rt, "complete", completed, [Ok(()), no_such_write]);
    let failed = [device.fail(70), device.fail(70)];
    assert_row(rt, "fail", failed, [Ok(()), no_such_write]);
    assert_row(rt, "has failed", device.has_failed(), true);
}

/// Two writes come to their ends, and a third is in flight.
fn write_three(rt: &impl Abort, device: &mut SimDisk) -> Result<(), DiskRefusal> {
    device.submit(70, b"abc")?;
    device.submit(64, b"de")?;
    assert_in_flight(rt, device);
    assert_ended(rt, device);
    device.submit(60, b"fg")
}

/// A disk that crashed while one write was in flight, after one completed and one failed; what it refuses before is compared too.
fn crashed(rt: &impl Abort, alloc: Global) -> Result<SimDisk, DiskRefusal> {
    let mut device = SimDisk::zero(alloc)?;
    write_three(rt, &mut device)?;
    Ok(device.crash(b"123"))
}

/// The crashed disk is quiet. It has the completed write, and where the others were the bytes of the crash.
fn assert_left(rt: &impl Abort, device: &SimDisk) {
    assert_row(rt, "quiet", device.quiet(), true);
    let wanted = b"\x0012\0\0de\0\0\0\0312\0".as_slice();
    assert_row(rt, "left", &device.bytes()[59..74], wanted);
}

#[test]
fn writes_of_a_disk(rt: HostRuntime) -> Result<(), DiskRefusal> {
    let device = crashed(&rt, rt.alloc())?;
    assert_left(&rt, &device);
    Ok(())
}

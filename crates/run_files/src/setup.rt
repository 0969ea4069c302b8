//! `boot`: the core of a run of images, from files of the host. `keep_disk`: the disk that a run leaves, in its file.
use crate::inputs::{Input, tapes_in};
use crate::subject::launch_of;
use byte_list::Bytes;
use command_line::{ProgramOptions, RunOptions};
use durable_disk::HostFile;
use faults::{Fault, Role};
use host_files::{DiskLock, disk_or_zeros, image_in, keep, open_durable, test_place};
use kernel::Core;
use scripts::Launch;
use std::alloc::Global;
use std::fs::File;
use std::io::Read;
use std::rt::Files;

/// A launch of the images in files, read in order.
fn launch_in<R: Files + AllocGlobal>(
    rt: &R,
    paths: &[&str],
    tapes: &[Bytes],
) -> Result<Launch, Fault> {
    let mut images = Vec::new(rt.alloc());
    for path in paths {
        images.push(image_in(rt, path)?)?;
    }
    launch_of(rt.alloc(), images, tapes)
}

/// What a run begins with: its core; the lock of its disk's file, if the disk is kept; and that file, of a durable run.
pub type Booted = (Core, Option<DiskLock>, Option<HostFile>);

/// Boots the core on the disk at a path. A durable run gets the disk's open file beside it. Else the last test is whether the disk
/// can be kept, so that no long run is lost at its end.
fn core_at<R: Files<File = File> + AllocGlobal>(
    rt: &R,
    path: &str,
    is_durable: bool,
    launch: &Launch,
) -> Result<(Core, Option<HostFile>), Fault> {
    if is_durable {
        let (file, device) = open_durable(rt, path)?;
        let core = launch.boot(rt.alloc(), Some(device))?;
        return Ok((core, Some(file)));
    }
    let device = disk_or_zeros(rt, path)?;
    let core = launch.boot(rt.alloc(), Some(device))?;
    test_place(rt, path)?;
    Ok((core, None))
}

/// Tests whether the disk at a path can be read.
fn test_disk<R: Files + AllocGlobal>(rt: &R, path: &str) -> Result<(), Fault> {
    let device = disk_or_zeros(rt, path)?;
    journal::recover(rt.alloc(), &device)?;
    Ok(())
}

/// Why a disk is refused whose file cannot be locked: the disk's own first fault, if it has one.
fn refusal_at<R: Files + AllocGlobal>(rt: &R, path: &str, fault: Fault) -> Fault {
    if fault.is_in_use() {
        return fault;
    }
    match test_disk(rt, path) {
        Ok(()) => fault,
        Err(first) => first,
    }
}

/// Locks the disk at a path, and boots the core on it. Where the boot fails the lock is released.
fn setup_at<R: Files<File = File> + AllocGlobal>(
    rt: &R,
    path: &str,
    is_durable: bool,
    launch: &Launch,
) -> Result<Booted, Fault> {
    let lock = match DiskLock::take(rt, path) {
        Ok(lock) => lock,
        Err(fault) => {
            return Err(refusal_at(rt, path, fault).of(rt.alloc(), Role::Disk, path));
        }
    };
    match core_at(rt, path, is_durable, launch) {
        Ok((core, file)) => Ok((core, Some(lock), file)),
        Err(fault) => {
            lock.release(rt);
            Err(fault.of(rt.alloc(), Role::Disk, path))
        }
    }
}

/// Boots the core of a run. Reads the tapes in order, then the images in order, then the disk, which no other run may have. The
/// last test is whether the disk can be kept. The first fault ends the run.
pub fn boot<R: Files<File = File> + AllocGlobal, I: Read>(
    rt: &R,
    options: &RunOptions<'_>,
    input: &mut I,
) -> Result<Booted, Fault> {
    let ProgramOptions { paths, tapes } = &options.programs;
    let tapes = tapes_in(rt, tapes.as_slice(), &mut Input::new(input))?;
    let launch = launch_in(rt, paths.as_slice(), tapes.as_slice())?;
    boot_on(rt, options, &launch)
}

/// Boots the core of a run that was read. All goes on as by `boot` once it has read the images.
pub fn boot_on<R: Files<File = File> + AllocGlobal>(
    rt: &R,
    options: &RunOptions<'_>,
    launch: &Launch,
) -> Result<Booted, Fault> {
    match options.disk {
        Some(path) => setup_at(rt, path, options.is_durable, launch),
        None => Ok((launch.boot(rt.alloc(), None)?, None, None)),
    }
}

/// What came of a disk. A fault of the disk has the path of its file then, if there is one.
pub fn of_disk<T: Drop>(
    alloc: Global,
    path: Option<&str>,
    done: Result<T, Fault>,
) -> Result<T, Fault> {
    match (done, path) {
        (Err(fault), Some(path)) => Err(fault.of(alloc, Role::Disk, path)),
        (done, _) => done,
    }
}

/// Halts the core, and keeps the disk that it leaves, if it is to be kept.
pub fn keep_disk<R: Files + AllocGlobal>(
    rt: &R,
    path: Option<&str>,
    core: Core,
) -> Result<(), Fault> {
    match path {
        Some(path) => Ok(keep(rt, path, &core.halt(&[]))?),
        None => Ok(()),
    }
}

//! `open_durable`: opens the file of a disk that is written while a run goes on.
ghost use Rattle.std.specs.Prelude.{◌≡◌, true, IfOk};
ghost use Rattle.disk_model.specs.Storage.{is_quiet};

use crate::disk_file::{disk_of, keep, zeros};
use crate::disk_lock::lock_file;
use durable_disk::HostFile;
use faults::{Fault, at_path};
use simdisk::{SIZE, SimDisk};
use std::alloc::Global;
use std::fs::{self, File, OpenOptions};
use std::io::{self, Read};
use std::rt::Files;

/// Has the host keep the name of a file: syncs the folder in which it stands, where no link is left in its path.
fn sync_folder<R: Files<File = File> + AllocGlobal>(rt: &R, path: &str) -> io::Result<()> {
    let whole = fs::canonicalize(rt, path)?;
    match whole.as_path().parent() {
        Some(folder) => fs::open(rt, folder)?.sync_all(),
        None => Ok(()),
    }
}

/// Opens the file of a disk. Where there is none, a file of zeros is made first. The file is then locked, until it is closed.
fn open_or_make<R: Files<File = File> + AllocGlobal>(rt: &R, path: &str) -> Result<File, Fault> {
    if !at_path(rt.alloc(), path, fs::exists(rt, path))? {
        keep(rt, path, &zeros(rt.alloc())?)?;
    }
    let opened = OpenOptions::new().read(true).write(true).open(rt, path);
    let file = at_path(rt.alloc(), path, opened)?;
    match lock_file(&file) {
        Ok(()) => Ok(file),
        Err(fault) => Err(fault.at(rt.alloc(), path)),
    }
}

/// The bytes of an open file, but at most one more than a disk has.
fn bytes_of(alloc: Global, file: &mut File) -> io::Result<Vec<u8>> {
    let mut bytes = Vec::new(alloc);
    file.take(SIZE as u64 + 1).read_to_end(&mut bytes)?;
    Ok(bytes)
}

/// Syncs the bytes of a file, and its name.
fn sync<R: Files<File = File> + AllocGlobal>(rt: &R, path: &str, file: &File) -> io::Result<()> {
    file.sync_all()?;
    sync_folder(rt, path)
}

/// The file at this path, open, and the disk that it holds. Where there is none, a file of zeros is made first, by way of a file
/// beside it. The file's bytes and its name are synced, since a run before may not have synced them.
///
/// DiskLength where the file has not a disk's 2,097,152 bytes. DiskInUse where a run has the file by another path.
pub fn open_durable<R: Files<File = File> + AllocGlobal>(
    rt: &R,
    path: &str,
) -> Result<(HostFile, SimDisk), Fault>
    ensures { IfOk result (λ opened. is_quiet opened.1 ≡ true) }
{
    let alloc = rt.alloc();
    let mut file = open_or_make(rt, path)?;
    let bytes = at_path(alloc, path, bytes_of(alloc, &mut file))?;
    let device = disk_of(alloc, path, &bytes)?;
    at_path(alloc, path, sync(rt, path, &file))?;
    Ok((HostFile::new(file), device))
}

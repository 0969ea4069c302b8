//! The lock by which one run at a time has a disk's file.
use crate::output_file::{beside_fault, no_path};
use faults::{Fault, Refusal};
use std::alloc::Global;
use std::fs::{self, File, OpenOptions, TryLockError};
use std::io;
use std::os::unix::fs::MetadataExt;
use std::rt::Files;

/// The lock of a disk: a file beside the disk's, of the same path with `.lck` after it, which is locked. This lock goes by the
/// path, since the disk's file may not be there yet, and since another file takes its place where a disk is kept.
#[derive(Drop)]
pub struct DiskLock {
    path: String,
    file: File,
}

/// Locks an open file. DiskInUse where another open of it is locked.
pub fn lock_file(file: &File) -> Result<(), Fault> {
    match file.try_lock() {
        Ok(()) => Ok(()),
        Err(TryLockError::WouldBlock) => Err(Fault::from(Refusal::DiskInUse)),
        Err(TryLockError::Error(error)) => Err(Fault::from(error)),
    }
}

/// Makes the file of a lock, where it is not there, and opens it.
fn open_lock<R: Files>(rt: &R, path: &str) -> io::Result<R::File> {
    OpenOptions::new().write(true).create(true).open(rt, path)
}

/// Whether a path leads to this open file. A link at the path itself is not followed.
fn leads_to<R: Files>(rt: &R, path: &str, file: &File) -> io::Result<bool> {
    let there = fs::symlink_metadata(rt, path)?;
    let open = file.metadata()?;
    Ok(there.dev() == open.dev() && there.ino() == open.ino())
}

/// The fault of a disk's file that a run has.
fn in_use(alloc: Global, path: &str) -> Fault {
    Fault::from(Refusal::DiskInUse).at(alloc, path)
}

impl DiskLock {
    /// Locks the path of a disk's file. DiskInUse where a run has it. InputOutput where the file beside it cannot be made, and where
    /// the path is empty, which no file has.
    pub fn take<R: Files<File = File> + AllocGlobal>(
        rt: &R,
        path: &str,
    ) -> Result<DiskLock, Fault> {
        if path.is_empty() {
            return Err(no_path(rt.alloc()));
        }
        let alloc = rt.alloc();
        let beside = format!(in alloc; "{path}.lck")?;
        let file = match open_lock(rt, beside.as_str()) {
            Ok(file) => file,
            Err(error) => return Err(beside_fault(alloc, path, ".lck", "made and locked", error)),
        };
        if let Err(fault) = lock_file(&file) {
            return Err(fault.at(alloc, path));
        }
        match leads_to(rt, beside.as_str(), &file) {
            Ok(true) => Ok(DiskLock { path: beside, file }),
            // The run that had it has just removed it.
            _ => Err(in_use(alloc, path)),
        }
    }

    /// Lets another run have the disk's file. The file beside the disk's is removed, and then unlocked. It stays where it holds
    /// anything, or cannot be removed.
    pub fn release<R: Files>(self, rt: &R) {
        let DiskLock { path, file } = self;
        if matches!(file.metadata(), Ok(metadata) if metadata.len() == 0) {
            let _ = fs::remove_file(rt, path.as_str());
        }
    }
}

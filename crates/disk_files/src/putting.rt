//! `put_file`: copies a file onto a disk.
ghost use Rattle.std.specs.Prelude.{◌≡◌};
ghost use Rattle.disk_model.specs.Files.{IsName};
ghost use Rattle.disk_files.specs.Putting.{writes_left};

use crate::begun::begin_put;
use crate::names::is_name;
use disk_model::LONGEST_FILE;
use durable_disk::{DiskFile, store};
use faults::{Fault, Refusal, Role, at_path};
use group_commit::Committer;
use host_files::{DiskLock, open_durable};
use input_reading::bytes_in;
use std::fs::{self, File};
use std::rt::Files;

/// Stores what is in flight in a file, stage by stage, until nothing is. DiskFailed where the host refuses a call. `writes` is how
/// many writes there are, and so no fewer than stages.
fn store_stages<F: DiskFile>(
    file: &mut F,
    committer: &mut Committer,
    writes: u64,
) -> Result<(), Fault>
    requires { writes ≡ writes_left committer.old }
{
    for _ in 0..writes {
        let count = committer.writes_in_flight().len();
        if count > 0 && !store(file, committer.writes_in_flight()) {
            return Err(Fault::from(Refusal::DiskFailed));
        }
        for _ in 0..count {
            if let Some(at) = committer.in_flight() {
                // A write that is in flight can be completed.
                let _committed = committer.completed(at);
            }
        }
    }
    Ok(())
}

/// Puts a file of this name and these bytes on the disk at a path, which no run has.
fn put<R: Files<File = File> + AllocGlobal>(
    rt: &R,
    path: &str,
    name: &[u8],
    bytes: &[u8],
) -> Result<(), Fault>
    requires { IsName name.now }
{
    let (mut file, device) = open_durable(rt, path)?;
    let (mut committer, writes) = begin_put(rt.alloc(), device, name, bytes)?;
    store_stages(&mut file, &mut committer, writes)
}

/// Puts a file on a disk as `put` does. Where it fails, a disk that it made is removed again.
fn put_or_undo<R: Files<File = File> + AllocGlobal>(
    rt: &R,
    path: &str,
    name: &[u8],
    bytes: &[u8],
) -> Result<(), Fault>
    requires { IsName name.now }
{
    let was_there = at_path(rt.alloc(), path, fs::exists(rt, path))?;
    let done = put(rt, path, name, bytes);
    if done.is_err() && !was_there {
        let _ = fs::remove_file(rt, path);
    }
    done
}

/// Copies the file at a path of the host onto the disk at a path: the file of this name is made there, or gets other bytes, by one group
/// of changes. Where there is no disk, one without files is made first. The name is tested first, then the file's length, then the lock
/// of the disk, and then the disk. Wherever it ends, the disk is as it was before, or as it is after.
pub fn put_file<R: Files<File = File> + AllocGlobal>(
    rt: &R,
    path: &str,
    name: &str,
    from: &str,
) -> Result<(), Fault> {
    let (alloc, given) = (rt.alloc(), name);
    let name = name.as_bytes();
    if !is_name(name) {
        return Err(Fault::from(Refusal::BadName).at(alloc, given));
    }
    let bytes = at_path(alloc, from, bytes_in(rt, from, LONGEST_FILE as usize))?;
    if bytes.len() > LONGEST_FILE as usize {
        return Err(Fault::from(Refusal::TooLong).at(alloc, from));
    }
    let lock = DiskLock::take(rt, path)?;
    let done = put_or_undo(rt, path, name, bytes.as_slice());
    lock.release(rt);
    match done {
        Ok(()) => Ok(()),
        Err(fault) => Err(fault.of(alloc, Role::Disk, path)),
    }
}

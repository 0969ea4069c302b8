//! What stands on a disk, and `cat_file`, which copies a file out.
use faults::{Fault, Refusal};
use files::FileTable;
use host_files::disk_in;
use std::io::Write;
use std::rt::Files;

/// The files on the disk in a file of the host.
pub fn files_on<R: Files + AllocGlobal>(rt: &R, path: &str) -> Result<FileTable, Fault> {
    let device = disk_in(rt, path)?;
    match journal::recover(rt.alloc(), &device) {
        Ok(files) => Ok(files),
        Err(fault) => Err(Fault::from(fault).at(rt.alloc(), path)),
    }
}

/// Writes the bytes of the file of this name on the disk at a path. NoFile where there is none.
pub fn cat_file<R: Files + AllocGlobal, O: Write>(
    rt: &R,
    path: &str,
    name: &str,
    out: &mut O,
) -> Result<(), Fault> {
    let files = files_on(rt, path)?;
    match files.find(name.as_bytes()) {
        Some(place) => Ok(out.write_all(files.bytes(place))?),
        None => Err(Fault::from(Refusal::NoFile).at(rt.alloc(), path)),
    }
}

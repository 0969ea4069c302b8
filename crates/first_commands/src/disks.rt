//! The command `disk`: lists a disk, copies a file from it or onto it, or compares two.
use command_line::DiskTask;
use disk_files::{cat_file, files_on, print_differences, put_file};
use faults::{Fault, write_line};
use scripts::write_files;
use std::fs::File;
use std::io::Write;
use std::rt::Files;

/// The exit status where two disks differ.
const DIFFERENT: u8 = 7;

/// Prints in which files two disks differ, or how many there are where they differ in none.
fn diff_disks<R: Files + AllocGlobal, O: Write, E: Write>(
    rt: &R,
    first: &str,
    second: &str,
    out: &mut O,
    err: &mut E,
) -> Result<u8, Fault> {
    let (one, other) = (files_on(rt, first)?, files_on(rt, second)?);
    let count = print_differences(one.list(), other.list(), out)?;
    if count == 0 {
        let files = one.count();
        writeln!(out, "equal, {files} files")?;
        return Ok(0);
    }
    out.flush()?;
    write_line(err, format_args!("bench: disks differ in {count} files"))?;
    Ok(DIFFERENT)
}

/// Does what is asked with a disk. Gives the exit status.
pub fn use_disk<R: Files<File = File> + AllocGlobal, O: Write, E: Write>(
    rt: &R,
    task: DiskTask<'_>,
    out: &mut O,
    err: &mut E,
) -> Result<u8, Fault> {
    match task {
        DiskTask::List(disk) => write_files(files_on(rt, disk)?.list(), out)?,
        DiskTask::Cat(disk, name) => cat_file(rt, disk, name, out)?,
        DiskTask::Put(disk, name, from) => put_file(rt, disk, name, from)?,
        DiskTask::Diff(disk, other) => return diff_disks(rt, disk, other, out, err),
    }
    Ok(0)
}

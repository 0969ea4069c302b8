//! The command `run`: runs images by many workers, prints how processes stand, keeps the disk, and gives the exit status.
use command_line::{RunNumbers, RunOptions};
use durable_disk::HostFile;
use exec_runs::status_of;
use executor::{Run, RunFault, Settings};
use faults::{Fault, Refusal};
use kernel::Core;
use run_files::{boot, keep_disk, of_disk, print_processes};
use std::fs::File;
use std::io::{Read, Write};
use std::rt::Files;
use std::sync::Wait;
use std::thread::Threads;

/// A core before its run, and the file that holds its disk, if the run is durable.
pub type Booted = (Core, Option<HostFile>);

/// The program's fault if a run ends early.
pub fn of_run(fault: RunFault) -> Fault {
    match fault {
        RunFault::OutOfMemory => Fault::OutOfMemory,
        RunFault::DiskFailed => Fault::from(Refusal::DiskFailed),
        // (the system's reason is not known)
        RunFault::Output => Fault::from(Refusal::Output),
    }
}

/// Whether a write of the disk has failed. The core is that of a run that has ended: only a failed write leaves changes in it that
/// are not committed.
fn has_failed(core: &Core) -> bool {
    core.committed() < core.changes()
}

/// Runs a core to its end by worker threads. What terminals show goes out.
pub fn run_on<R: Threads + Wait + Sync + AllocGlobal, O: Write>(
    rt: &R,
    numbers: RunNumbers,
    booted: Booted,
    out: &mut O,
) -> Result<Core, Fault> {
    let settings = Settings {
        workers: numbers.workers,
        quantum: numbers.quantum,
        terminal: numbers.terminal,
        fail: numbers.fail,
    };
    let (core, file) = booted;
    let mut run = Run::new(rt.alloc(), settings, out).on_file(file);
    let core = run.to_end(rt, core).map_err(of_run)?;
    Ok(core)
}

/// Keeps the disk that a run leaves, if it is to be kept at the end, also if its lines did not go out. DiskFailed, after all else, if a
/// write of the disk has failed.
pub fn keep_end<R: Files<File = File> + AllocGlobal>(
    rt: &R,
    options: &RunOptions<'_>,
    core: Core,
    has_failed: bool,
    told: Result<(), Fault>,
) -> Result<(), Fault> {
    if !options.is_durable {
        keep_disk(rt, options.disk, core)?;
    }
    told?;
    if has_failed {
        return Err(Fault::from(Refusal::DiskFailed));
    }
    Ok(())
}

/// Runs a core to its end, tells of its processes, and keeps its disk, if it is to be kept at the end.
fn run_to_end<R: Files<File = File> + AllocGlobal + Threads + Wait + Sync, O: Write, E: Write>(
    rt: &R,
    options: &RunOptions<'_>,
    booted: Booted,
    explain: bool,
    out: &mut O,
    err: &mut E,
) -> Result<u8, Fault> {
    let core = run_on(rt, options.numbers, booted, out)?;
    out.flush()?;
    let told = print_processes(&core, explain, err);
    let has_failed = has_failed(&core);
    let status = options.status.map_or(0, |pid| status_of(&core, pid));
    keep_end(rt, options, core, has_failed, told)?;
    Ok(status)
}

/// Runs images to their end. What one terminal shows, or all show, is printed as it is shown. Then `err` gets a line about each
/// process. Then the disk is kept, if it is to be, also where `err` took no line; the file of a durable run holds it already.
/// DiskFailed where a write of the disk has failed. This is told after all else, and the disk is kept as a crash would leave it
/// that keeps nothing of the writes in flight. Gives the exit status where all went well: that of a process, if the options name
/// one, else 0.
pub fn run_images<
    R: Files<File = File> + AllocGlobal + Threads + Wait + Sync,
    I: Read,
    O: Write,
    E: Write,
>(
    rt: &R,
    options: &RunOptions<'_>,
    explain: bool,
    input: &mut I,
    out: &mut O,
    err: &mut E,
) -> Result<u8, Fault> {
    let (core, lock, file) = boot(rt, options, input)?;
    let done = run_to_end(rt, options, (core, file), explain, out, err);
    if let Some(lock) = lock {
        lock.release(rt);
    }
    of_disk(rt.alloc(), options.disk, done)
}

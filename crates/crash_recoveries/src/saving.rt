//! `save`: a failure as two scripts.
use crash_points::{CrashPoint, play_some};
use faults::Fault;
use host_files::write_file;
use kernel::{Core, Event};
use recovery_runs::{Failure, RecoveryProgram};
use scripts::{EventText, Launch, write_launch};
use std::alloc::Global;
use std::io::Write;
use std::rt::Files;

/// Appends a line for each event.
fn push_events(script: &mut Vec<u8>, events: &[Event]) -> Result<(), Fault> {
    for event in events {
        let line = EventText(*event);
        writeln!(script, "{line}")?;
    }
    Ok(())
}

/// The script of the run up to the crash, which ends with what was shown, and with bench's own crash.
fn run_script(
    alloc: Global,
    launch: &Launch,
    failure: &Failure,
    played: &str,
) -> Result<Vec<u8>, Fault> {
    let mut script = Vec::new(alloc);
    write_launch(alloc, launch, &mut script)?;
    script.extend_from_slice(played.as_bytes())?;
    writeln!(script, "shown 0")?;
    if !failure.point.place.is_by_rule() {
        let fill = failure.point.fill();
        writeln!(script, "crash {fill}\nfiles")?;
    }
    Ok(script)
}

/// Appends the lines of a recovery that was just booted up to a crash of it. Gives the core after that.
fn push_crashed(
    alloc: Global,
    launch: &Launch,
    core: Core,
    point: &CrashPoint,
    limit: u64,
    script: &mut Vec<u8>,
) -> Result<Core, Fault> {
    let mut core = core;
    play_some(&mut core, limit, point.events())?;
    push_events(script, core.history())?;
    let fill = point.fill();
    writeln!(script, "crash {fill}")?;
    launch.boot(alloc, Some(core.halt(fill.bytes())))
}

/// Appends the lines of the recoveries that crashed.
fn push_chain(
    alloc: Global,
    limit: u64,
    failure: &Failure,
    script: &mut Vec<u8>,
) -> Result<(), Fault> {
    let mut core = failure.launch.boot(alloc, None)?;
    for point in &failure.chain {
        core = push_crashed(alloc, &failure.launch, core, point, limit, script)?;
    }
    Ok(())
}

/// The script of the recovery, and of its crashes before.
fn recovery_script(
    alloc: Global,
    program: &RecoveryProgram,
    failure: &Failure,
) -> Result<Vec<u8>, Fault> {
    let mut script = Vec::new(alloc);
    write_launch(alloc, &failure.launch, &mut script)?;
    push_chain(alloc, program.limit, failure, &mut script)?;
    push_events(&mut script, failure.core.history())?;
    writeln!(script, "shown 0")?;
    Ok(script)
}

/// Writes a script into a folder.
fn write<R: Files + AllocGlobal>(
    rt: &R,
    folder: &str,
    name: &str,
    script: &[u8],
) -> Result<(), Fault> {
    let path = format!(in rt.alloc(); "{folder}/{name}")?;
    write_file(rt, path.as_str(), script)
}

/// Writes two scripts into a folder: `run.script`, the run up to the crash, of which the lines are given; and `recovery.script`, which
/// sets up the files that the crash left, and runs the recovery to the same end.
pub fn save<R: Files + AllocGlobal>(
    rt: &R,
    folder: &str,
    launch: &Launch,
    program: &RecoveryProgram,
    failure: &Failure,
    played: &str,
) -> Result<(), Fault> {
    let run = run_script(rt.alloc(), launch, failure, played)?;
    let recovery = recovery_script(rt.alloc(), program, failure)?;
    write(rt, folder, "run.script", run.as_slice())?;
    write(rt, folder, "recovery.script", recovery.as_slice())
}

//! A run as an object of JSON.
use crate::counts::{Counts, NUMBERS};
use crate::objects::{
    CallObject, DiskObject, FileObject, ProcessObject, RunObject, TerminalObject,
};
use call_forms::Call;
use exec_reports::{WaitText, count_left, status_of_run};
use exec_runs::Ending;
use faults::Fault;
use kernel::{Core, Standing};
use kernel_model::TERMINALS;
use scripts::bytes_text;
use std::alloc::{AllocError, Global};
use std::io::Write;
use trap_reports::trap_report;

/// From this status on a process ended by a trap.
const TRAPPED: u32 = 256;

/// A run that has ended, and how much each of its processes did.
#[derive(Clone, Copy)]
pub struct EndedRun<'c, 'n> {
    pub core: &'c Core,
    pub counts: &'n Counts,
    pub ending: Ending,
}

/// The calls that a process made, by their numbers.
fn calls_of(alloc: Global, counts: &Counts, pid: u32) -> Result<Vec<CallObject>, AllocError> {
    let mut calls = Vec::new(alloc);
    let counts = counts.of(pid);
    for number in 0..NUMBERS as u32 {
        let count = counts.calls.get(number as usize).copied().unwrap_or(0);
        if count > 0 {
            let call = Call::of(number).map_or("unknown", |call| call.form().name);
            calls.push(CallObject { call, count })?;
        }
    }
    Ok(calls)
}

/// How a process stands, and the status that it gave to `exit`.
fn state_of(core: &Core, pid: u32, standing: Standing) -> (&'static str, Option<u32>) {
    match (standing, core.tables().processes.status(pid)) {
        (Standing::Ended, Some(status)) if status >= TRAPPED => ("trapped", None),
        (Standing::Ended, status) => ("exited", status),
        (Standing::Waits, _) => ("waits", None),
        _ => ("stopped", None),
    }
}

/// Why a process trapped, or on what it waits.
fn why_of(
    alloc: Global,
    core: &Core,
    pid: u32,
    standing: Standing,
) -> Result<Option<String>, AllocError> {
    let Ok(machine) = core.machine(pid) else {
        return Ok(None);
    };
    match (standing, trap_report(machine)) {
        (Standing::Ended, Some(report)) => Ok(Some(format!(in alloc; "{report}")?)),
        (Standing::Waits, _) => {
            let wait = WaitText { core, pid };
            Ok(Some(format!(in alloc; "{wait}")?))
        }
        _ => Ok(None),
    }
}

fn process_object(
    alloc: Global,
    run: EndedRun<'_, '_>,
    pid: u32,
    standing: Standing,
) -> Result<ProcessObject, AllocError> {
    let pc = match run.core.machine(pid) {
        Ok(machine) => machine.pc(),
        Err(_) => 0,
    };
    let (state, status) = state_of(run.core, pid, standing);
    Ok(ProcessObject {
        process: pid,
        state,
        status,
        pc: format!(in alloc; "{pc:08x}")?,
        why: why_of(alloc, run.core, pid, standing)?,
        instructions: run.counts.of(pid).instructions,
        calls: calls_of(alloc, run.counts, pid)?,
    })
}

fn processes_of(alloc: Global, run: EndedRun<'_, '_>) -> Result<Vec<ProcessObject>, AllocError> {
    let mut processes = Vec::new(alloc);
    for pid in 1..=run.core.tables().processes.len() as u32 {
        if let Ok(standing) = run.core.standing(pid) {
            processes.push(process_object(alloc, run, pid, standing)?)?;
        }
    }
    Ok(processes)
}

/// A text of these bytes, if they are one.
fn text_of(alloc: Global, bytes: &[u8]) -> Result<Option<String>, AllocError> {
    match str::from_utf8(bytes) {
        Ok(text) => Ok(Some(String::from_str(alloc, text)?)),
        Err(_) => Ok(None),
    }
}

fn terminals_of(alloc: Global, core: &Core) -> Result<Vec<TerminalObject>, AllocError> {
    let mut terminals = Vec::new(alloc);
    for terminal in 0..TERMINALS as u32 {
        let shown = core.shown(terminal);
        if !shown.is_empty() {
            terminals.push(TerminalObject {
                terminal,
                text: text_of(alloc, shown)?,
                hex: bytes_text(alloc, shown)?,
            })?;
        }
    }
    Ok(terminals)
}

fn files_of(alloc: Global, core: &Core) -> Result<Vec<FileObject>, AllocError> {
    let mut found = Vec::new(alloc);
    let files = core.tables().files;
    for place in 0..files.count() {
        let name = text_of(alloc, files.name(place))?;
        found.push(FileObject {
            name: name.unwrap_or(String::new(alloc)),
            length: files.length(place),
        })?;
    }
    Ok(found)
}

/// How a run ended, in a word.
fn ending_of(core: &Core, ending: Ending) -> &'static str {
    match ending {
        Ending::Limit { .. } | Ending::Full { .. } => "limit",
        Ending::Over if count_left(core) > 0 => "deadlock",
        Ending::Over => "over",
    }
}

fn object_of(alloc: Global, run: EndedRun<'_, '_>) -> Result<RunObject, AllocError> {
    Ok(RunObject {
        status: status_of_run(run.core, run.ending),
        ending: ending_of(run.core, run.ending),
        instructions: run.core.ran(),
        processes: processes_of(alloc, run)?,
        terminals: terminals_of(alloc, run.core)?,
        files: files_of(alloc, run.core)?,
        disk: DiskObject {
            changes: run.core.changes(),
            committed: run.core.committed(),
        },
    })
}

/// Writes what is to be known of a run as one object of JSON, in a line.
pub fn write_json<W: Write>(
    alloc: Global,
    run: EndedRun<'_, '_>,
    out: &mut W,
) -> Result<(), Fault> {
    let object = object_of(alloc, run)?;
    match serde_json::to_string(alloc, &object) {
        Ok(text) => Ok(writeln!(out, "{text}")?),
        Err(_) => Err(Fault::OutOfMemory),
    }
}

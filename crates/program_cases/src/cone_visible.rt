//! The visible events of a run, those that rest on committed changes alone, beside what the whole run shows and has committed.
use crate::cone_runs::{boot_run, run_after};
use crate::cone_told::handed;
use anyhow::{Error, bail};
use core_cases::{TestCore, recover};
use files::FileList;
use kernel::{ConeFault, Event};
use kernel_model::TERMINALS;
use scripts::LastBoot;
use std::alloc::Global;

/// A run after these events, and how many changes there were before each of them, and after the last.
fn counted_run(boot: &LastBoot<'_>, events: &[Event]) -> Result<(TestCore, Vec<u64>), Error> {
    let mut run = boot_run(boot)?;
    let mut counts = Vec::new(boot.alloc);
    counts.push(run.changes())?;
    for event in events {
        run.apply_once(*event)?;
        counts.push(run.changes())?;
    }
    Ok((run, counts))
}

/// Whether the event of this number makes no change, or one of the first so many.
fn is_committed(counts: &[u64], number: u64, committed: u64) -> Result<bool, Error> {
    let after = usize::try_from(number)?;
    match (counts.get(after.saturating_sub(1)), counts.get(after)) {
        (Some(before), Some(after)) => Ok(before == after || *after <= committed),
        _ => bail!("a cone has event {number}, which there is not"),
    }
}

fn are_committed(counts: &[u64], numbers: &[u64], committed: u64) -> Result<bool, Error> {
    for number in numbers {
        if !is_committed(counts, *number, committed)? {
            return Ok(false);
        }
    }
    Ok(true)
}

/// Whether an event is of a process, and rests on committed changes alone.
fn is_visible(run: &TestCore, counts: &[u64], number: u64) -> Result<bool, Error> {
    match run.cone(number) {
        Ok(cone) => are_committed(counts, cone.as_slice(), run.committed()),
        Err(ConeFault::NoEvent) => Ok(false),
        Err(ConeFault::OutOfMemory) => bail!("out of memory"),
    }
}

/// The visible events of a run, in order.
fn visible_events(alloc: Global, run: &TestCore, counts: &[u64]) -> Result<Vec<Event>, Error> {
    let mut visible = Vec::new(alloc);
    for (number, event) in (1u64..).zip(run.history()) {
        if is_visible(run, counts, number)? {
            visible.push(*event)?;
        }
    }
    Ok(visible)
}

/// Checks that each terminal shows a beginning of what it shows in the run of the visible events.
fn check_terminals(run: &TestCore, alone: &TestCore) -> Result<(), Error> {
    for terminal in 0..TERMINALS as u32 {
        if !alone.shown(terminal).starts_with(run.shown(terminal)) {
            bail!("terminal {terminal} shows what the visible events do not give");
        }
    }
    Ok(())
}

/// Checks that each process that is there in the run of the visible events is handed the same in both.
fn check_processes(alloc: Global, run: &TestCore, alone: &TestCore) -> Result<(), Error> {
    for pid in 1..u32::MAX {
        if alone.replies(pid).is_err() {
            return Ok(());
        }
        if handed(alloc, run, pid, 0)? != handed(alloc, alone, pid, 0)? {
            bail!("process {pid} is handed something else by the visible events");
        }
    }
    Ok(())
}

fn are_same(one: &FileList, other: &FileList) -> bool {
    if one.count() != other.count() {
        return false;
    }
    for place in 0..one.count() {
        if one.name(place) != other.name(place) || one.bytes(place) != other.bytes(place) {
            return false;
        }
    }
    true
}

/// Checks that the committed changes and files of a run are those of the run of its visible events. Both end.
fn check_files(alloc: Global, run: TestCore, alone: TestCore) -> Result<(), Error> {
    if run.committed() != alone.changes() {
        bail!("the visible events do not make the committed changes");
    }
    let files = recover(alloc, &run.halt(b""))?;
    let alone = recover(alloc, &alone.halt(b""))?;
    if are_same(files.list(), alone.list()) {
        Ok(())
    } else {
        bail!("the committed files are not those of the visible events")
    }
}

/// Checks a run after these events: its visible events by themselves, all their changes committed, have to give what is committed,
/// shown and handed out.
pub fn check_visible(boot: &LastBoot<'_>, events: &[Event]) -> Result<(), Error> {
    let (run, counts) = counted_run(boot, events)?;
    let visible = visible_events(boot.alloc, &run, counts.as_slice())?;
    let mut alone = run_after(boot, visible.as_slice())?;
    alone.drain()?;
    check_terminals(&run, &alone)?;
    check_processes(boot.alloc, &run, &alone)?;
    check_files(boot.alloc, run, alone)
}

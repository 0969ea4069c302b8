//! Failures of each write of a group of `talker.s`, whose changes are those of `writer.s`, and which also writes to its terminal.
use crate::changers::Changer;
use crate::cores::{Source, TestCore};
use crate::crashes::{FILLS, Origin, Run, WRITER, one_source};
use anyhow::{Error, bail, ensure};
use kernel::{Answer, Event, Refused, SimDisk};
use std::alloc::Global;
use std::rt::Files;

/// The making of the file, a group, and the first checkpoint.
const TALKER_RUN: Run = Run {
    changer: Changer::Writer,
    sizes: WRITER,
    groups: &[0, 1, 16],
};

/// The write in flight that begins first fails; then no group is cut any more.
fn fail_first(core: &mut TestCore) -> Result<(), Error> {
    let Some(at) = core.in_flight() else {
        bail!("no write is in flight");
    };
    let failed = core.apply(Event::Fail { at })?;
    ensure!(matches!(failed, Ok(Answer::Failed)), "this was no failure");
    let cut = core.apply(Event::Cut)?;
    ensure!(
        matches!(cut, Err(Refused::DiskFailed)),
        "a group is cut after a failure"
    );
    Ok(())
}

/// Completes all that is in flight, which commits nothing more.
fn complete_rest(core: &mut TestCore) -> Result<(), Error> {
    let committed = core.committed();
    for _ in 0..100 {
        let Some(at) = core.in_flight() else {
            return Ok(());
        };
        let completed = core.apply(Event::Complete { at })??;
        ensure!(
            matches!(completed, Answer::Completed { committed: now } if now == committed),
            "changes are committed after a failure"
        );
    }
    bail!("there is no end of writes")
}

/// A write fails. The program goes on to write and to talk, what it says stays held back, and what else is in flight is completed.
fn fail(core: &mut TestCore) -> Result<(), Error> {
    let shown = core.shown(0).len();
    fail_first(core)?;
    core.change_up_to(core.changes().saturating_add(20))?;
    complete_rest(core)?;
    core.change_up_to(core.changes().saturating_add(20))?;
    ensure!(
        core.shown(0).len() == shown && !core.wants_cut(),
        "output is shown after a failure"
    );
    Ok(())
}

/// In a run for each write of a group that write fails. Then it crashes with this fill. Gives how many writes there are.
fn fail_group(alloc: Global, origin: Origin<'_>, group: u32, fill: &[u8]) -> Result<u64, Error> {
    for completed in 0..100 {
        let (mut core, writes) = origin.cut(alloc, group)?;
        if completed == writes {
            return Ok(writes);
        }
        core.commit(completed)?;
        fail(&mut core)?;
        origin.crash(alloc, core, fill)?;
    }
    bail!("group {group} has no end")
}

fn fail_groups(alloc: Global, sources: &[Source], fill: &[u8]) -> Result<u64, Error> {
    let device = SimDisk::zero(alloc)?;
    let mut writes = 0u64;
    for group in TALKER_RUN.groups {
        let origin = TALKER_RUN.origin(sources, &device);
        writes = writes.saturating_add(fail_group(alloc, origin, *group, fill)?);
    }
    Ok(writes)
}

/// All failures of the talker, which is read from `talker.s`, with each fill.
pub fn fail_talker<R: Files + AllocGlobal>(rt: &R) -> Result<String, Error> {
    let sources = one_source(rt, "talker.s")?;
    let mut writes = 0u64;
    for fill in FILLS {
        writes = writes.saturating_add(fail_groups(rt.alloc(), sources.as_slice(), fill)?);
    }
    Ok(format!(in rt.alloc(); "failures of {writes} writes, each before a crash")?)
}

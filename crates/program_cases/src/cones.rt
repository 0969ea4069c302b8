//! Compares what each event of a process tells in a run, and in the run of its cone alone. The first event that rests on more than
//! its cone has is an error, which says the event. The contracts of `Core::cone` and the law `cones` promise that there is none, by
//! the definitions. One of these is the table that says what a call reads and writes. So here the calls themselves are run.
use crate::cone_runs::{boot_run, run_after};
use crate::cone_told::told_by;
use crate::cone_visible::check_visible;
use anyhow::{Error, bail};
use kernel::{Core, Event};
use scripts::{LastBoot, Script, Visitor, cone_events, play_all, process_of};
use std::rt::Files;

/// The most events of a run that are compared. Each is run with its cone, so the time grows with their number and the run's length.
const MOST_COMPARED: usize = 400;

/// What the event of this number, one of this process, tells in the run of its cone alone.
fn told_alone(boot: &LastBoot<'_>, whole: &Core, number: u64, pid: u32) -> Result<Vec<u8>, Error> {
    let alloc = boot.alloc;
    let cone = cone_events(alloc, whole, number)?;
    let Some((last, before)) = cone.split_last() else {
        bail!("the cone of event {number} is empty");
    };
    let mut alone = run_after(boot, before)?;
    told_by(alloc, &mut alone, *last, pid)
}

/// Whether the event of this number is compared in a run of `count` events: each, or where there are too many, each ninth,
/// seventeenth, .. back from the last. A Turn and its Enter come one after the other, so that an odd step comes to both.
fn is_compared(number: u64, count: usize) -> bool {
    let step = count / MOST_COMPARED * 8 + 1;
    (count as u64).saturating_sub(number) % step as u64 == 0
}

/// Checks that events of processes tell in the runs of their cones alone what they tell in the whole run. The changes are committed
/// here by drains, so the events of the disk are left out.
fn check_each(boot: &LastBoot<'_>, whole: &Core) -> Result<(), Error> {
    let mut run = boot_run(boot)?;
    for (number, event) in (1u64..).zip(whole.history()) {
        match process_of(*event) {
            Some(pid) if is_compared(number, whole.history().len()) => {
                let told = told_by(boot.alloc, &mut run, *event, pid)?;
                if told != told_alone(boot, whole, number, pid)? {
                    bail!("event {number} tells something else in the run of its cone");
                }
            }
            Some(_) => {
                run.apply_once(*event)?;
            }
            None => {}
        }
    }
    Ok(())
}

/// Checks what is visible after each completion of a run, and at its end.
fn check_moments(boot: &LastBoot<'_>, events: &[Event]) -> Result<(), Error> {
    for (place, event) in events.iter().enumerate() {
        if matches!(event, Event::Complete { .. }) {
            check_visible(boot, &events[..place + 1])?;
        }
    }
    check_visible(boot, events)
}

/// The visitor that checks the runs of a script while it is played.
#[derive(Drop)]
struct Checker<'a> {
    boot: LastBoot<'a>,
}

impl Checker<'_> {
    /// Checks a run from its boot on.
    fn check(&self, whole: &Core) -> Result<(), Error> {
        check_each(&self.boot, whole)?;
        check_moments(&self.boot, whole.history())
    }
}

impl Visitor for Checker<'_> {
    type Fault = Error;

    fn crash(&mut self, core: Core, fill: &[u8]) -> Result<Core, Error> {
        self.check(&core)?;
        Ok(self.boot.crash(core, fill)?)
    }
}

/// Checks the runs of a script, from each boot to its crash or to the end, with each event's cone beside them:
/// - What an event of a process tells in the run of its cone alone is what it tells in the whole run: its answer, its reply, its
///   output, and its end. Of a run of 400 events or more, each ninth, seventeenth, .. is compared, back from the last.
/// - After each completion, and at the end, the visible events are run by themselves. They make as many changes as are committed, and
///   leave the committed files. What a terminal shows is a beginning of what it shows in that run. What is handed out to each process
///   that is there, its end included, is what it is handed in that run.
///
/// Want of memory is an error. A line of the script that is refused otherwise adds no event.
pub fn check_cones<R: Files + AllocGlobal>(rt: &R, text: &str) -> Result<(), Error> {
    let (setup, steps) = Script::parse(rt.alloc(), text)?.into_parts();
    let launch = setup.read(rt)?;
    let mut checker = Checker {
        boot: LastBoot::new(rt.alloc(), &launch),
    };
    let core = checker.boot.boot()?;
    let core = play_all(&mut checker, core, steps.as_slice())?;
    checker.check(&core)
}

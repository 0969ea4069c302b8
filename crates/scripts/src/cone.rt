//! `replay --cone N`: runs the cone of event N alone, and prints the events on which event N rests, and what it tells.
use crate::last_boot::LastBoot;
use crate::playing::play_all;
use crate::printing::{bytes_text, print_answer, print_reply};
use crate::script::Script;
use crate::steps::{Step, process_of};
use crate::texts::EventText;
use faults::{Fault, Refusal};
use kernel::{ConeFault, Core, Event};
use kernel_model::TERMINALS;
use machine_model::Reply;
use std::alloc::Global;
use std::io;
use std::io::Write;
use std::rt::Files;

/// The numbers of the events in the cone of event number `event`, in order. `Refusal::Event`: there is no such event, or it is a Cut,
/// a Complete or a Fail.
pub fn cone_numbers(core: &Core, event: u64) -> Result<Vec<u64>, Fault> {
    match core.cone(event) {
        Ok(numbers) => Ok(numbers),
        Err(ConeFault::NoEvent) => Err(Fault::from(Refusal::Event { event })),
        Err(ConeFault::OutOfMemory) => Err(Fault::OutOfMemory),
    }
}

/// The event of this number in a history, counted from 1.
fn event_numbered(history: &[Event], number: u64) -> Option<Event> {
    let place = usize::try_from(number.checked_sub(1)?).ok()?;
    history.get(place).copied()
}

/// The events in the cone of the event of this number, as `cone_numbers` has them.
pub fn cone_events(alloc: Global, core: &Core, event: u64) -> Result<Vec<Event>, Fault> {
    let numbers = cone_numbers(core, event)?;
    let history = core.history();
    Ok(
        numbers
            .iter()
            .filter_map(|number| event_numbered(history, *number))
            .collect(alloc)?,
    )
}

/// A core after events, each of which is printed as a line of a script, with its answer.
fn print_run<O: Write>(boot: &LastBoot<'_>, events: &[Event], out: &mut O) -> Result<Core, Fault> {
    let mut core = boot.boot()?;
    for event in events {
        let text = EventText(*event);
        writeln!(out, "{text}")?;
        print_answer(core.apply(*event), out)?;
    }
    Ok(core)
}

/// The replies to a process that are handed out; none where there is no such process.
fn replies_to(core: &Core, pid: u32) -> &[Reply] {
    match core.trace(pid) {
        Ok(replies) => replies,
        Err(_) => &[],
    }
}

/// Prints what a terminal shows in one run alone, if there is anything.
fn print_output<O: Write>(
    alloc: Global,
    terminal: u32,
    bytes: &[u8],
    out: &mut O,
) -> io::Result<()> {
    if bytes.is_empty() {
        return Ok(());
    }
    let digits = bytes_text(alloc, bytes)?;
    writeln!(out, "output {terminal} {digits}")
}

/// Prints what a process's event tells: what a drained run with it has that the same run without it has not.
fn print_told<O: Write>(
    alloc: Global,
    with: &Core,
    without: &Core,
    pid: u32,
    out: &mut O,
) -> io::Result<()> {
    if let Some(reply) = replies_to(with, pid).get(replies_to(without, pid).len()) {
        write!(out, "reply ")?;
        print_reply(alloc, reply, out)?;
    }
    for terminal in 0..TERMINALS as u32 {
        let before = without.shown(terminal).len();
        let bytes = with.shown(terminal).get(before..).unwrap_or(&[]);
        print_output(alloc, terminal, bytes, out)?;
    }
    match (with.ended(pid), without.ended(pid)) {
        (Ok(Some(status)), Ok(None)) => writeln!(out, "ended {status}"),
        _ => Ok(()),
    }
}

/// Commits all changes of a run in which no write fails. Only want of memory or of room in the history is a fault.
fn drain(core: &mut Core) -> Result<(), Fault> {
    match core.drain() {
        Ok(()) => Ok(()),
        Err(_) => Err(Fault::OutOfMemory),
    }
}

/// Runs a cone alone, and prints how many events and changes it has, and each event with its answer. Gives the core after it.
fn print_events<O: Write>(
    boot: &LastBoot<'_>,
    events: &[Event],
    out: &mut O,
) -> Result<Core, Fault> {
    let mut lines = Vec::new(boot.alloc);
    let core = print_run(boot, events, &mut lines)?;
    let (count, changes) = (events.len(), core.changes());
    writeln!(out, "cone {count} events {changes} changes")?;
    out.write_all(lines.as_slice())?;
    Ok(core)
}

/// The process of the last event of a list, and the events before that event. None where the list is empty, or its last event is
/// one of the disk.
fn last_of(events: &[Event]) -> Option<(u32, &[Event])> {
    let (last, before) = events.split_last()?;
    Some((process_of(*last)?, before))
}

/// Prints a cone that is run alone: how many events and changes it has, each event with its answer, and what the last one tells.
fn print_cone<O: Write>(boot: &LastBoot<'_>, events: &[Event], out: &mut O) -> Result<(), Fault> {
    let mut with = print_events(boot, events, out)?;
    let Some((pid, before)) = last_of(events) else {
        return Ok(());
    };
    let mut without = print_run(boot, before, &mut io::sink())?;
    drain(&mut with)?;
    drain(&mut without)?;
    Ok(print_told(boot.alloc, &with, &without, pid, out)?)
}

/// Runs a script without printing, and gives the events in the cone of an event of its last boot.
fn cone_of(boot: &mut LastBoot<'_>, steps: &[Step], event: u64) -> Result<Vec<Event>, Fault> {
    let core = boot.boot()?;
    let core = play_all(boot, core, steps)?;
    cone_events(boot.alloc, &core, event)
}

/// Runs a script without printing, and takes the events since its last boot. Of these it prints the cone of event number `event`,
/// counted from 1: the events on which that event rests, and the event itself. The cone is run alone, on the disk of that boot. It
/// prints
/// - `cone C events D changes`: how many events the cone has, and how many changes they make;
/// - each of these events as a line of a script, and its answer in the run of the cone alone;
/// - what the event itself tells: `reply` and a line of a trace, where it was replied to; `output T HEX`, where it wrote to a
///   terminal; `ended S`, where its process ended by it. This is the difference between the run of the cone and the same run
///   without the event, each with all its changes committed.
///
/// `Refusal::Event`: there is no such event, or it is a Cut, a Complete or a Fail.
pub fn replay_cone<R: Files + AllocGlobal, O: Write>(
    rt: &R,
    script: Script,
    event: u64,
    out: &mut O,
) -> Result<(), Fault> {
    let (setup, steps) = script.into_parts();
    let launch = setup.read(rt)?;
    let mut boot = LastBoot::new(rt.alloc(), &launch);
    let events = cone_of(&mut boot, steps.as_slice(), event)?;
    print_cone(&boot, events.as_slice(), out)
}

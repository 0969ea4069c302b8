//! A run as a script.
use faults::Fault;
use kernel::{Core, Event};
use kernel_model::TERMINALS;
use scripts::{Action, EventText, Launch, Step, write_launch};
use std::alloc::{AllocError, Global};
use std::io::Write;

/// The steps of a script that apply these events.
pub fn steps_of(alloc: Global, history: &[Event]) -> Result<Vec<Step>, AllocError> {
    let mut steps = Vec::new(alloc);
    for event in history {
        steps.push(Step::Act(Action::Apply(*event)))?;
    }
    Ok(steps)
}

/// Writes a script that replays a run of what is set up: the set-up lines, a line for each event, and last one for each terminal that shows
/// something.
pub fn write_script<W: Write>(
    alloc: Global,
    launch: &Launch,
    core: &Core,
    out: &mut W,
) -> Result<(), Fault> {
    write_launch(alloc, launch, out)?;
    for event in core.history() {
        let line = EventText(*event);
        writeln!(out, "{line}")?;
    }
    for terminal in 0..TERMINALS as u32 {
        if !core.shown(terminal).is_empty() {
            writeln!(out, "shown {terminal}")?;
        }
    }
    Ok(())
}

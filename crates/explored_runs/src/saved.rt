//! The run of an outcome as a script.
use faults::Fault;
use kernel::Event;
use kernel_model::TERMINALS;
use replayed_runs::Replay;
use scripts::{EventText, Launch, write_launch};
use std::alloc::{AllocError, Global};
use std::io;
use std::io::Write;

/// The set-up lines of a script.
pub fn launch_lines(alloc: Global, launch: &Launch) -> io::Result<Vec<u8>> {
    let mut lines = Vec::new(alloc);
    write_launch(alloc, launch, &mut lines)?;
    Ok(lines)
}

/// A line for each event.
pub fn lines_of(alloc: Global, events: &[Event]) -> Result<String, AllocError> {
    let mut lines = String::new(alloc);
    for event in events {
        let event = EventText(*event);
        writeln!(lines, "{event}")?;
    }
    Ok(lines)
}

/// A script that does a run, has those that wait try their calls again, commits all, and asks what was shown. The set-up lines come
/// first. None of its lines is refused: a process that runs on is not asked to enter.
pub fn script_of(alloc: Global, launch: &[u8], replay: &Replay) -> Result<Vec<u8>, Fault> {
    let mut text = Vec::from_slice(alloc, launch)?;
    let lines = lines_of(alloc, replay.core.history())?;
    text.extend_from_slice(lines.as_bytes())?;
    for pid in 1..=replay.last_process() {
        if replay.is_to_enter(pid) {
            writeln!(text, "enter {pid}")?;
        }
    }
    writeln!(text, "drain")?;
    for terminal in 0..TERMINALS as u32 {
        if !replay.core.written(terminal).is_empty() {
            writeln!(text, "shown {terminal}")?;
        }
    }
    Ok(text)
}

//! The outcome of a run that was replayed.
ghost use Rattle.std.specs.Prelude.{◌≡◌, IfOk};

use crate::ends::{End, end_of};
use crash_outcomes::outcome_of as files_of;
use faults::Fault;
use kernel::Core;
use kernel_model::TERMINALS;
use order_outcomes::Outcome;
use replayed_runs::Replay;
use scripts::bytes_text;
use std::alloc::{AllocError, Global};

/// Appends what each terminal has to which something was written: ` T:HEX`; or ` -`.
fn push_texts(alloc: Global, core: &Core, text: &mut String) -> Result<(), AllocError> {
    let mut is_silent = true;
    for terminal in 0..TERMINALS as u32 {
        let written = core.written(terminal);
        if !written.is_empty() {
            let bytes = bytes_text(alloc, written)?;
            write!(text, " {terminal}:{bytes}")?;
            is_silent = false;
        }
    }
    if is_silent {
        text.push_str(" -")?;
    }
    Ok(())
}

/// Appends how each process stands. Whether one runs on.
fn push_ends(replay: &mut Replay, text: &mut String) -> Result<bool, Fault> {
    let mut runs_on = false;
    for pid in 1..=replay.last_process() {
        let end = end_of(replay, pid)?;
        write!(text, " {pid}:{end}")?;
        runs_on = runs_on || matches!(end, End::RunsOn);
    }
    Ok(runs_on)
}

/// The outcome of a run in which no process can go on: `ends`, and how each process stands; `shown`, and what each terminal has; and
/// the files as `bench crashes` prints them.
pub fn outcome_of(alloc: Global, calls: &[u32], replay: &mut Replay) -> Result<Outcome, Fault>
    ensures { IfOk result (λ outcome. outcome.calls.items ≡ calls.now) }
{
    let mut text = String::from_str(alloc, "ends")?;
    let runs_on = push_ends(replay, &mut text)?;
    text.push_str(" shown")?;
    push_texts(alloc, &replay.core, &mut text)?;
    let files = files_of(alloc, replay.core.tables().files.list())?;
    text.push_str(" ")?;
    text.push_str(files.as_str())?;
    let calls = Vec::from_slice(alloc, calls)?;
    Ok(Outcome {
        text,
        calls,
        runs_on,
    })
}

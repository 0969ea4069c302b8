//! What a run tells, as text: the replies to a process with its end, and what terminals show.
use anyhow::{Error, bail};
use core_cases::TestCore;
use kernel::Event;
use kernel_model::TERMINALS;
use scripts::{AnswerText, bytes_text, print_reply};
use std::alloc::Global;
use std::io::Write;

/// The replies to a process after the first so many, and the status with which it ended, as far as both are handed out.
pub fn handed(alloc: Global, run: &TestCore, pid: u32, replies: usize) -> Result<Vec<u8>, Error> {
    let mut text = Vec::new(alloc);
    for reply in run.replies(pid)?.iter().skip(replies) {
        print_reply(alloc, reply, &mut text)?;
    }
    if let Some(status) = run.ended(pid)? {
        writeln!(text, "ended {status}")?;
    }
    Ok(text)
}

/// How many bytes each terminal shows.
fn lengths_shown(alloc: Global, run: &TestCore) -> Result<Vec<usize>, Error> {
    let mut lengths = Vec::new(alloc);
    for terminal in 0..TERMINALS as u32 {
        lengths.push(run.shown(terminal).len())?;
    }
    Ok(lengths)
}

/// What each terminal shows beyond its first bytes, of which these are the numbers.
fn shown_since(alloc: Global, run: &TestCore, lengths: &[usize]) -> Result<Vec<u8>, Error> {
    let mut text = Vec::new(alloc);
    for (terminal, length) in (0u32..).zip(lengths) {
        let Some(bytes) = run.shown(terminal).get(*length..) else {
            bail!("terminal {terminal} shows less than before");
        };
        let digits = bytes_text(alloc, bytes)?;
        writeln!(text, "shown {terminal} {digits}")?;
    }
    Ok(text)
}

/// What an event of this process tells: its answer, the reply, what is written to terminals, and how the process ended. All changes
/// are committed before it and after it.
pub fn told_by(
    alloc: Global,
    run: &mut TestCore,
    event: Event,
    pid: u32,
) -> Result<Vec<u8>, Error> {
    run.drain()?;
    let lengths = lengths_shown(alloc, run)?;
    let replies = run.replies(pid)?.len();
    let answer = AnswerText(run.apply_once(event)?);
    run.drain()?;
    let mut text = handed(alloc, run, pid, replies)?;
    let shown = shown_since(alloc, run, lengths.as_slice())?;
    text.extend_from_slice(shown.as_slice())?;
    writeln!(text, "{answer}")?;
    Ok(text)
}

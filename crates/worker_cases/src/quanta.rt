//! Runs by two workers with quanta of their own.
ghost use Rattle.std.specs.Prelude.{◌≤◌};

use crate::fault::Fault;
use crate::programs::boot;
use crate::two_workers::settings;
use executor::Run;
use kernel::{Core, Event};
use std::alloc::Global;
use std::sync::Wait;
use std::thread::Threads;

/// The first two end Turns, and the last is longer than any.
const QUANTA: [u32; 3] = [1, 4, 100];

/// Runs both programs with each quantum. Says how many instructions the longest Turn has.
pub fn play<R: Threads + Wait + Sync>(
    rt: &R,
    alloc: Global,
    line: &mut String,
) -> Result<(), Fault> {
    write!(line, "two workers, and the longest Turn by a quantum")?;
    for quantum in QUANTA {
        play_one(rt, alloc, boot(alloc)?, quantum.max(1), line)?;
    }
    Ok(())
}

/// Runs a core with a quantum.
fn play_one<R: Threads + Wait + Sync>(
    rt: &R,
    alloc: Global,
    core: Core,
    quantum: u32,
    line: &mut String,
) -> Result<(), Fault>
    requires { 1 ≤ quantum }
{
    let mut out = Vec::new(alloc);
    let core = Run::new(alloc, settings(quantum), &mut out).to_end(rt, core)?;
    let longest = longest_turn(&core);
    Ok(write!(line, "; {quantum}: {longest}")?)
}

/// How many instructions the longest Turn of a core's history has.
fn longest_turn(core: &Core) -> u32 {
    let mut longest = 0;
    for event in core.history() {
        if let Event::Turn { n, .. } = event {
            longest = longest.max(*n);
        }
    }
    longest
}

//! `explore`: what each crash of a run leaves.
use crash_outcomes::Explorer;
use crash_points::{Course, RunEnd, play};
use faults::Fault;
use scripts::Launch;
use std::alloc::Global;
use std::io::Write;

/// Runs what is set up, and tries crashes right after each boot and after each event that the disk sees: one with each of the fills 00,
/// 01, 7f ff and none. Each outcome, the files that a crash leaves, is printed when it is found for the first time, and at the end
/// how many crashes and how many outcomes there were. What the lines of a script would print is not printed, and an event that is
/// refused is passed over. Gives how the run ended.
///
/// Where outcomes are expected, one on a line as it is printed from `files` on, the first that is not among them ends the run. The
/// expectations are read first.
pub fn explore<O: Write>(
    alloc: Global,
    launch: &Launch,
    course: &Course,
    expected: Option<&str>,
    out: &mut O,
) -> Result<RunEnd, Fault> {
    let mut explorer = Explorer::new(alloc, launch, expected, out)?;
    let core = explorer.begin()?;
    let end = play(&mut explorer, core, course)?;
    explorer.finish(end.core.as_ref())?;
    Ok(end)
}

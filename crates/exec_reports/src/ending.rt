//! Why a run ended.
use crate::family::Family;
use crate::lines::print_processes;
use exec_runs::{Ending, status_of};
use faults::{Fault, write_line};
use kernel::{Core, Standing};
use std::io::{self, Write};

/// The exit status at a limit of instructions.
const LIMITED: u8 = 124;

/// The exit status if some process has not ended, and none may go on.
const STUCK: u8 = 126;

/// From this status on a process ended by a trap.
const TRAPPED: u32 = 256;

/// How many processes have not ended.
pub fn count_left(core: &Core) -> u32 {
    let mut count = 0u32;
    for pid in 1..=core.tables().processes.len() as u32 {
        if !matches!(core.standing(pid), Ok(Standing::Ended)) {
            count = count.saturating_add(1);
        }
    }
    count
}

/// Whether the first process ended by a trap, if its end is not held back.
fn is_trapped(core: &Core) -> Option<bool> {
    match core.ended(1) {
        Ok(Some(status)) => Some(status >= TRAPPED),
        _ => None,
    }
}

/// The exit status of a run: 124 at a limit; else 128 and the cause of the first program's trap; else 126 if some process has not
/// ended; else the first program's own status.
pub fn status_of_run(core: &Core, ending: Ending) -> u8 {
    match ending {
        Ending::Limit { .. } | Ending::Full { .. } => LIMITED,
        Ending::Over if is_trapped(core) == Some(true) || count_left(core) == 0 => {
            status_of(core, 1)
        }
        Ending::Over => STUCK,
    }
}

/// Prints why a run is over in which no process may go on; nothing if each has ended, and the first by `exit` with status 0, or by
/// a trap, which has a line of its own.
fn print_over<E: Write>(core: &Core, err: &mut E) -> io::Result<()> {
    let left = count_left(core);
    if left > 0 {
        return write_line(
            err,
            format_args!("bench: deadlock: nothing can go on; processes that wait: {left}"),
        );
    }
    let status = status_of(core, 1);
    if status == 0 || is_trapped(core) != Some(false) {
        return Ok(());
    }
    write_line(
        err,
        format_args!("bench: process 1 ended with status {status}"),
    )
}

/// Prints why a run ended, and a line for each process that trapped or has not ended. Nothing if each process ended by `exit`, and
/// the first with status 0.
pub fn print_ending<E: Write>(
    core: &Core,
    family: &Family,
    ending: Ending,
    err: &mut E,
) -> Result<(), Fault> {
    match ending {
        Ending::Limit { instructions } => write_line(
            err,
            format_args!("bench: the limit of {instructions} instructions is reached"),
        )?,
        Ending::Full { pid } => write_line(
            err,
            format_args!("bench: process {pid} has run 2^40 instructions, the most of a process"),
        )?,
        Ending::Over => print_over(core, err)?,
    }
    print_processes(core, family, err)
}

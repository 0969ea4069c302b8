//! A line for each process of which there is something to say.
use crate::family::Family;
use crate::places::{StandText, WaitText};
use faults::{Fault, write_line};
use kernel::{Core, Standing};
use std::io::{self, Write};
use trap_reports::trap_report;

/// Prints of a process that ended by a trap what that was about, and nothing of an `exit`. Of an end that is held back it says that alone.
fn print_end<E: Write>(core: &Core, stand: StandText<'_, '_>, err: &mut E) -> io::Result<()> {
    let pid = stand.pid;
    let Ok(machine) = core.machine(pid) else {
        return Ok(());
    };
    match (core.ended(pid), trap_report(machine)) {
        (Ok(None), _) => write_line(
            err,
            format_args!(
                "bench: process {pid} has ended, which is held back: it rests on changes that are not on the disk"
            ),
        ),
        (_, Some(report)) => {
            write_line(err, format_args!("bench: process {pid}: {report}{stand}"))
        }
        _ => Ok(()),
    }
}

/// Prints a line for each process that ended by a trap, and for each that has not ended, by rising number.
pub fn print_processes<E: Write>(core: &Core, family: &Family, err: &mut E) -> Result<(), Fault> {
    for pid in 1..=core.tables().processes.len() as u32 {
        let stand = StandText { core, family, pid };
        let pc = core.machine(pid).map_or(0, |machine| machine.pc());
        match core.standing(pid) {
            Ok(Standing::Ended) => print_end(core, stand, err)?,
            Ok(Standing::Waits) => {
                let wait = WaitText { core, pid };
                write_line(
                    err,
                    format_args!("bench: process {pid} waits in {wait}; at pc {pc:08x}{stand}"),
                )?;
            }
            _ => write_line(
                err,
                format_args!("bench: process {pid} stands at pc {pc:08x}{stand}"),
            )?,
        }
    }
    Ok(())
}

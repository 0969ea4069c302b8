//! Prints how processes stand at the end of a run, a line each.
use faults::{Fault, write_line};
use kernel::{Core, Refused, Standing};
use std::io::Write;
use trap_reports::trap_report;

/// Prints a line about the trap by which a process ended, if it ended by one. An end that is held back tells nothing.
fn print_trap<E: Write>(core: &Core, pid: u32, err: &mut E) -> Result<(), Fault> {
    if let Ok(Some(_)) = core.ended(pid)
        && let Ok(machine) = core.machine(pid)
        && let Some(report) = trap_report(machine)
    {
        write_line(err, format_args!("process {pid}: {report}"))?;
    }
    Ok(())
}

/// Prints the status with which a process ended, or that it is held back.
fn print_end<E: Write>(
    pid: u32,
    status: Result<Option<u32>, Refused>,
    err: &mut E,
) -> Result<(), Fault> {
    match status {
        Ok(Some(status)) => write_line(err, format_args!("process {pid} ended {status}"))?,
        _ => write_line(err, format_args!("process {pid} held"))?,
    }
    Ok(())
}

fn print_process<E: Write>(
    core: &Core,
    pid: u32,
    standing: Standing,
    err: &mut E,
) -> Result<(), Fault> {
    match standing {
        Standing::Ended => print_end(pid, core.ended(pid), err),
        Standing::Waits => Ok(write_line(err, format_args!("process {pid} waits"))?),
        Standing::Free | Standing::Lent => Ok(write_line(
            err,
            format_args!("process {pid} stopped"),
        )?),
    }
}

/// Prints a line for each process, by rising number, each by one write. With `explain` a line about its trap follows where a
/// process ended by one.
pub fn print_processes<E: Write>(core: &Core, explain: bool, err: &mut E) -> Result<(), Fault> {
    for pid in 1..=u32::MAX {
        match core.standing(pid) {
            Ok(standing) => print_process(core, pid, standing, err)?,
            Err(_) => return Ok(()),
        }
        if explain {
            print_trap(core, pid, err)?;
        }
    }
    Ok(())
}

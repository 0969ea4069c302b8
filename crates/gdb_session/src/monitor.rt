//! `print_answer`: answers the commands that a person gives by gdb's `monitor`.
use crate::session::Session;
use gdb_packets::{COMMANDS, Command};
use journal::{DiskFault, recover};
use kernel::Core;
use scripts::{print_reply, write_files};
use std::alloc::Global;
use std::io;
use std::io::Write;
use timeline::SessionFault;

fn print_trace<O: Write>(alloc: Global, core: &Core, pid: u32, out: &mut O) -> io::Result<()> {
    let Ok(replies) = core.trace(pid) else {
        return Ok(());
    };
    for reply in replies {
        print_reply(alloc, reply, out)?;
    }
    Ok(())
}

fn print_count<O: Write>(session: &Session, out: &mut O) -> io::Result<()> {
    let count = session.timeline.count();
    let top = session.timeline.top();
    let calls = session.history.calls().count();
    writeln!(out, "count {count} of {top} reached, calls {calls}")
}

fn print_replies<O: Write>(session: &Session, out: &mut O) -> io::Result<()> {
    match &session.timeline.live {
        Some(live) => print_trace(session.alloc, live.core(), live.process(), out),
        None => out.write_all(b"the trace is that of the file\n"),
    }
}

fn print_disk(session: &Session, out: &mut Vec<u8>) -> Result<(), SessionFault> {
    let Some(disk) = session.disk()? else {
        return Ok(out.write_all(b"no kernel runs, and no disk\n")?);
    };
    match recover(session.alloc, &disk) {
        Ok(table) => Ok(write_files(table.list(), out)?),
        Err(DiskFault::OutOfMemory) => Err(SessionFault::OutOfMemory),
        Err(fault) => Ok(writeln!(out, "disk refused: {fault:?}")?),
    }
}

fn set_limit<O: Write>(session: &mut Session, count: u64, out: &mut O) -> io::Result<()> {
    session.stop_at(count);
    writeln!(out, "the next run on stops at count {count}")
}

/// Prints the answer to a command. `keep` comes here only where no kernel runs.
pub fn print_answer(
    session: &mut Session,
    command: Command,
    out: &mut Vec<u8>,
) -> Result<(), SessionFault> {
    match command {
        Command::Count => Ok(print_count(session, out)?),
        Command::Calls => Ok(
            session
                .history
                .calls()
                .print(session.timeline.count(), out)?,
        ),
        Command::Trace => Ok(print_replies(session, out)?),
        Command::Files => print_disk(session, out),
        Command::Until(count) => Ok(set_limit(session, count, out)?),
        Command::Keep | Command::Other => Ok(out.write_all(COMMANDS.as_bytes())?),
    }
}

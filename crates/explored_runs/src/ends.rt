//! How processes stand where none can go on.
use faults::Fault;
use kernel::{Answer, Core, Event, Refused};
use kernel_model::Carrier;
use replayed_runs::Replay;
use std::fmt;

/// How a process stands where none can go on.
#[derive(Clone, Copy)]
pub enum End {
    /// It has ended, with this status.
    Ended(u32),
    /// It waits for ever for a pipe.
    WaitsForPipe(u32),
    /// It waits for ever for a child.
    WaitsForChild,
    /// It ran as far as it may, and came to no call.
    RunsOn,
}

impl fmt::Display for End {
    fn fmt<W: fmt::Write>(&self, f: &mut fmt::Formatter<W>) -> fmt::Result {
        match self {
            End::Ended(status) => write!(f, "{status}"),
            End::WaitsForPipe(pipe) => write!(f, "waits-pipe-{pipe}"),
            End::WaitsForChild => f.write_str("waits-child"),
            End::RunsOn => f.write_str("runs"),
        }
    }
}

/// The pipe among these carriers, if one is.
fn pipe_of(carriers: &[Carrier]) -> Option<u32> {
    carriers.iter().find_map(|carrier| match carrier {
        Carrier::Pipe(pipe) => Some(*pipe),
        _ => None,
    })
}

/// What the last Enter waits for, as what it read tells.
fn waits_for(core: &Core) -> End {
    let footprints = core.footprints();
    let Some(last) = footprints.len().checked_sub(1) else {
        return End::WaitsForChild;
    };
    match pipe_of(footprints.reads(last)) {
        Some(pipe) => End::WaitsForPipe(pipe),
        None => End::WaitsForChild,
    }
}

/// How a process stands where none can go on. It tries its call once more.
pub fn end_of(replay: &mut Replay, pid: u32) -> Result<End, Fault> {
    if let Some(status) = replay.core.tables().processes.status(pid) {
        return Ok(End::Ended(status));
    }
    match replay.core.apply(Event::Enter { pid }) {
        Ok(Answer::Waits) => Ok(waits_for(&replay.core)),
        Err(Refused::OutOfMemory) => Err(Fault::OutOfMemory),
        _ => Ok(End::RunsOn),
    }
}

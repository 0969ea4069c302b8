//! For what a process waits, and who could end that.
use crate::event_data::WaitData;
use call_lines::{Awaited, awaited_at, could_end};
use kernel::{Core, KernelTables};
use std::alloc::{AllocError, Global};

/// The processes that could end what a process waits on, by rising number.
fn enders(
    alloc: Global,
    tables: KernelTables<'_>,
    pid: u32,
    awaited: Awaited,
) -> Result<Vec<u32>, AllocError> {
    let mut pids = Vec::new(alloc);
    for other in 1..=tables.processes.len() as u32 {
        if could_end(tables, pid, awaited, other) {
            pids.push(other)?;
        }
    }
    Ok(pids)
}

/// For what a process waits at the call at which it stands.
pub fn wait_of(alloc: Global, core: &Core, pid: u32) -> Result<Option<WaitData>, AllocError> {
    let Ok(machine) = core.machine(pid) else {
        return Ok(None);
    };
    let tables = core.tables();
    let Some(awaited) = awaited_at(tables, pid, machine) else {
        return Ok(None);
    };
    let (what, pipe) = match awaited {
        Awaited::Bytes(pipe) => ("bytes", Some(pipe)),
        Awaited::Room(pipe) => ("room", Some(pipe)),
        Awaited::Child => ("child", None),
    };
    Ok(Some(WaitData {
        what,
        pipe,
        by: enders(alloc, tables, pid, awaited)?,
    }))
}

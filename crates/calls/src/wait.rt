//! The row of wait.
ghost use Rattle.std.specs.Prelude.{◌≡◌, ◌==◌, map, option_map, IfOk, if◌then◌else◌};
ghost use Rattle.std.specs.Int.{w32, to_le_bytes};
ghost use Rattle.kernel_model.specs.Rows.{number, with_bytes, wait_ended, row_wait};
ghost use Rattle.kernel_model.specs.declared.carrier.Carrier.TheVariants.{Proc};
ghost use Rattle.processes.specs.Ended.{child_of};
ghost use Rattle.processes.specs.Parts.{part_at, children_in, statuses_of};
ghost use Rattle.calls.specs.Plans.{IsRow};

use crate::errno::Errno;
use crate::row::CallRow;
use crate::verdict::{number, with_bytes};
use byte_list::Bytes;
use kernel_model::{Carrier, Verdict};
use processes::{EndedChild, ProcTable};
use std::alloc::{AllocError, Global};

/// A wait, with a place for a status that may be too small for it.
pub fn wait(
    alloc: Global,
    processes: &ProcTable,
    pid: u32,
    at: u32,
    fits: bool,
) -> Result<CallRow, AllocError>
    ensures { IfOk result (λ row. IsRow row (row_wait (statuses_of processes.now.parts)
        (children_in (part_at processes.now.parts pid)) at fits)) }
{
    if !fits {
        return Ok(CallRow::failure(alloc, Errno::BadAddress));
    }
    let children = processes.children(pid);
    if children.is_empty() {
        return Ok(CallRow::failure(alloc, Errno::NoChild));
    }
    wait_ended(alloc, at, children, processes.ended_child(pid))
}

fn procs_of(alloc: Global, processes: &[u32]) -> Result<Vec<Carrier>, AllocError>
    ensures { IfOk result (λ carriers. carriers.items ≡ map Proc processes.now) }
{
    processes
        .iter()
        .map(|pid| Carrier::Proc(*pid))
        .collect(alloc)
}

/// What a wait tells that collects this child.
fn told_of(alloc: Global, at: u32, ended: EndedChild) -> Result<Verdict, AllocError>
    ensures { IfOk result (λ verdict. verdict ≡ (if at == 0 then number ended.child
        else with_bytes ended.child at (to_le_bytes w32 ended.status))) }
{
    if at == 0 {
        return Ok(number(ended.child));
    }
    let status = Bytes::copy_of(alloc, &ended.status.to_le_bytes())?;
    with_bytes(alloc, ended.child, at, status)
}

/// A wait with these children, of which the first that has ended, if one has, is this one.
fn wait_ended(
    alloc: Global,
    at: u32,
    children: &[u32],
    ended: Option<EndedChild>,
) -> Result<CallRow, AllocError>
    ensures { IfOk result
        (λ row. IsRow row (wait_ended at children.now (option_map child_of ended))) }
{
    let reads = procs_of(alloc, children)?;
    let Some(ended) = ended else {
        let mut row = CallRow::only(alloc, Verdict::Waits);
        row.reads = reads;
        return Ok(row);
    };
    let verdict = told_of(alloc, at, ended)?;
    let mut row = CallRow::only(alloc, verdict);
    row.reads = reads;
    row.collects = Some(ended.child);
    Ok(row)
}

//! The row of fork.
ghost use Rattle.std.specs.Prelude.{◌≡◌, ◌∷◌, length, map, Some, IfOk};
ghost use Rattle.kernel_model.specs.Rows.{failure, number, only, row_fork, table_full};
ghost use Rattle.kernel_model.specs.declared.carrier.Carrier.TheVariants.{Tasks, Proc};
ghost use Rattle.kernel_model.specs.declared.effect.PipeStep.TheVariants.{Add};
ghost use Rattle.calls.specs.Plans.{IsRow};

use crate::ends::{carriers_of, ends_of};
use crate::errno::Errno;
use crate::row::CallRow;
use kernel_model::{Carrier, PipeEnd, PipeStep};
use processes::{Descriptors, MOST_PROCESSES, ProcTable};
use std::alloc::{AllocError, Global};

/// Each of these ends gets one more descriptor.
fn adds_of(alloc: Global, ends: &[PipeEnd]) -> Result<Vec<PipeStep>, AllocError>
    ensures { IfOk result (λ steps. steps.items ≡ map Add ends.now) }
{
    ends.iter().map(|end| PipeStep::Add(*end)).collect(alloc)
}

/// A fork where there is no room for one more process, by a caller whose pipes are these carriers.
fn fork_refused(alloc: Global, carriers: &[Carrier]) -> Result<CallRow, AllocError>
    ensures { IfOk result (λ row. IsRow row (record (failure table_full) {
      reads = Tasks ∷ carriers.now;
      writes = Tasks ∷ carriers.now;
    })) }
{
    CallRow::failure(alloc, Errno::TableFull)
        .updating(Carrier::Tasks)?
        .updating_all(carriers)
}

/// A fork of this child, by a caller whose pipes are these carriers, with these steps of the pipes.
fn fork_made(
    alloc: Global,
    child: u32,
    carriers: &[Carrier],
    pipes: Vec<PipeStep>,
) -> Result<CallRow, AllocError>
    ensures { IfOk result (λ row. IsRow row (record (only (number child)) {
      reads = Tasks ∷ Proc child ∷ carriers.now;
      writes = Tasks ∷ Proc child ∷ carriers.now;
      pipes = pipes.items;
      child = Some child;
    })) }
{
    let mut row = CallRow::number(alloc, child);
    row.pipes = pipes;
    row.child = Some(child);
    row.updating_all(&[Carrier::Tasks, Carrier::Proc(child)])?
        .updating_all(carriers)
}

/// A fork by a caller with these descriptors: the next process by number, and one more for each end of a pipe.
pub fn fork(
    alloc: Global,
    processes: &ProcTable,
    descriptors: &Descriptors,
) -> Result<CallRow, AllocError>
    ensures { IfOk result
        (λ row. IsRow row (row_fork (length processes.now.parts) descriptors.now)) }
{
    let ends = ends_of(alloc, descriptors)?;
    let carriers = carriers_of(alloc, &ends)?;
    let count = processes.len();
    if count >= MOST_PROCESSES {
        return fork_refused(alloc, &carriers);
    }
    fork_made(alloc, count as u32 + 1, &carriers, adds_of(alloc, &ends)?)
}

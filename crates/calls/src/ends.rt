//! The ends of pipes for which descriptors stand.
ghost use Rattle.std.specs.Prelude.{◌≡◌, ◌≤◌, ◌%◌, List, [], length, map, Some, None, option_to_list, IfOk};
ghost use Rattle.kernel_model.specs.Rows.{end_of, ends_of, carrier_of, closing, on_pipe, row_close, row_end, descriptor_at};
ghost use Rattle.kernel_model.specs.declared.effect.PipeStep.TheVariants.{Drop};
ghost use Rattle.pipes.specs.Seen.{Seen};
ghost use Rattle.calls.specs.Plans.{IsRow, effect_with, EditsAs, OpensAlone, MayAllStep};

use crate::errno::Errno;
use crate::plan::CallPlan;
use crate::row::CallRow;
use crate::verdict::number;
use kernel_model::{Carrier, Descriptor, PipeEnd, PipeStep, Verdict};
use processes::Descriptors;
use std::alloc::{AllocError, Global};

fn end_of(descriptor: Option<Descriptor>) -> Option<PipeEnd>
    ensures { result ≡ end_of descriptor }
{
    match descriptor {
        Some(Descriptor::Pipe(end)) => Some(end),
        _ => None,
    }
}

/// The ends for which these descriptors stand, by rising descriptor; an end comes as often as descriptors stand for it.
pub fn ends_of(alloc: Global, descriptors: &Descriptors) -> Result<Vec<PipeEnd>, AllocError>
    ensures ends { IfOk result (λ ends. ends.items ≡ ends_of descriptors.now) }
    ensures few { length descriptors.now ≤ 16 }
{
    descriptors
        .as_slice()
        .iter()
        .filter_map(|descriptor| end_of(*descriptor))
        .collect(alloc)
}

fn carrier_of(end: PipeEnd) -> Carrier
    ensures { result ≡ carrier_of end }
{
    match end {
        PipeEnd::Read(pipe) => Carrier::Pipe(pipe),
        PipeEnd::Write(pipe) => Carrier::Pipe(pipe),
    }
}

/// The pipes of these ends, as carriers.
pub fn carriers_of(alloc: Global, ends: &[PipeEnd]) -> Result<Vec<Carrier>, AllocError>
    ensures { IfOk result (λ carriers. carriers.items ≡ map carrier_of ends.now) }
{
    ends.iter().map(|end| carrier_of(*end)).collect(alloc)
}

/// Each of these ends loses a descriptor.
fn drops_of(alloc: Global, ends: &[PipeEnd]) -> Result<Vec<PipeStep>, AllocError>
    ensures { IfOk result (λ steps. steps.items ≡ map Drop ends.now) }
{
    ends.iter().map(|end| PipeStep::Drop(*end)).collect(alloc)
}

/// The caller is told this, and the descriptors that stand for these ends are closed.
fn closing(alloc: Global, ends: &[PipeEnd], verdict: Verdict) -> Result<CallRow, AllocError>
    ensures { IfOk result (λ row. IsRow row (closing ends.now verdict)) }
{
    let carriers = carriers_of(alloc, ends)?;
    let pipes = drops_of(alloc, ends)?;
    let mut row = CallRow::only(alloc, verdict);
    row.pipes = pipes;
    row.updating_all(&carriers)
}

fn ending(alloc: Global, descriptors: &Descriptors, status: u32) -> Result<CallRow, AllocError>
    ensures row { IfOk result (λ row. IsRow row (row_end descriptors.now status)) }
    ensures few { length descriptors.now ≤ 16 }
{
    let ends = ends_of(alloc, descriptors)?;
    closing(alloc, &ends, Verdict::Ends(status))
}

/// The end of a process, which gives up each end of a pipe for which a descriptor of its stands. The status is 0 to 255 by a call,
/// or 256 plus a trap's cause. Refused for want of memory alone.
pub fn plan_end(
    alloc: Global,
    descriptors: &Descriptors,
    status: u32,
) -> Result<CallPlan, AllocError>
    ensures row { IfOk result (λ plan. effect_with plan None ≡ row_end descriptors.now status) }
    ensures change { IfOk result (λ plan. plan.change ≡ None) }
    ensures edits { IfOk result (λ plan. EditsAs plan.verdict plan) }
    ensures opens { IfOk result (λ plan. OpensAlone plan.pipes.items) }
    ensures few { IfOk result (λ plan. length plan.pipes.items ≤ 16) }
    ensures steps { (seen : List Seen) → IfOk result (λ plan. MayAllStep seen plan.pipes.items) }
{
    Ok(ending(alloc, descriptors, status)?.with_change(None))
}

/// An exit with a status, of which the last byte counts.
pub fn exit(alloc: Global, descriptors: &Descriptors, status: u32) -> Result<CallRow, AllocError>
    ensures { IfOk result (λ row. IsRow row (row_end descriptors.now (status % 256))) }
{
    ending(alloc, descriptors, status % 256)
}

/// The caller is told this, and a descriptor is closed that may stand for an end.
fn closing_one(alloc: Global, end: Option<PipeEnd>, verdict: Verdict) -> Result<CallRow, AllocError>
    ensures { IfOk result (λ row. IsRow row (closing (option_to_list end) verdict)) }
{
    match end {
        Some(end) => closing(alloc, &[end], verdict),
        None => Ok(CallRow::only(alloc, verdict)),
    }
}

/// A close of a descriptor.
pub fn close(alloc: Global, descriptors: &Descriptors, fd: u32) -> Result<CallRow, AllocError>
    ensures { IfOk result
        (λ row. IsRow row (row_close (descriptor_at descriptors.now fd) fd)) }
{
    match descriptors.get(fd) {
        Some(descriptor) => close_there(alloc, descriptor, fd),
        None => Ok(CallRow::failure(alloc, Errno::BadDescriptor)),
    }
}

/// A close of a descriptor that stands for this.
fn close_there(alloc: Global, descriptor: Descriptor, fd: u32) -> Result<CallRow, AllocError>
    ensures { IfOk result (λ row. IsRow row (row_close (Some descriptor) fd)) }
{
    closing_one(alloc, end_of(Some(descriptor)), number(0))?.setting(fd as usize, None)
}

/// The caller of a call on a pipe is told this.
pub fn on_pipe(alloc: Global, pipe: u32, verdict: Verdict) -> Result<CallRow, AllocError>
    ensures { IfOk result (λ row. IsRow row (on_pipe pipe verdict [])) }
{
    CallRow::only(alloc, verdict).updating(Carrier::Pipe(pipe))
}

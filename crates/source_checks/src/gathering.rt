//! All faults of a source.
ghost use Rattle.std.specs.Prelude.{◌≡◌, IfOk};
ghost use Rattle.std.specs.List.{Contains};
ghost use Rattle.std.specs.List.Sorted.{IsNonDecreasingBy};
ghost use Rattle.source_checks.specs.Checks.{place_among};

use crate::line_faults::line_faults;
use crate::place::without_indent;
use assembler::{AsmFault, Cause};
use std::alloc::{AllocError, Global};

/// Where a fault comes among others: by its line, and one of the source as a whole after all lines.
fn place_among(fault: AsmFault) -> usize
    ensures { result ≡ place_among fault }
{
    match fault.why {
        Cause::NoStart | Cause::TooLarge | Cause::OutOfMemory => usize::MAX,
        _ => fault.line,
    }
}

/// Whether a line has the label `_start`, or may mean it.
fn begins_start(line: &str) -> bool {
    without_indent(line).starts_with("_start")
}

/// The faults of a source, in no order. Of a source that is too large nothing is said beside its first one.
fn others(alloc: Global, source: &str, first: AsmFault) -> Result<Vec<AsmFault>, AllocError> {
    if first.why == Cause::TooLarge {
        return Ok(Vec::new(alloc));
    }
    let mut found = line_faults(alloc, source)?;
    if !source.lines().any(begins_start) {
        found.push(AsmFault::whole(Cause::NoStart))?;
    }
    Ok(found)
}

/// The first fault of a source and all others, in no order.
fn with_others(alloc: Global, source: &str, first: AsmFault) -> Result<Vec<AsmFault>, AllocError>
    ensures { IfOk result (λ all. Contains all.items first) }
{
    let mut all = Vec::new(alloc);
    let others = others(alloc, source, first)?;
    for fault in &others {
        if *fault != first {
            all.push(*fault)?;
        }
    }
    all.push(first)?;
    Ok(all)
}

/// All faults of a source in the order of lines, of which the assembler tells this one. Of a source that is too large it is the only one.
pub fn faults(alloc: Global, source: &str, first: AsmFault) -> Result<Vec<AsmFault>, AllocError>
    ensures in_order { IfOk result (λ all. IsNonDecreasingBy place_among all.items) }
    ensures first { IfOk result (λ all. Contains all.items first) }
{
    let mut all = with_others(alloc, source, first)?;
    all.sort_by_key(|fault| fault.column)?;
    all.sort_by_key(|fault| place_among(*fault))?;
    Ok(all)
}

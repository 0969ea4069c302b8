//! Finds the instruction that changes a location: the last one on the way back, the first one on the way on.
ghost use Rattle.std.specs.Prelude.{◌≡◌, ◌≢◌, ℕ, ◌+◌, ◌-◌, ◌<◌, ◌≤◌, None, IfOk, OnOk, unwrap_or};
ghost use Rattle.debugger.specs.Sessions.{halt_at};
ghost use Rattle.debugger.specs.declared.stops.Stopped.TheVariants.{Break};
ghost use Rattle.timeline.specs.Changes.{IsLastChange, RunsToChange, back_at};

use crate::fault::SessionFault;
use crate::location::{Location, are_same, read_held};
use debugger::{DebugFault, Debugger, Stepped, Stopped};
use std::alloc::Global;
use std::mem;

/// The instructions between two kept states.
const SPAN: u64 = 1024;

/// Goes back by so many instructions, or to the first state where fewer are done.
pub fn back_by(debugger: &mut Debugger, n: u64) -> Result<(), SessionFault>
    ensures { OnOk result (debugger.new ≡ back_at debugger.old (debugger.old.count - n)) }
{
    let count = debugger.state().count();
    Ok(debugger.rewind(count.saturating_sub(n))?)
}

/// Goes on up to a count, and finds the last instruction on this way that changes a location, by the count before it.
fn last_change_before(
    alloc: Global,
    debugger: &mut Debugger,
    locations: &[Location],
    end: u64,
) -> Result<Option<u64>, SessionFault>
    requires ahead { debugger.old.count ≤ end }
    requires onward { (n : ℕ) → n < end → halt_at debugger.old n ≡ None }
    ensures last { IfOk result (λ found. IsLastChange debugger.old locations.now debugger.old.count end found) }
    ensures there { OnOk result (debugger.new ≡ record debugger.old { count = end }) }
{
    let mut before = Vec::new(alloc);
    read_held(locations, debugger.state(), &mut before)?;
    let mut after = Vec::new(alloc);
    let mut last = None;
    for count in debugger.state().count()..end {
        let _ = debugger.step()?;
        read_held(locations, debugger.state(), &mut after)?;
        if !are_same(&after, &before) {
            last = Some(count);
            mem::swap(&mut before, &mut after);
        }
    }
    Ok(last)
}

/// Goes back to just before the last instruction that changed a location, and gives the count there. Where none did it goes to the
/// first state, and gives None. It runs the instructions between two kept states again, from the last ones to the first.
pub fn last_change(
    alloc: Global,
    debugger: &mut Debugger,
    locations: &[Location],
) -> Result<Option<u64>, SessionFault>
    ensures change { IfOk result (λ found. IsLastChange debugger.old locations.now 0 debugger.old.count found) }
    ensures stands { IfOk result (λ found. debugger.new ≡ back_at debugger.old (unwrap_or found 0)) }
{
    let mut end = debugger.state().count();
    while end > 0 {
        let low = (end - 1) / SPAN * SPAN;
        debugger.rewind(low)?;
        if let Some(count) = last_change_before(alloc, debugger, locations, end)? {
            debugger.rewind(count)?;
            return Ok(Some(count));
        }
        end = low;
    }
    debugger.rewind(0)?;
    Ok(None)
}

/// Does one instruction; a call takes its reply. Says why not, where it does not.
fn step_on(debugger: &mut Debugger) -> Result<Option<Stopped>, SessionFault>
    ensures went { IfOk result (λ stopped. stopped ≡ None → debugger.new ≡ record debugger.old { count = debugger.old.count + 1 }) }
    ensures stays { IfOk result (λ stopped. stopped ≢ None → debugger.new ≡ debugger.old) }
    ensures halts { IfOk result (λ stopped. (number : ℕ) → stopped ≢ Some (Break number)) }
{
    match debugger.step() {
        Ok(Stepped::Went) => Ok(None),
        Ok(Stepped::Trap(cause)) => Ok(Some(Stopped::Trap(cause))),
        Err(DebugFault::PastTrace) => Ok(Some(Stopped::EndOfTrace)),
        Err(DebugFault::Budget) => Ok(Some(Stopped::Limit)),
        Err(why) => Err(SessionFault::from(why)),
    }
}

/// Goes on by at most so many instructions, up to just after the first that changes a location, and gives None there. Else it says
/// why it stopped, as `Debugger::run_to_break` does.
pub fn run_to_change(
    alloc: Global,
    debugger: &mut Debugger,
    locations: &[Location],
    max: u32,
) -> Result<Option<Stopped>, SessionFault>
    ensures { IfOk result (λ stopped. RunsToChange debugger.old locations.now stopped debugger.new) }
{
    let mut first = Vec::new(alloc);
    read_held(locations, debugger.state(), &mut first)?;
    let mut now = Vec::new(alloc);
    for _ in 0..max {
        if let Some(stopped) = step_on(debugger)? {
            return Ok(Some(stopped));
        }
        read_held(locations, debugger.state(), &mut now)?;
        if !are_same(&now, &first) {
            return Ok(None);
        }
        if let Some(number) = debugger.number_at(debugger.state().pc()) {
            return Ok(Some(Stopped::Break(number)));
        }
    }
    Ok(Some(Stopped::Limit))
}

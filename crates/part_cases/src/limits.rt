//! Runs a program to many limits. Each run has to end where as many single instructions do.
use crate::replies::OnCall;
use anyhow::{Error, bail};
use machine::{Machine, Stop};
use std::alloc::{AllocError, Global};

/// The most instructions that a machine here may have done before a run.
const LIMIT: u64 = 1 << 32;

/// Runs for at most `max` instructions, calls that get a reply among them. Says how many were done, and why it stopped.
pub fn run(
    alloc: Global,
    machine: &mut Machine,
    max: u32,
    calls: OnCall,
) -> Result<(u32, Stop), Error> {
    let mut all = 0u32;
    for _ in 0..u64::from(max) + 1 {
        if machine.count() > LIMIT {
            bail!("more instructions than are tried here");
        }
        let (done, stop) = machine.run(max.saturating_sub(all));
        all = all.saturating_add(done);
        if stop != Stop::Call || !calls.answer(alloc, machine)? {
            return Ok((all, stop));
        }
        all = all.saturating_add(1);
    }
    bail!("more calls than instructions")
}

/// Runs from the first state to each limit up to a greatest one, or to the program's end. Compares the whole state, the count and
/// the stop with single instructions. Says how many limits there were.
pub fn check_each(
    alloc: Global,
    first: &Machine,
    greatest: u32,
    calls: OnCall,
) -> Result<u32, Error> {
    let mut stepped = first.try_clone(alloc)?;
    for limit in 0..greatest {
        let mut ran = first.try_clone(alloc)?;
        let (done, stop) = run(alloc, &mut ran, limit, calls)?;
        if !ran.is_same(&stepped) || done != limit || stop != Stop::Limit {
            bail!("a run of at most {limit} is not {limit} single instructions");
        }
        let (done, stop) = run(alloc, &mut stepped, 1, calls)?;
        if done == 0 {
            check_end(alloc, first, &stepped, stop, calls)?;
            return Ok(limit);
        }
    }
    Ok(greatest)
}

/// Compares a run without a limit with the state where single instructions end, and with their stop.
fn check_end(
    alloc: Global,
    first: &Machine,
    stepped: &Machine,
    stop: Stop,
    calls: OnCall,
) -> Result<(), Error> {
    let mut ran = first.try_clone(alloc)?;
    let (_, found) = run(alloc, &mut ran, u32::MAX, calls)?;
    if !ran.is_same(stepped) || found != stop {
        bail!("a run does not end where single instructions do");
    }
    Ok(())
}

/// Runs from the first state for at most so many instructions at once, and in runs of 1, 2, 3, .. instructions. Both have to reach
/// the same state. Says how many instructions were done.
pub fn check_growing(
    alloc: Global,
    first: &Machine,
    max: u32,
    calls: OnCall,
) -> Result<u64, Error> {
    let mut whole = first.try_clone(alloc)?;
    run(alloc, &mut whole, max, calls)?;
    let mut parts = first.try_clone(alloc)?;
    for size in 1..max {
        let left = u64::from(max).saturating_sub(parts.count());
        let size = u64::from(size).min(left) as u32;
        let (done, _) = run(alloc, &mut parts, size, calls)?;
        if size == 0 || done < size {
            break;
        }
        parts = copy(alloc, &parts, size)?;
    }
    if !parts.is_same(&whole) {
        bail!("runs of 1, 2, 3, .. instructions come to another state than one run");
    }
    Ok(whole.count())
}

/// A machine in the same state. The number chooses the way: a clone, a still copy or a snapshot.
fn copy(alloc: Global, machine: &Machine, way: u32) -> Result<Machine, AllocError> {
    match way % 3 {
        0 => machine.try_clone(alloc),
        1 => machine.still(alloc),
        _ => machine.keep(alloc, None)?.machine(alloc),
    }
}

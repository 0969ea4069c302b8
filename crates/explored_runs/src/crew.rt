//! A level is shared among threads, and what they answer is put together in its order.
ghost use Rattle.std.specs.Prelude.{◌<◌, IfOk};
ghost use Rattle.explored_runs.specs.Answering.{AreAfter, AreJoined};

use crate::checkpoints::{Checkpoints, common_calls_of};
use crate::runs::{After, Runs};
use faults::Fault;
use state_search::Found;
use std::alloc::Global;
use std::thread;
use std::thread::Threads;

/// What comes after each state of a share, in its order. Each run is replayed from a checkpoint. The fault is that of the first
/// state that has one.
fn share_of(runs: &Runs<'_>, share: &[Found<Vec<u32>>]) -> Result<Vec<After>, Fault>
    ensures { IfOk result (λ afters. AreAfter runs.now share.now afters.items) }
{
    let common = common_calls_of(runs.alloc, share)?;
    let mut checkpoints = Checkpoints::new(runs.alloc);
    let mut afters = Vec::with_capacity(runs.alloc, share.len())?;
    for found in share {
        let calls = found.state.as_slice();
        let later = common.as_slice().get(afters.len()..).unwrap_or(&[]);
        let replay = checkpoints.replay(runs, calls, later)?;
        afters.push(runs.after(calls, replay)?)?;
    }
    Ok(afters)
}

/// What all shares found, one after the other. The fault is that of the first share that has one.
fn joined(alloc: Global, shares: Vec<Result<Vec<After>, Fault>>) -> Result<Vec<After>, Fault>
    ensures { IfOk result (λ all. AreJoined shares.items all.items) }
{
    let mut all = Vec::new(alloc);
    for share in shares {
        all.append(&mut share?)?;
    }
    Ok(all)
}

/// How many states each of so many threads has of so many.
fn share_size(states: usize, threads: usize) -> usize
    ensures { 0 < result }
{
    states.div_ceil(threads.max(1)).max(1)
}

/// What comes after each state of a level, in its order. So many threads share it. The fault is that of the first state that has one.
pub fn after_each<R: Threads + Sync>(
    rt: &R,
    runs: &Runs<'_>,
    threads: usize,
    level: &[Found<Vec<u32>>],
) -> Result<Vec<After>, Fault>
    ensures { IfOk result (λ afters. AreAfter runs.now level.now afters.items) }
{
    let size = share_size(level.len(), threads);
    let shares = thread::map_chunks(
        rt,
        runs.alloc,
        level,
        size,
        &|_start: usize, share: &[Found<Vec<u32>>]| -> Result<Vec<After>, Fault>
            ensures { IfOk result (λ afters. AreAfter runs.entry.now share.entry.now afters.items) }
        { share_of(runs, share) },
    )?;
    let all = joined(runs.alloc, shares)?;
    Ok(all)
}

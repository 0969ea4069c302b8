//! Checkpoints of a share of a level. States that stand side by side in a level are mostly reached by the same first calls. So runs are kept
//! where the ways to later states branch off, and from there the other calls alone are replayed.
ghost use Rattle.std.specs.Prelude.{◌≡◌, [], true, IfOk, OnOk};
ghost use Rattle.explored_runs.specs.Answering.{IsRunOf};
ghost use Rattle.explored_runs.specs.Checkpoints.{AreCheckpoints, BeginsWith, IsCheckpoint};

use crate::runs::Runs;
use faults::Fault;
use replayed_runs::Replay;
use state_search::Found;
use std::alloc::{AllocError, Global};

/// A run that was replayed, and the calls that lead to it.
#[derive(Drop)]
struct Checkpoint {
    calls: Vec<u32>,
    replay: Replay,
}

/// The checkpoints on the way to a state. The last has the most calls. There are no more than calls lead to the state, nor than there are
/// states in the share.
#[derive(Drop)]
pub struct Checkpoints {
    kept: Vec<Checkpoint>,
}

/// Whether calls begin with these.
fn begins_with(calls: &[u32], first: &[u32]) -> bool
    ensures { result ≡ true → BeginsWith calls.now first.now }
{
    calls.starts_with(first)
}

/// With how many calls both begin.
fn common_calls(one: &[u32], other: &[u32]) -> usize {
    let most = one.len().min(other.len());
    for place in 0..most {
        if one[place] != other[place] {
            return place;
        }
    }
    most
}

/// For each state of a share but the last, how many calls it has in common with the next one.
pub fn common_calls_of(alloc: Global, share: &[Found<Vec<u32>>]) -> Result<Vec<usize>, AllocError> {
    let mut common = Vec::with_capacity(alloc, share.len())?;
    for (found, next) in share.iter().zip(share.iter().skip(1)) {
        common.push(common_calls(found.state.as_slice(), next.state.as_slice()))?;
    }
    Ok(common)
}

/// Whether the way to a later state branches off after so many calls, before one does after fewer. For each state from here on, `common`
/// has how many calls it has in common with the next one.
fn is_branch(common: &[usize], calls: usize) -> bool {
    match common.iter().find(|count| **count <= calls) {
        Some(count) => *count == calls,
        None => false,
    }
}

impl Checkpoints {
    /// None yet.
    pub fn new(alloc: Global) -> Checkpoints
        ensures { result.kept.items ≡ [] }
    {
        Checkpoints {
            kept: Vec::new(alloc),
        }
    }

    /// Takes the last checkpoint on the way to these calls, or else begins with the run of none. Those after it are not on the way, and are
    /// dropped.
    fn nearest(&mut self, runs: &Runs<'_>, calls: &[u32]) -> Result<Checkpoint, Fault>
        requires { AreCheckpoints runs.now self.old.kept.items }
        ensures run { IfOk result (IsCheckpoint runs.now) }
        ensures way { IfOk result (λ near. BeginsWith calls.now near.calls.items) }
        ensures kept { AreCheckpoints runs.now self.new.kept.items }
    {
        while let Some(last) = self.kept.pop() {
            if begins_with(calls, last.calls.as_slice()) {
                return Ok(last);
            }
        }
        Ok(Checkpoint {
            calls: Vec::new(runs.alloc),
            replay: runs.begin()?,
        })
    }

    /// Keeps a copy of the run of these calls, if the way to a later state branches off there, of which `common` says as in `is_branch`.
    fn keep_at_branch(
        &mut self,
        runs: &Runs<'_>,
        calls: &[u32],
        replay: &Replay,
        common: &[usize],
    ) -> Result<(), Fault>
        requires run { IsRunOf runs.now calls.now replay.now }
        requires kept { AreCheckpoints runs.now self.old.kept.items }
        ensures { OnOk result (AreCheckpoints runs.now self.new.kept.items) }
    {
        if !is_branch(common, calls.len()) {
            return Ok(());
        }
        self.kept.push(Checkpoint {
            calls: Vec::from_slice(runs.alloc, calls)?,
            replay: replay.try_clone(runs.alloc)?,
        })?;
        Ok(())
    }

    /// The run of these calls, replayed from the nearest checkpoint. More checkpoints are kept on the way, as `keep_at_branch` does.
    pub fn replay(
        &mut self,
        runs: &Runs<'_>,
        calls: &[u32],
        common: &[usize],
    ) -> Result<Replay, Fault>
        requires { AreCheckpoints runs.now self.old.kept.items }
        ensures run { IfOk result (IsRunOf runs.now calls.now) }
        ensures kept { OnOk result (AreCheckpoints runs.now self.new.kept.items) }
    {
        let Checkpoint {
            calls: first,
            mut replay,
        } = self.nearest(runs, calls)?;
        for place in first.len()..calls.len() {
            self.keep_at_branch(runs, &calls[..place], &replay, common)?;
            replay.call(calls[place])?;
        }
        Ok(replay)
    }
}

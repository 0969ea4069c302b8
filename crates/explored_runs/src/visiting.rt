//! Visits each state of a search of all orders.
ghost use Rattle.std.specs.Prelude.{IfOk, unwrap_or};
ghost use Rattle.explored_runs.specs.Explored.{ExploredTo, SearchedTo};

use crate::ends::end_of;
use crate::limits::Limits;
use crate::programs::Programs;
use crate::run_search::{Heard, Listener, search_runs};
use crate::runs::Runs;
use crate::saved::lines_of;
use crate::visited::{VisitedState, Visits};
use faults::Fault;
use kernel::Core;
use order_outcomes::{Outcome, Totals};
use replayed_runs::Replay;
use scripts::Launch;
use std::alloc::{AllocError, Global};
use std::thread::Threads;

/// Takes the states that a search of all orders finds.
pub trait StateTaker {
    ghost use denote.Param.Send.{IsSync};

    /// Why no more are taken.
    type Fault: From<Fault> + From<AllocError> + Drop;

    /// Takes the next states, which are in the order in which they were found. As far as is known, so many are to be gone on from then. Threads
    /// may share the work.
    fn take<R: Threads + Sync>(
        &mut self,
        rt: &R,
        states: Vec<VisitedState>,
        frontier: usize,
    ) -> Result<(), Self::Fault>
        requires { IsSync R.row };
}

/// How far a search came whose states were taken.
#[derive(Drop)]
pub struct ExploredStates {
    pub totals: Totals,
    /// Whether a process ran as far as it may in some end, and came to no call.
    pub runs_on: bool,
    /// The processes whose calls lead to the first end that `exec` does not end with status 0, of fewest calls.
    pub ends_badly: Option<Vec<u32>>,
}

/// Hands the states of a search to a taker.
struct Visiting<'t, T> {
    taker: &'t mut T,
    /// Whether a process ran as far as it may in some end, and came to no call.
    runs_on: bool,
    /// The processes whose calls lead to the first end that is no good one.
    ends_badly: Option<Vec<u32>>,
}

impl<T> Drop for Visiting<'_, T> {
    fn drop(self) {
        let Visiting {
            taker: _,
            runs_on: _,
            ends_badly: _ends_badly,
        } = self;
    }
}

/// Whether `exec` ends with status 0 where programs end so: the first one has that status, nothing waits for ever, and nothing runs on.
fn ends_well(outcome: &Outcome) -> bool {
    let Some((ends, _rest)) = outcome.text.as_str().split_once(" shown ") else {
        return false;
    };
    !outcome.runs_on
        && ends.split(' ').any(|end| end == "1:0")
        && ends.split_once(":waits-").is_none()
}

impl<T> Visiting<'_, T> {
    /// Notes what a run came to.
    fn note(&mut self, outcome: Outcome) {
        let is_bad = !ends_well(&outcome);
        let Outcome {
            text: _text,
            calls,
            runs_on,
        } = outcome;
        self.runs_on = self.runs_on || runs_on;
        if is_bad && self.ends_badly.is_none() {
            self.ends_badly = Some(calls);
        }
    }
}

impl<T: StateTaker> Listener for Visiting<'_, T> {
    type Fault = T::Fault;

    fn hear<R: Threads + Sync>(&mut self, rt: &R, heard: Heard<'_, '_>) -> Result<(), T::Fault> {
        let Heard {
            over,
            visited,
            frontier,
            ..
        } = heard;
        for outcome in over {
            self.note(outcome);
        }
        self.taker.take(rt, visited, frontier)
    }

    fn end_level(&mut self) -> Result<(), T::Fault> {
        Ok(())
    }
}

impl<T: StateTaker> Visiting<'_, T> {
    /// Searches all runs, and says how far it came.
    fn search<R: Threads + Sync>(
        mut self,
        rt: &R,
        runs: &Runs<'_>,
        limits: Limits,
    ) -> Result<ExploredStates, T::Fault>
        ensures { IfOk result (λ explored. SearchedTo runs.now explored.totals limits.states (unwrap_or limits.calls 10000)) }
    {
        let searched = search_runs(rt, runs, limits.threads(rt), &mut self, limits.bounds())?;
        let Visiting {
            taker: _,
            runs_on,
            ends_badly,
        } = self;
        Ok(ExploredStates {
            totals: Totals::of(&searched),
            runs_on,
            ends_badly,
        })
    }
}

/// Has each state taken that a search of all orders of the calls of programs finds, once, those of fewest calls first. Where the limits
/// cut the search, the states that it left are not taken, and the result says how many they are. Where windows are visited, states are two
/// also where the files were others at a moment since the last sync. The whole is searched, whatever part the limits name. What is taken is the same, however many threads search.
pub fn explore_states<R: AllocGlobal + Threads + Sync, T: StateTaker>(
    rt: &R,
    launch: &Launch,
    limits: Limits,
    visits: Visits,
    taker: &mut T,
) -> Result<ExploredStates, T::Fault>
    ensures { IfOk result (λ explored. ExploredTo limits.instructions visits explored.totals limits.states (unwrap_or limits.calls 10000)) }
{
    let alloc = rt.alloc();
    let programs = Programs::of_launch(alloc, launch)?;
    let runs = Runs {
        alloc,
        programs: &programs,
        instructions: limits.instructions,
        visits,
    };
    let visiting = Visiting {
        taker,
        runs_on: false,
        ends_badly: None,
    };
    visiting.search(rt, &runs, limits)
}

/// The run of these calls.
fn run_of_calls(
    alloc: Global,
    launch: &Launch,
    instructions: u32,
    calls: &[u32],
) -> Result<Replay, Fault> {
    let programs = Programs::of_launch(alloc, launch)?;
    let runs = Runs {
        alloc,
        programs: &programs,
        instructions,
        visits: Visits::Nothing,
    };
    runs.replay(calls)
}

/// The run of these calls as lines of a script: its events, and `drain`.
pub fn lines_of_calls(
    alloc: Global,
    launch: &Launch,
    instructions: u32,
    calls: &[u32],
) -> Result<String, Fault> {
    let replay = run_of_calls(alloc, launch, instructions, calls)?;
    let mut lines = lines_of(alloc, replay.core.history())?;
    lines.push_str("drain\n")?;
    Ok(lines)
}

/// The core at the end to which these calls lead. What waits there has tried its call once more, and all is committed.
pub fn end_of_calls(
    alloc: Global,
    launch: &Launch,
    instructions: u32,
    calls: &[u32],
) -> Result<Core, Fault> {
    let mut replay = run_of_calls(alloc, launch, instructions, calls)?;
    for pid in 1..=replay.last_process() {
        end_of(&mut replay, pid)?;
    }
    let mut core = replay.into_core();
    match core.drain() {
        Ok(()) => Ok(core),
        Err(_) => Err(Fault::OutOfMemory),
    }
}

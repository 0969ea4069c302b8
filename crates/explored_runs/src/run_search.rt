//! The search of runs, whoever is told what it finds.
ghost use Rattle.std.specs.Prelude.{◌≡◌, ◌++◌, [], ◌<◌, length, true, IfOk};
ghost use Rattle.state_search.specs.Searches.{IsCut, IsWithin};
ghost use Rattle.explored_runs.specs.Answering.{AreTold, Expands};
ghost use Rattle.explored_runs.specs.RunSearches.{FindsPartOfRuns, FindsRuns, IsFirstRun};

use crate::call_search::{search_calls, search_calls_part};
use crate::crew::after_each;
use crate::limits::taken_by;
use crate::runs::Runs;
use crate::sorting::{Sorted, sort_out};
use crate::visited::VisitedState;
use faults::Fault;
use order_outcomes::Outcome;
use state_search::{Bounds, Expanded, Found, Moves, Part, PartSearched, Reached, Searched};
use std::alloc::AllocError;
use std::thread::Threads;

/// Some states of a level, and what was found of them, in their order.
#[derive(Drop)]
pub struct Heard<'a, 'p> {
    /// Of which runs they are.
    pub runs: &'a Runs<'p>,
    pub states: &'a [Found<Vec<u32>>],
    /// For each, by how many calls the search goes on.
    pub calls: Vec<usize>,
    /// The outcomes of those that are over.
    pub over: Vec<Outcome>,
    /// The states, where they are visited.
    pub visited: Vec<VisitedState>,
    /// How many states are to be gone on from, as far as is known: those left of the level, and those reached from it, before equal ones are
    /// dropped.
    pub frontier: usize,
}

/// Who is told what a search of runs finds.
pub trait Listener {
    ghost use denote.Param.Send.{IsSync};
    ghost use Rattle.explored_runs.specs.Answering.{AreTold};

    /// Why the search ends before its end.
    type Fault: From<Fault> + From<AllocError> + Drop;

    /// Is told of the next states. Threads may share the work.
    fn hear<R: Threads + Sync>(&mut self, rt: &R, heard: Heard<'_, '_>) -> Result<(), Self::Fault>
        requires sync { IsSync R.row }
        requires told { AreTold heard.runs.now heard.states.now heard.over.items heard.visited.items heard.calls.items };

    /// Is told that a level is done.
    fn end_level(&mut self) -> Result<(), Self::Fault>;
}

/// A search of runs by so many threads.
struct RunSearch<'r, 'p, 'l, L> {
    runs: &'r Runs<'p>,
    threads: usize,
    listener: &'l mut L,
}

impl<L> Drop for RunSearch<'_, '_, '_, L> {
    fn drop(self) {
        let RunSearch {
            runs: _,
            threads: _,
            listener: _,
        } = self;
    }
}

/// The first of some states, at most so many but at least one, and the others.
fn parted(states: &[Found<Vec<u32>>], most: usize) -> (&[Found<Vec<u32>>], &[Found<Vec<u32>>])
    requires { 0 < length states.now }
    ensures all { result.0.now ++ result.1.now ≡ states.now }
    ensures fewer { length result.1.now < length states.now }
{
    states.split_at(most.max(1).min(states.len()))
}

/// Asks what comes after some states, and sorts it out.
fn ask<R: Threads + Sync>(
    rt: &R,
    runs: &Runs<'_>,
    threads: usize,
    states: &[Found<Vec<u32>>],
) -> Result<Sorted, Fault>
    ensures answered { IfOk result (λ sorted. Expands runs.now states.now sorted.reached.items sorted.is_whole) }
    ensures told { IfOk result (λ sorted. AreTold runs.now states.now sorted.over.items sorted.visited.items sorted.calls.items) }
{
    let afters = after_each(rt, runs, threads, states)?;
    let sorted = sort_out(runs.alloc, afters)?;
    Ok(sorted)
}

impl<'p, L: Listener> Moves for RunSearch<'_, 'p, '_, L> {
    type State = Vec<u32>;

    type Fault = L::Fault;

    type Space = Runs<'p>;

    ghost space = { λ s. s.runs.now };

    ghost begins = { λ r first. IsFirstRun r first };

    ghost expands = { λ r level next is_whole. Expands r level next is_whole };

    fn first(&mut self) -> Result<Reached<Vec<u32>>, L::Fault> {
        Ok(self.runs.first()?)
    }

    fn expand<R: Threads + Sync>(
        &mut self,
        rt: &R,
        level: &[Found<Vec<u32>>],
    ) -> Result<Expanded<Vec<u32>>, L::Fault> {
        let mut next = Vec::new(self.runs.alloc);
        let mut is_whole = true;
        let mut rest = level;
        while !rest.is_empty() {
            let (states, later) = parted(rest, taken_by(self.threads));
            let Sorted {
                mut reached,
                over,
                visited,
                calls,
                is_whole: are_whole,
            } = ask(rt, self.runs, self.threads, states)?;
            next.append(&mut reached)?;
            is_whole = is_whole & are_whole;
            self.listener.hear(
                rt,
                Heard {
                    runs: self.runs,
                    states,
                    calls,
                    over,
                    visited,
                    frontier: later.len().saturating_add(next.len()),
                },
            )?;
            rest = later;
        }
        self.listener.end_level()?;
        Ok(Expanded { next, is_whole })
    }
}

/// Searches all runs, by so many threads. If keys told the states apart, it found the end of each complete order of no more calls than its
/// depth. And if it left no state, and no move out, it found the outcomes of every run.
pub fn search_runs<R: Threads + Sync, L: Listener>(
    rt: &R,
    runs: &Runs<'_>,
    threads: usize,
    listener: &mut L,
    bounds: Bounds,
) -> Result<Searched<Vec<u32>>, L::Fault>
    ensures finds { IfOk result (λ found. FindsRuns runs.now found.gone_on found.left.items found.depth found.is_whole) }
    ensures cut { IfOk result (λ found. IsCut found.gone_on found.left.items found.depth bounds) }
    ensures within { IfOk result (λ found. IsWithin found.gone_on found.depth bounds) }
{
    let mut search = RunSearch {
        runs,
        threads,
        listener,
    };
    match search_calls(rt, runs.alloc, &mut search, bounds) {
        Ok(searched) => Ok(searched),
        Err(why) => Err(why),
    }
}

/// Searches a part of all runs. If keys told the states of all parts apart, it goes on to states of all parts. So where each of them is one
/// from which some part went on, and no part left a move out, all parts together found what `search_runs` finds that left no state.
pub fn search_runs_part<R: Threads + Sync, L: Listener>(
    rt: &R,
    runs: &Runs<'_>,
    threads: usize,
    listener: &mut L,
    bounds: Bounds,
    part: Part,
) -> Result<PartSearched<Vec<u32>>, L::Fault>
    ensures finds { IfOk result (λ found. FindsPartOfRuns runs.now part.number part.of found.searched.gone_on found.searched.left.items found.others.items found.searched.depth found.searched.is_whole) }
    ensures cut { IfOk result (λ found. IsCut found.searched.gone_on found.searched.left.items found.searched.depth bounds) }
    ensures within { IfOk result (λ found. IsWithin found.searched.gone_on found.searched.depth bounds) }
{
    let mut search = RunSearch {
        runs,
        threads,
        listener,
    };
    match search_calls_part(rt, runs.alloc, &mut search, bounds, part) {
        Ok(found) => Ok(found),
        Err(why) => Err(why),
    }
}

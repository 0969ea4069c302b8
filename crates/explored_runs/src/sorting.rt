//! What was found of runs, sorted out.
ghost use Rattle.std.specs.Prelude.{◌≡◌, ◌++◌, IfOk, OnOk, option_to_list};
ghost use Rattle.explored_runs.specs.Answering.{all_stand, calls_in, over_by_next, over_in, reached_by_next, reached_in, visited_in};

use crate::runs::{After, Next};
use crate::visited::VisitedState;
use order_outcomes::Outcome;
use state_search::Reached;
use std::alloc::{AllocError, Global};

/// What was found of some runs, in their order.
#[derive(Drop)]
pub struct Sorted {
    /// The runs of one call more.
    pub reached: Vec<Reached<Vec<u32>>>,
    /// The outcomes of those that are over.
    pub over: Vec<Outcome>,
    /// Their states, where states are visited.
    pub visited: Vec<VisitedState>,
    /// For each run, by how many calls the search goes on.
    pub calls: Vec<usize>,
    /// Whether in each of their states each process stands at a call or a trap, or has ended.
    pub is_whole: bool,
}

fn add_state(visited: &mut Vec<VisitedState>, state: Option<VisitedState>) -> Result<(), AllocError>
    ensures { OnOk result (visited.new.items ≡ visited.old.items ++ option_to_list state) }
{
    if let Some(state) = state {
        visited.push(state)?;
    }
    Ok(())
}

fn add_next(
    reached: &mut Vec<Reached<Vec<u32>>>,
    over: &mut Vec<Outcome>,
    next: Next,
) -> Result<(), AllocError>
    ensures reached { OnOk result (reached.new.items ≡ reached.old.items ++ reached_by_next next) }
    ensures over { OnOk result (over.new.items ≡ over.old.items ++ over_by_next next) }
{
    match next {
        Next::More(mut more) => reached.append(&mut more)?,
        Next::Over(outcome) => over.push(outcome)?,
    }
    Ok(())
}

/// Sorts out what was found of some runs.
pub fn sort_out(alloc: Global, afters: Vec<After>) -> Result<Sorted, AllocError>
    ensures reached { IfOk result (λ sorted. sorted.reached.items ≡ reached_in afters.items) }
    ensures over { IfOk result (λ sorted. sorted.over.items ≡ over_in afters.items) }
    ensures visited { IfOk result (λ sorted. sorted.visited.items ≡ visited_in afters.items) }
    ensures calls { IfOk result (λ sorted. sorted.calls.items ≡ calls_in afters.items) }
    ensures whole { IfOk result (λ sorted. sorted.is_whole ≡ all_stand afters.items) }
{
    let mut reached = Vec::new(alloc);
    let mut over = Vec::new(alloc);
    let mut visited = Vec::new(alloc);
    let mut calls = Vec::new(alloc);
    let mut is_whole = true;
    for After {
        visited: state,
        stands,
        next,
    } in afters {
        is_whole = is_whole & stands;
        calls.push(next.calls())?;
        add_state(&mut visited, state)?;
        add_next(&mut reached, &mut over, next)?;
    }
    Ok(Sorted {
        reached,
        over,
        visited,
        calls,
        is_whole,
    })
}

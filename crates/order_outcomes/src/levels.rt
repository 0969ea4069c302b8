//! The levels of a whole search, by the states that its parts found.
use crate::part_reading::PartState;
use crate::totals::Totals;
use std::alloc::AllocError;

/// How far the whole search came, of which these are the states of all parts, in any order. It left the first level in which a part left
/// a state, or up to which there are more states than `most`.
pub fn levels_of(states: &mut Vec<PartState>, most: u64) -> Result<Totals, AllocError> {
    states.sort()?;
    states.dedup_by_key(|state| (state.high, state.low));
    states.sort_by_key(|state| state.moves)?;
    let mut totals = Totals {
        states: 0,
        calls: 0,
        left: 0,
        depth: 0,
        // The files do not say this of a part. A process that runs on is told by an outcome.
        is_whole: true,
    };
    for level in states.as_slice().chunk_by(|a, b| a.moves == b.moves) {
        totals.states = totals.states.saturating_add(level.len() as u64);
        let mut is_left = totals.states > most;
        let mut calls = totals.calls;
        for state in level {
            totals.depth = state.moves;
            is_left = is_left || state.is_left;
            calls = calls.saturating_add(state.calls);
        }
        if is_left {
            totals.left = level.len() as u64;
            return Ok(totals);
        }
        totals.calls = calls;
    }
    Ok(totals)
}

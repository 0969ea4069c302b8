//! A search of the calls of programs. What it is said to find is the joint between `state_search`, which knows no calls, and `order_laws`,
//! which knows no keys.
ghost use Rattle.std.specs.Prelude.{IfOk};
ghost use Rattle.state_search.specs.Searches.{IsCut, IsWithin};
ghost use Rattle.explored_runs.specs.CallSearches.{FindsByKeys, FindsItsPart};

use state_search::{Bounds, Moves, Part, PartSearched, Searched, search, search_part};
use std::alloc::Global;
use std::thread::Threads;

/// As `search`, of moves that are calls. If it was answered with the calls of a boot, and its keys told its states apart, it found the end of
/// each complete order of no more calls than its depth. And if it left no state, and no move out, it found the outcomes of every run.
///
/// With the calls of a boot: the first state is where each process first stops. For each state of a level a private call was answered, or
/// each that does something, with the state to which it leads. A move is left out where a process stands neither at a call nor at a trap, and
/// has not ended.
pub fn search_calls<M: Moves, R: Threads + Sync>(
    rt: &R,
    alloc: Global,
    moves: &mut M,
    bounds: Bounds,
) -> Result<Searched<M::State>, M::Fault>
    ensures finds { IfOk result (λ found. FindsByKeys (M.begins (M.space moves.old)) (M.expands (M.space moves.old)) found.gone_on found.left.items found.depth found.is_whole) }
    ensures cut { IfOk result (λ found. IsCut found.gone_on found.left.items found.depth bounds) }
    ensures within { IfOk result (λ found. IsWithin found.gone_on found.depth bounds) }
{
    match search(rt, alloc, moves, bounds) {
        Ok(searched) => Ok(searched),
        Err(why) => Err(why),
    }
}

/// As `search_part`, of moves that are calls. What the parts find together is a search that left none, if each goes on to its end, and each
/// state that one left to others is one from which another went on, by no more calls. They left no move out if no part did.
pub fn search_calls_part<M: Moves, R: Threads + Sync>(
    rt: &R,
    alloc: Global,
    moves: &mut M,
    bounds: Bounds,
    part: Part,
) -> Result<PartSearched<M::State>, M::Fault>
    ensures finds { IfOk result (λ found. FindsItsPart (M.begins (M.space moves.old)) (M.expands (M.space moves.old)) part.number part.of found.searched.gone_on found.searched.left.items found.others.items found.searched.depth found.searched.is_whole) }
    ensures cut { IfOk result (λ found. IsCut found.searched.gone_on found.searched.left.items found.searched.depth bounds) }
    ensures within { IfOk result (λ found. IsWithin found.searched.gone_on found.searched.depth bounds) }
{
    match search_part(rt, alloc, moves, bounds, part) {
        Ok(found) => Ok(found),
        Err(why) => Err(why),
    }
}

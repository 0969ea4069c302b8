//! The search, and parts of it.
ghost use Rattle.std.specs.Prelude.{◌≡◌, ◌∷◌, ◌++◌, [], ◌<◌, ◌+◌, ◌^◌, ◌-◌, nat_lt, length, List, IfOk};
ghost use Rattle.std.specs.Bool.{OnFalse, OnTrue};
ghost use Rattle.state_search.specs.Adding.{AreAdded};
ghost use Rattle.state_search.specs.Going.{AreLeft, IsGoing, is_shared_out as shared_out, kept_by, left_by};
ghost use Rattle.state_search.specs.Searches.{HasSearched, IsCut, IsWithin, MayGoOn};
ghost use Rattle.state_search.specs.Sharing.{HasShare};
ghost use Rattle.state_search.specs.declared.moves.Found.{Found};

use crate::bounds::Bounds;
use crate::keys::Keys;
use crate::moves::{Expanded, Found, Moves, Reached};
use crate::parts::{Part, Parted};
use std::alloc::{AllocError, Global};
use std::thread::Threads;

/// What a search found.
#[derive(Drop)]
pub struct Searched<S> {
    /// How many states it went on from. It keeps none of them.
    pub gone_on: u64,
    /// Those that it left, since a bound cut it: all that it found by the most moves. None where it is complete.
    pub left: Vec<Found<S>>,
    /// How many moves lead to each state that it left, and more than lead to each from which it went on.
    pub depth: u64,
    /// How many moves it tried that lead somewhere.
    pub moves: u64,
    /// Whether no move was left out of what it was answered.
    pub is_whole: bool,
}

/// What a part of a search found.
#[derive(Drop)]
pub struct PartSearched<S> {
    pub searched: Searched<S>,
    /// The states that it left to other parts, beside those of `searched`. None where the search ended before its states were shared out.
    pub others: Vec<Found<S>>,
}

/// A search that goes on, or a part of one.
#[derive(Drop)]
struct Going<S> {
    known: Keys,
    searched: Searched<S>,
    others: Vec<Found<S>>,
}

/// Those of the states that were reached by so many moves whose keys are not known. Now they are.
fn add_all<S: Drop>(
    alloc: Global,
    known: &mut Keys,
    reached: Vec<Reached<S>>,
    moves: u64,
) -> Result<Vec<Found<S>>, AllocError>
    ensures { IfOk result (λ added. AreAdded known.old.set known.new.set reached.items added.items moves) }
{
    let mut added = Vec::new(alloc);
    for Reached { key, state } in reached {
        let is_new = known.add(key)?;
        if is_new {
            added.push(Found { key, state, moves })?;
        }
    }
    Ok(added)
}

/// Whether so many and so many are more than these.
fn is_more(some: u64, others: usize, most: u64) -> bool
    ensures { result ≡ nat_lt most (some + others) }
{
    match some.checked_add(others as u64) {
        Some(all) => all > most,
        None => true,
    }
}

fn alone<S: Drop>(alloc: Global, first: Reached<S>) -> Result<Vec<Reached<S>>, AllocError>
    ensures { IfOk result (λ reached. reached.items ≡ first ∷ []) }
{
    let mut reached = Vec::new(alloc);
    reached.push(first)?;
    Ok(reached)
}

/// The first state alone.
fn begin<M: Moves>(alloc: Global, moves: &mut M) -> Result<Going<M::State>, M::Fault>
    ensures alone { IfOk result (λ going. going.others.items ≡ []) }
    ensures here { IfOk result (λ going. (going.searched.depth ≡ 0) × (going.searched.gone_on ≡ 0)) }
    ensures space { M.space moves.new ≡ M.space moves.old }
    ensures going { IfOk result (λ going. IsGoing (M.begins (M.space moves.old)) (M.expands (M.space moves.old)) going.known.set [] going.searched.left.items going.others.items going.searched.depth going.searched.is_whole) }
{
    let reached = alone(alloc, moves.first()?)?;
    let mut known = Keys::new(alloc);
    let left = add_all(alloc, &mut known, reached, 0)?;
    let searched = Searched {
        gone_on: 0,
        left,
        depth: 0,
        moves: 0,
        is_whole: true,
    };
    Ok(Going {
        known,
        searched,
        others: Vec::new(alloc),
    })
}

impl<S: Drop> Going<S> {
    /// Whether no state is left, or more are found than there may be, or they are as deep as they may be.
    fn is_done(&self, bounds: Bounds) -> bool
        ensures more { OnFalse result (MayGoOn self.now.searched.gone_on self.now.searched.left.items self.now.searched.depth bounds) }
        ensures done { OnTrue result (IsCut self.now.searched.gone_on self.now.searched.left.items self.now.searched.depth bounds) }
    {
        let searched = &self.searched;
        searched.left.is_empty()
            || is_more(searched.gone_on, searched.left.len(), bounds.states)
            || searched.depth >= bounds.moves
    }

    /// Whether the last level is the one whose states are shared out among parts.
    fn is_shared_out(&self, part: Part) -> bool
        ensures { result ≡ shared_out part.of self.now.others.items self.now.searched.left.items }
    {
        self.others.is_empty() && part.is_enough(self.searched.left.len())
    }
}

/// Where the last level is shared out, those of it that are not the part's own are left to the others.
fn leave_others<S: Drop>(alloc: Global, going: Going<S>, part: Part) -> Result<Going<S>, AllocError>
    ensures left { IfOk result (λ next. AreLeft going.known.set next.known.set going.searched.gone_on going.searched.left.items going.others.items
        next.searched.gone_on next.searched.left.items next.others.items) }
    ensures own { IfOk result (λ next. next.searched.left.items ≡ kept_by part.number part.of going.others.items going.searched.left.items) }
    ensures others { IfOk result (λ next. next.others.items ≡ left_by part.number part.of going.others.items going.searched.left.items) }
    ensures depth { IfOk result (λ next. next.searched.depth ≡ going.searched.depth) }
    ensures whole { IfOk result (λ next. next.searched.is_whole ≡ going.searched.is_whole) }
{
    if !going.is_shared_out(part) {
        return Ok(going);
    }
    let Going {
        known,
        searched,
        mut others,
    } = going;
    let Searched {
        gone_on,
        left,
        depth,
        moves,
        is_whole,
    } = searched;
    let Parted {
        own,
        others: mut more,
    } = part.share_out(alloc, left)?;
    others.append(&mut more)?;
    let searched = Searched {
        gone_on,
        left: own,
        depth,
        moves,
        is_whole,
    };
    Ok(Going {
        known,
        searched,
        others,
    })
}

/// One level more.
fn go_on<M: Moves, R: Threads + Sync>(
    rt: &R,
    alloc: Global,
    moves: &mut M,
    going: Going<M::State>,
) -> Result<Going<M::State>, M::Fault>
    requires room { going.searched.depth < 2 ^ 64 - 1 }
    requires few { going.searched.gone_on + length going.searched.left.items < 2 ^ 64 }
    ensures alone { IfOk result (λ next. next.others.items ≡ going.others.items) }
    ensures deeper { IfOk result (λ next. next.searched.depth ≡ going.searched.depth + 1) }
    ensures gone { IfOk result (λ next. next.searched.gone_on ≡ going.searched.gone_on + length going.searched.left.items) }
    ensures space { M.space moves.new ≡ M.space moves.old }
    ensures going { IfOk result (λ next. (gone_on : List (Found M.State)) → IsGoing (M.begins (M.space moves.old)) (M.expands (M.space moves.old)) going.known.set gone_on going.searched.left.items going.others.items going.searched.depth going.searched.is_whole
        → IsGoing (M.begins (M.space moves.old)) (M.expands (M.space moves.old)) next.known.set (gone_on ++ going.searched.left.items) next.searched.left.items next.others.items next.searched.depth next.searched.is_whole) }
{
    let Going {
        mut known,
        searched,
        others,
    } = going;
    let Searched {
        gone_on,
        left,
        depth,
        moves: tried,
        is_whole: was_whole,
    } = searched;
    let Expanded {
        next: reached,
        is_whole,
    } = moves.expand(rt, left.as_slice())?;
    let tried = tried.saturating_add(reached.len() as u64);
    let next = add_all(alloc, &mut known, reached, depth + 1)?;
    let searched = Searched {
        gone_on: gone_on + left.len() as u64,
        left: next,
        depth: depth + 1,
        moves: tried,
        is_whole: was_whole & is_whole,
    };
    Ok(Going {
        known,
        searched,
        others,
    })
}

/// Searches all states that moves lead to from the first one, those nearest to it first, each once. It goes on level by level within the
/// bounds, and leaves the last level where it comes to one of them: then it is cut. It keeps the states of one level, and of all others the
/// keys.
pub fn search<M: Moves, R: Threads + Sync>(
    rt: &R,
    alloc: Global,
    moves: &mut M,
    bounds: Bounds,
) -> Result<Searched<M::State>, M::Fault>
    ensures searched { IfOk result (λ found. HasSearched (M.begins (M.space moves.old)) (M.expands (M.space moves.old)) found.gone_on found.left.items found.depth found.is_whole) }
    ensures cut { IfOk result (λ found. IsCut found.gone_on found.left.items found.depth bounds) }
    ensures within { IfOk result (λ found. IsWithin found.gone_on found.depth bounds) }
{
    let mut going = begin(alloc, moves)?;
    while !going.is_done(bounds) {
        going = go_on(rt, alloc, moves, going)?;
    }
    let Going {
        known: _known,
        searched,
        others: _others,
    } = going;
    Ok(searched)
}

/// A part of what `search` does. It searches as the whole does until a level has as many states for each part as are shared out, or to its
/// end. From there on it goes on from its own states of that level alone, and from what is new next to these. What it leaves of that level
/// to others is another part's own.
pub fn search_part<M: Moves, R: Threads + Sync>(
    rt: &R,
    alloc: Global,
    moves: &mut M,
    bounds: Bounds,
    part: Part,
) -> Result<PartSearched<M::State>, M::Fault>
    ensures part { IfOk result (λ found. HasShare (M.begins (M.space moves.old)) (M.expands (M.space moves.old)) part.number part.of found.searched.gone_on found.searched.left.items found.others.items found.searched.depth found.searched.is_whole) }
    ensures cut { IfOk result (λ found. IsCut found.searched.gone_on found.searched.left.items found.searched.depth bounds) }
    ensures within { IfOk result (λ found. IsWithin found.searched.gone_on found.searched.depth bounds) }
{
    let mut going = begin(alloc, moves)?;
    while !going.is_done(bounds) {
        going = leave_others(alloc, going, part)?;
        going = go_on(rt, alloc, moves, going)?;
    }
    let Going {
        known: _known,
        searched,
        others,
    } = going;
    Ok(PartSearched { searched, others })
}

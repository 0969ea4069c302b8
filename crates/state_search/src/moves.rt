//! What a search is of: states, and which are next to others.
ghost use Rattle.std.specs.Prelude.{◌≡◌, IfOk};

use crate::key::Key;
use std::alloc::AllocError;
use std::thread::Threads;

/// A state to which a move leads, with its key.
#[derive(Drop)]
pub struct Reached<S> {
    pub key: Key,
    pub state: S,
}

/// A state that a search found, and by how many moves.
#[derive(Drop)]
pub struct Found<S> {
    pub key: Key,
    pub state: S,
    pub moves: u64,
}

/// What was answered for some states.
#[derive(Drop)]
pub struct Expanded<S> {
    /// All states that are next to one of them.
    pub next: Vec<Reached<S>>,
    /// Whether no move was left out.
    pub is_whole: bool,
}

/// States, and the moves that lead from each to those next to it.
pub trait Moves {
    ghost use Rattle.std.specs.Prelude.{Bool, List};
    ghost use Rattle.state_search.specs.declared.moves.Found.{Found};
    ghost use Rattle.state_search.specs.declared.moves.Reached.{Reached};
    ghost use denote.Param.Send.{IsSync};

    type State: Drop;

    /// Why a search ends before its end.
    type Fault: From<AllocError> + Drop;

    /// Of what the states are. It stays the same.
    type Space;

    ghost space: { Self → Self.Space };

    // What may be answered for the first state.
    ghost begins: { Self.Space → Reached Self.State → Type 0 };

    // What may be answered for the states that are next to those of a level, and whether no move was left out.
    ghost expands: { Self.Space → List (Found Self.State) → List (Reached Self.State) → Bool → Type 0 };

    /// The first state.
    fn first(&mut self) -> Result<Reached<Self::State>, Self::Fault>
        ensures begins { IfOk result (λ first. begins (space self.old) first) }
        ensures space { space self.new ≡ space self.old };

    /// All states that are next to some of a level, all of which were found by as many moves, in an order that depends on these alone.
    /// Threads may share the work.
    fn expand<R: Threads + Sync>(
        &mut self,
        rt: &R,
        level: &[Found<Self::State>],
    ) -> Result<Expanded<Self::State>, Self::Fault>
        requires { IsSync R.row }
        ensures expands { IfOk result (λ expanded. expands (space self.old) level.now expanded.next.items expanded.is_whole) }
        ensures space { space self.new ≡ space self.old };
}

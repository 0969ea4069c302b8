//! Parts of a search: how the states of a level are shared out.
ghost use Rattle.std.specs.Prelude.{◌≡◌, IfOk};
ghost use Rattle.state_search.specs.Going.{IsParted, is_enough as are_enough};
ghost use Rattle.state_search.specs.Sharing.{next_turn as turn_after, others_from, own_from};

use crate::moves::Found;
use std::alloc::{AllocError, Global};

/// A level is shared out where it has as many states for each part.
const STATES_FOR_EACH: u64 = 64;

/// The part `number`, from 1, of `of` parts of a search.
#[derive(Clone, Copy, Debug, PartialEq, Eq)]
pub struct Part {
    pub number: u64,
    pub of: u64,
}

/// States of a level: a part's own, and those of the others.
#[derive(Drop)]
pub struct Parted<S> {
    pub own: Vec<Found<S>>,
    pub others: Vec<Found<S>>,
}

/// Whose turn it is after this one's, among so many.
fn next_turn(turn: u64, of: u64) -> u64
    ensures { result ≡ turn_after of turn }
{
    if turn >= of { 1 } else { turn + 1 }
}

impl Part {
    /// Whether so many states are shared out.
    pub fn is_enough(self, states: usize) -> bool
        ensures { result ≡ are_enough self.of states }
    {
        match STATES_FOR_EACH.checked_mul(self.of) {
            Some(least) => states as u64 >= least,
            None => false,
        }
    }

    /// Shares out states, one after the other to the first part, to the second, and so on, and again to the first.
    pub fn share_out<S: Drop>(
        self,
        alloc: Global,
        states: Vec<Found<S>>,
    ) -> Result<Parted<S>, AllocError>
        ensures parted { IfOk result (λ parted. IsParted states.items parted.own.items parted.others.items) }
        ensures own { IfOk result (λ parted. parted.own.items ≡ own_from self.number self.of 1 states.items) }
        ensures others { IfOk result (λ parted. parted.others.items ≡ others_from self.number self.of 1 states.items) }
    {
        let mut own = Vec::new(alloc);
        let mut others = Vec::new(alloc);
        let mut turn = 1u64;
        for found in states {
            if turn == self.number {
                own.push(found)?;
            } else {
                others.push(found)?;
            }
            turn = next_turn(turn, self.of);
        }
        Ok(Parted { own, others })
    }
}

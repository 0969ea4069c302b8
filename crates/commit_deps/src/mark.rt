//! What an event rests on, as a commit sequence number.
ghost use Rattle.std.specs.Prelude.{◌≡◌, ◌+◌, ◌^◌, ◌<◌, max, nat_le};

use std::marker::Model;

/// The changes on which an event rests. Changes are committed in their order, so the last of them says it all: the mark is how many
/// have to be committed, 0 where the event rests on none.
#[derive(Clone, Copy, Debug, PartialEq, Eq)]
pub struct Mark {
    needs: u64,
}

impl Model for Mark {
    ghost use Rattle.std.specs.Prelude.{ℕ};

    ghost Value = { ℕ };

    ghost view = { λ m. m.needs };

    ghost inverse = { λ needs. record { needs = needs } };
}

impl Mark {
    /// The mark of an event that rests on no change.
    pub fn none() -> Mark
        ensures { result ≡ 0 }
    {
        Mark { needs: 0 }
    }

    /// The mark of an event that makes a change, by the change's number from 0, and rests on no other.
    pub fn of_change(change: u64) -> Mark
        requires { change + 1 < 2 ^ 64 }
        ensures { result ≡ change + 1 }
    {
        Mark { needs: change + 1 }
    }

    /// Whether the first `committed` changes have all on which the event rests, so that what it gave may be seen.
    #[inline]
    pub fn below(self, committed: u64) -> bool
        ensures { result ≡ nat_le self committed }
    {
        self.needs <= committed
    }

    /// The mark of what rests on both.
    #[inline]
    pub fn joined(self, other: Mark) -> Mark
        ensures { result ≡ max self other }
    {
        Mark {
            needs: self.needs.max(other.needs),
        }
    }
}

//! `Totals`: the four numbers of a history. `totals_of`: those of a core's.
ghost use Rattle.std.specs.Prelude.{◌≡◌, length};
ghost use Rattle.kernel_model.specs.Ran.{ran_by_turns};
ghost use Rattle.kernel.specs.Sums.{sum_of_turns, sum_of_enters};

use kernel::Core;

/// The four numbers of a history, or of what one holder of a share did.
#[derive(Clone, Copy, Debug, PartialEq, Eq)]
pub struct Totals {
    /// How many events there are.
    pub events: u64,
    /// How many instructions the Turns ran.
    pub ran: u64,
    /// The sum of the process numbers of the Turns.
    pub turns: u64,
    /// The sum of the process numbers of the Enters.
    pub enters: u64,
}

/// The four numbers of a core's history, as the core counts them. Takes no memory.
pub fn totals_of(core: &Core) -> Totals
    ensures events { result.events ≡ length core.now.history }
    ensures ran { result.ran ≡ ran_by_turns core.now }
    ensures turns { result.turns ≡ sum_of_turns core.now.history }
    ensures enters { result.enters ≡ sum_of_enters core.now.history }
{
    Totals {
        events: core.history().len() as u64,
        ran: core.ran(),
        turns: core.sum_of_turns(),
        enters: core.sum_of_enters(),
    }
}

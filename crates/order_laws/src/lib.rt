//! Laws of orders: which orders of calls come to the same, and that a search of few of them finds the outcomes of all.
//!
//! Read `orders`, the whole promise.
#![tactic(auto)]

ghost use Rattle.std.specs.Prelude.{◌≡◌, ◌≤◌, ◌⊎◌, List, ℕ, Bool, length};
ghost use Rattle.kernel_model.specs.declared.event.Event.{Event};
ghost use Rattle.kernel_model.specs.Limits.{AreNumbered};
ghost use Rattle.kernel_model.specs.World.{Boot, run_of};
ghost use Rattle.order_laws.specs.Moves.{Seen, calls, events, first_seen};
ghost use Rattle.order_laws.specs.Orders.{Commutes, HasChosen, HasSorted, IsChoice, IsComplete, reached};
ghost use Rattle.order_laws.specs.Outcomes.{AllStand, AreSearched, HasOutcomes, IsSeenOf};
ghost use Rattle.order_laws.specs.Privacy.{IsPrivate};
ghost use Rattle.order_laws.specs.Searches.{FoundState, HasState, IsSearchOf, LeftNone};

/// A law, the whole of it: every outcome of any run is among those that a complete search of the calls found.
///
/// A call is a move: its process enters, and runs on to where it stops, at most n instructions. `commute` says that two calls one after
/// the other, neither of which writes what the other reads, come to the same state in the other order. A call that waits is no move.
///
/// `events` and `calls`: whatever events or calls come, in whatever order, a sorted order of no more of them comes to the same. In it
/// no move could have been made before one of a process with a higher number.
///
/// `chosen`: where a search meets a private call it may try that call alone. Each complete order, after which no call can be made, comes
/// to the same as one of such calls, of as many. `once`: so a search that comes to each state once, and goes on from it by a private call
/// or by each, finds its end, by as few calls, up to the depth to which it went.
///
/// `outcomes`: let a search leave no state, and let each process stand or have ended in each that it found. Then take a run of any
/// events: Turns of any length, Cuts, completions and failures. Where no process can go on, what the run came to was found. And whatever
/// a run has committed by a crash, one state has just these files, and each terminal there at least what was shown: so crashes ask for no
/// orders of their own.
///
/// `seen`: what is seen here of a run is the kernel's state, and all that its terminals were written.
///
/// The first five hold of each state whose files have their numbers, as they have in each state of a run
/// (`kernel_model::tables_keep_their_limits`).
pub fn orders()
    ensures commute { (n : ℕ) → Commutes (calls n) (λ s. AreNumbered s.sync.files) }
    ensures events { (s : Seen) (es : List Event) → AreNumbered s.sync.files → HasSorted events s es }
    ensures calls { (n : ℕ) (s : Seen) (ps : List ℕ) → AreNumbered s.sync.files → HasSorted (calls n) s ps }
    ensures chosen { (n : ℕ) (chosen : Seen → ℕ → Bool) → IsChoice (calls n) IsPrivate chosen → (s : Seen) (ps : List ℕ) → AreNumbered s.sync.files
        → IsComplete (calls n) s ps → HasChosen (calls n) chosen s ps }
    ensures once { (n : ℕ) (s : Seen) (found : List (FoundState Seen)) (depth : ℕ) → IsSearchOf (calls n) IsPrivate s found depth
        → (ps : List ℕ) → AreNumbered s.sync.files → IsComplete (calls n) s ps → LeftNone found depth ⊎ (length ps ≤ depth)
        → HasState found (reached (calls n) s ps) (length ps) }
    ensures outcomes { (n : ℕ) (b : Boot) (found : List (FoundState Seen)) (depth : ℕ) → AreSearched n b found depth → LeftNone found depth
        → AllStand found → (es : List Event) → HasOutcomes n b found es }
    ensures seen { (b : Boot) (es : List Event) → IsSeenOf (run_of b es) (reached events (first_seen b) es) }
{}

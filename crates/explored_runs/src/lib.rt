//! All outcomes of programs, whatever the order of their calls.
//!
//! Read `explore_orders` first. `runs` says which runs a call leads to: `programs` are booted, and the calls of a run are done on a core by
//! `replayed_runs`, which tells runs apart by keys. `run_search` has `state_search` search them: a `crew` of threads shares each level, and
//! replays its runs from `checkpoints`. Whoever listens is told what was found, as `sorting` sorts it out. `call_search` says of any such
//! search what it finds. What a run comes to is an `outcome`, which `order_outcomes` keeps once; it prints the file of a part too.
//! `explore_states` hands out the states themselves, and the windows between syncs.
#![tactic(auto)]

mod call_search;
mod checkpoints;
mod crew;
mod ends;
mod exploring;
mod limits;
mod outcome;
mod programs;
mod run_search;
mod runs;
mod saved;
mod sorting;
mod visited;
mod visiting;

pub use exploring::{Wanted, explore_orders};
pub use limits::Limits;
pub use visited::{VisitedState, Visits};
pub use visiting::{ExploredStates, StateTaker, end_of_calls, explore_states, lines_of_calls};

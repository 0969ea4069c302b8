//! `bench crashes --recover`: whether the user's recovery gets over what each crash of a run leaves.
//!
//! Read `try_recoveries` first, which has a run visited, and a `Tester` run the recovery on what is handed to it. `Orders` runs it on states
//! that a search of all orders of calls shows it, or on their windows. `save` writes the first recovery that fails as two scripts. Beside
//! safety it is proved what is told of what came of all (`verdict_of`).
#![tactic(auto)]

mod orders;
mod saving;
mod verdict;

pub use orders::{OrderState, Orders, OrdersTried};
pub use saving::save;
pub use verdict::{SearchedStates, Subject, Tested, Trial, Verdict, try_recoveries};

//! The user's recovery, run on what crashes leave.
//!
//! Read `Tester` first, a `Taker`. It has threads (`crew`) run recoveries, a `Batch` together, which `Nested` visits, and again after their
//! own crashes. By `Sights` it leaves out what no recovery can tell from what was tried. The first recovery that fails is a `Failure`. Beside
//! safety it is proved what a `Batch` answers.
#![tactic(auto)]

mod asked;
mod batch;
mod crew;
mod effort;
mod failure;
mod nested;
mod pending;
mod recovery;
mod running;
mod sights;
mod testing;
mod tried;

pub use effort::{Effort, Part};
pub use failure::Failure;
pub use pending::Tally;
pub use recovery::{Recovery, RecoveryProgram};
pub use testing::Tester;

//! A process's machine: how it begins, its runs, and replies to its calls. Read `Machine` first, then `run` and `reply`. Contracts
//! say runs and replies exactly as `machine_model` defines them, also over self-modifying code.
#![tactic(auto)]

mod kept;
mod laws;
mod loading;
mod machine;
mod shared;
mod standing;
mod stopping;

pub use kept::KeptMachine;
pub use laws::segments_are_loaded;
pub use machine::Machine;
pub use machine_model::{Cause, Image, Reply, Segment, Stop};
pub use shared::SharedMachine;

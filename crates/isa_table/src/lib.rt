//! Executes single instructions of RV32IM over any memory that is a `Bus`. Read `exec` first, then `Outcome`. Each step is
//! exactly the effect that `machine_model` defines for the instruction.
#![tactic(auto)]

mod arithmetic;
mod execute;
mod operation;
mod regs;

pub use arithmetic::{moved, sign_extended};
pub use execute::{Outcome, exec, exec_ref};
pub use formats::{Arithmetic, Condition};
pub use machine_model::{Bus, BusFault, Cause, Width};
pub use operation::{computed, holds};
pub use regs::Regs;

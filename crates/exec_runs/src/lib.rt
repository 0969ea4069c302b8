//! Runs by turns: one thread has the processes of a core run in an order that a seed decides, up to a limit of instructions. And the exit
//! status of a run by one of its processes. Read `Turns` and `status_of` first. Of `Turns` only safety is proved.
#![tactic(auto)]

mod choosing;
mod ending;
mod exit_status;
mod random;
mod turns;

pub use choosing::Order;
pub use ending::Ending;
pub use exit_status::status_of;
pub use turns::Turns;

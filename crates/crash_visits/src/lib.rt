//! Visits a run, and hands what its crashes leave to a `Taker`.
//!
//! A `Trier` visits the run, or, by other rules of commits, a `WindowTrier`, whose windows have `WindowLists`. `explore` and `explore_by` print
//! what crashes leave. Beside safety it is proved up to which bound all was tried (`WindowLists::bound`).
#![tactic(auto)]

mod deeds;
mod listing;
mod outcomes;
mod trying;
mod window_lists;
mod windows;

pub use listing::explore_by;
pub use outcomes::explore;
pub use trying::Trier;
pub use window_lists::{Bound, Closed, Promised, Rule, WindowLists};
pub use windows::WindowTrier;

//! The board of a run: how many changes are committed and how many there are, as sequence-locked counters. Read `Board` first. Any
//! thread reads it without a lock; what it reads is never below what it read before, nor above what was published.
#![tactic(auto)]

mod board;
mod opening;
mod steps;

pub use board::{Board, Pass, View, Writer};
pub use opening::Opening;

//! A search of all states that moves lead to, each once, the nearest first.
//!
//! Read `Moves` first: whoever has states searched says by it what the first one is, and which are next to others. `search` then finds
//! all, up to a bound, and `search_part` does a part of it. A `StateDigest` makes keys. It knows nothing of kernels.
#![tactic(auto)]

mod bounds;
mod key;
mod keys;
mod moves;
mod parts;
mod searching;
mod state_digest;

pub use bounds::Bounds;
pub use key::Key;
pub use moves::{Expanded, Found, Moves, Reached};
pub use parts::Part;
pub use searching::{PartSearched, Searched, search, search_part};
pub use state_digest::StateDigest;

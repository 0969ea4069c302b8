//! Keys of states.

/// What tells a state from others: states with the same key count as one.
#[derive(Clone, Copy, Debug, PartialEq, Eq, Hash)]
pub struct Key {
    pub high: u64,
    pub low: u64,
}

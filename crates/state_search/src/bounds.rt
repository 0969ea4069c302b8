//! How far a search goes.

/// How far a search goes.
#[derive(Clone, Copy, Debug, PartialEq, Eq)]
pub struct Bounds {
    /// No further level is searched where more states were found.
    pub states: u64,
    /// Nor is a level to which so many moves lead.
    pub moves: u64,
}

//! What a cut is about to do, with all its memory taken.
use disk_model::Piece;

/// The writes of a group, and what is committed with it.
#[derive(Drop)]
pub struct CutPlan {
    /// The pieces that are submitted at once.
    pub first: Vec<Piece>,
    /// The stages to be submitted after them.
    pub later: Vec<Vec<Piece>>,
    /// How many pieces these are.
    pub writes: u64,
    /// The half in use once the group is committed.
    pub half: bool,
    /// The first gate in it that is not open then.
    pub gate: u32,
    /// How many changes the group commits.
    pub count: u64,
    /// How many changes are committed with it in all.
    pub committed: u64,
}

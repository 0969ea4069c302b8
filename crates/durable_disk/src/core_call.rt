//! `CoreCall`: what a stage asks its core, and tells it.

/// A call of a core that it did not refuse.
#[derive(Clone, Copy)]
pub enum CoreCall {
    /// It was asked for the writes in flight, and gave so many.
    InFlight(usize),
    /// It was told that the write in flight which begins at this offset of the disk is complete.
    Complete(u32),
    /// It was told that this write has failed.
    Fail(u32),
}

//! Searches of all orders that end early.
use thiserror::Error;

/// An outcome that is not among those that are expected, or a search that left something unexplored.
#[derive(Clone, Copy, Debug, Error)]
pub enum ExplorationFault {
    /// The first outcome that is not expected, by its number.
    #[error("outcome not expected: outcome {outcome}")]
    NotExpected { outcome: u64 },
    /// So many states are left, to each of which so many calls lead.
    #[error("not all explored: {left} states are left after {calls} calls; --most-states and --most-calls say how far")]
    Cut { left: u64, calls: u64 },
    /// The first outcome, by its number, in which a process ran as far as it may, and came to no call.
    #[error("not all explored: a process runs on in outcome {outcome}; --limit says how far")]
    RunsOn { outcome: u64 },
}

//! Why bytes cannot be copied from a program.
use memory_model::BusFault;
use thiserror::Error;

/// Why `Space::copy_in` gives no bytes.
#[derive(Clone, Copy, Debug, PartialEq, Eq, Error)]
pub enum CopyFault {
    /// A byte may not be read.
    #[error("{0}")]
    Fault(BusFault),
    /// The copy does not fit in memory. It is tried only where each byte may be read.
    #[error("out of memory")]
    OutOfMemory,
}

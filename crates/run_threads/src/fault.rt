//! `RunFault`: why a run ends early.
use kernel::Refused;
use std::alloc::{AllocError, AllocFailed};
use thiserror::Error;

/// Why a run ends early.
#[derive(Clone, Copy, Debug, PartialEq, Eq, Error)]
pub enum RunFault {
    /// Memory, a thread, or room in the history could not be had.
    #[error("out of memory")]
    OutOfMemory,
    /// A write of the disk has failed, so that no change is committed any more.
    #[error("disk failed")]
    DiskFailed,
    /// What terminals show could not be written out.
    #[error("output failed")]
    Output,
}

impl From<AllocError> for RunFault {
    fn from(_error: AllocError) -> RunFault {
        RunFault::OutOfMemory
    }
}

impl<T: Drop> From<AllocFailed<T>> for RunFault {
    fn from(_failed: AllocFailed<T>) -> RunFault {
        RunFault::OutOfMemory
    }
}

impl From<Refused> for RunFault {
    fn from(why: Refused) -> RunFault {
        match why {
            Refused::DiskFailed => RunFault::DiskFailed,
            _ => RunFault::OutOfMemory,
        }
    }
}

//! Why no more crashes are tried.
use faults::Fault;
use journal::DiskFault;
use std::alloc::{AllocError, AllocFailed};
use std::io;

/// Why no more crashes are tried before the run is over.
#[derive(Drop)]
pub enum Stop {
    Fault(Fault),
    /// A recovery failed.
    Failed,
    /// More was shown than a tape holds.
    TooLong,
}

impl Stop {
    /// The fault, where nothing else can end it.
    pub fn into_fault(self) -> Fault {
        match self {
            Stop::Fault(fault) => fault,
            Stop::Failed | Stop::TooLong => Fault::OutOfMemory,
        }
    }
}

impl From<Fault> for Stop {
    fn from(fault: Fault) -> Stop {
        Stop::Fault(fault)
    }
}

impl From<AllocError> for Stop {
    fn from(_error: AllocError) -> Stop {
        Stop::Fault(Fault::OutOfMemory)
    }
}

impl<T: Drop> From<AllocFailed<T>> for Stop {
    fn from(_failed: AllocFailed<T>) -> Stop {
        Stop::Fault(Fault::OutOfMemory)
    }
}

impl From<DiskFault> for Stop {
    fn from(fault: DiskFault) -> Stop {
        Stop::Fault(Fault::from(fault))
    }
}

impl From<io::Error> for Stop {
    fn from(error: io::Error) -> Stop {
        Stop::Fault(Fault::from(error))
    }
}

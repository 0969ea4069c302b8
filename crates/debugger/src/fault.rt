//! Why a debugger refuses.
ghost use Rattle.std.specs.Prelude.{◌≡◌};
ghost use Rattle.debugger.specs.Faults.{number_of};
ghost use Rattle.debugger.specs.declared.fault.DebugFault.TheVariants.{OutOfMemory};

use std::alloc::{AllocError, AllocFailed};
use thiserror::Error;

/// Why a call of a debugger was refused. Its text is its name.
#[derive(Clone, Copy, Debug, PartialEq, Eq, Error)]
pub enum DebugFault {
    /// A step at a call that the trace has no reply for, or a rewind to above the present count.
    #[error("PastTrace")]
    PastTrace = 1,
    /// 64 breakpoints are set.
    #[error("BreakTableFull")]
    BreakTableFull = 2,
    /// Memory ran out.
    #[error("OutOfMemory")]
    OutOfMemory = 3,
    /// No breakpoint has this number.
    #[error("NoSuchBreak")]
    NoSuchBreak = 4,
    /// A step at count 2^40.
    #[error("Budget")]
    Budget = 5,
}

impl DebugFault {
    /// Its number, 1 to 5.
    pub fn number(self) -> u8
        ensures { result ≡ number_of self }
    {
        self as u8
    }
}

impl From<AllocError> for DebugFault {
    ghost from_gives = { λ _ e. e ≡ OutOfMemory };

    fn from(_error: AllocError) -> DebugFault {
        DebugFault::OutOfMemory
    }
}

impl<T: Drop> From<AllocFailed<T>> for DebugFault {
    ghost from_gives = { λ _ e. e ≡ OutOfMemory };

    fn from(_error: AllocFailed<T>) -> DebugFault {
        DebugFault::OutOfMemory
    }
}

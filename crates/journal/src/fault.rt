//! Why a disk cannot be read.
ghost use Rattle.std.specs.Prelude.{◌≡◌};
ghost use Rattle.journal.specs.Faults.{number_of};
ghost use Rattle.journal.specs.declared.fault.DiskFault.TheVariants.{OutOfMemory};

use std::alloc::{AllocError, AllocFailed};
use std::fmt;
use thiserror::Error;

/// Why a disk cannot be read: the first fault of its records, in the order in which they stand. Inside a record PastHalf comes
/// before BadRecord, and BadRecord before BadChange.
#[derive(Clone, Copy, Debug, PartialEq, Eq, Error)]
pub enum DiskFault {
    /// A body that is no list of changes, or has a bad byte in a name.
    BadRecord = 1,
    /// A change that is not possible where it comes. It creates a name that is there or a 33rd file, changes a file that is not
    /// there, writes past 16,384 bytes, or renames a file to its own name.
    BadChange = 2,
    /// The gate after a record would lie outside the half.
    PastHalf = 3,
    /// Memory ran out. It tells nothing about the disk.
    OutOfMemory = 4,
}

impl DiskFault {
    /// Its number, 1 to 4.
    pub fn number(self) -> u8
        ensures { result ≡ number_of self }
    {
        self as u8
    }

    fn text(self) -> &'static str {
        match self {
            DiskFault::BadRecord => "a record's body is no list of changes",
            DiskFault::BadChange => "a record has a change that is not possible",
            DiskFault::PastHalf => "a record ends past its half",
            DiskFault::OutOfMemory => "out of memory",
        }
    }
}

impl fmt::Display for DiskFault {
    fn fmt<W: fmt::Write>(&self, f: &mut fmt::Formatter<W>) -> fmt::Result {
        f.write_str(self.text())
    }
}

impl From<AllocError> for DiskFault {
    ghost from_gives = { λ _ e. e ≡ OutOfMemory };

    fn from(_error: AllocError) -> DiskFault {
        DiskFault::OutOfMemory
    }
}

impl<T: Drop> From<AllocFailed<T>> for DiskFault {
    ghost from_gives = { λ _ e. e ≡ OutOfMemory };

    fn from(_error: AllocFailed<T>) -> DiskFault {
        DiskFault::OutOfMemory
    }
}

//! Why a call of a device is refused.
ghost use Rattle.std.specs.Prelude.{◌≡◌};
ghost use Rattle.simdisk.specs.Refusals.{number_of};
ghost use Rattle.simdisk.specs.declared.refusal.DiskRefusal.TheVariants.{OutOfMemory};

use std::alloc::{AllocError, AllocFailed};
use std::fmt;
use thiserror::Error;

/// Why a call was refused. A refused call changes nothing.
#[derive(Clone, Copy, Debug, PartialEq, Eq, Error)]
pub enum DiskRefusal {
    /// No write in flight begins there.
    NoSuchWrite = 1,
    /// A write that is empty, has over 4,096 bytes, reaches past the end, or meets a range in flight or failed.
    OutOfRange = 2,
    /// Memory ran out.
    OutOfMemory = 3,
    /// A disk of other than 2,097,152 bytes.
    BadLength = 4,
}

impl DiskRefusal {
    /// Its number, 1 to 4.
    pub fn number(self) -> u8
        ensures { result ≡ number_of self }
    {
        self as u8
    }

    fn text(self) -> &'static str {
        match self {
            DiskRefusal::NoSuchWrite => "no write in flight begins there",
            DiskRefusal::OutOfRange =>
                "the write is empty, too long, past the end, or meets another",
            DiskRefusal::OutOfMemory => "out of memory",
            DiskRefusal::BadLength => "a disk has 2,097,152 bytes",
        }
    }
}

impl fmt::Display for DiskRefusal {
    fn fmt<W: fmt::Write>(&self, f: &mut fmt::Formatter<W>) -> fmt::Result {
        f.write_str(self.text())
    }
}

impl From<AllocError> for DiskRefusal {
    ghost from_gives = { λ _ e. e ≡ OutOfMemory };

    fn from(_error: AllocError) -> DiskRefusal {
        DiskRefusal::OutOfMemory
    }
}

impl<T: Drop> From<AllocFailed<T>> for DiskRefusal {
    ghost from_gives = { λ _ e. e ≡ OutOfMemory };

    fn from(_error: AllocFailed<T>) -> DiskRefusal {
        DiskRefusal::OutOfMemory
    }
}

//! Why a file is refused.
ghost use Rattle.std.specs.Prelude.{◌≡◌};
ghost use Rattle.image_model.specs.Faults.{number_of};
ghost use Rattle.image_model.specs.declared.fault.ElfFault.TheVariants.{OutOfMemory};

use std::alloc::{AllocError, AllocFailed};
use thiserror::Error;

/// Why a file is refused: the first check that fails. The checks go in this order, each over all program headers before the next.
/// `OutOfMemory` comes only of a file that has no fault. The text of a fault is its name.
#[derive(Clone, Copy, Debug, PartialEq, Eq, Error)]
pub enum ElfFault {
    /// Fewer than 52 bytes.
    #[error("Short")]
    Short = 1,
    /// The first four bytes are not 7F 45 4C 46.
    #[error("BadMagic")]
    BadMagic = 2,
    /// Not 32 bits, little-endian, version 1, or bytes 7 to 15 are not 0.
    #[error("BadIdent")]
    BadIdent = 3,
    /// No executable file for RISC-V of version 1.
    #[error("BadKind")]
    BadKind = 4,
    /// The program headers are not 1 to 4 of 32 bytes at 52, or the file has flags or sections.
    #[error("BadHeader")]
    BadHeader = 5,
    /// The program headers pass the file's end.
    #[error("ShortTable")]
    ShortTable = 6,
    /// A segment of another type or alignment, of no memory, or with no right or an unknown one. Also one whose offset and address
    /// differ modulo 4096.
    #[error("BadSegment")]
    BadSegment = 7,
    /// A segment with more bytes in the file than in memory.
    #[error("BadSize")]
    BadSize = 8,
    /// A segment whose bytes pass the file's end.
    #[error("PastEnd")]
    PastEnd = 9,
    /// A segment below 0x00010000 or past 0x7FFF0000, or over 60 pages in all.
    #[error("BadRange")]
    BadRange = 10,
    /// A segment that does not begin on a page above those of the segment before.
    #[error("Overlap")]
    Overlap = 11,
    /// The entry is no multiple of 4, or in no segment that may be executed.
    #[error("BadEntry")]
    BadEntry = 12,
    /// There was not enough memory.
    #[error("OutOfMemory")]
    OutOfMemory = 13,
}

impl ElfFault {
    /// Its number, 1 to 13.
    pub fn number(self) -> u8
        ensures { result ≡ number_of self }
    {
        self as u8
    }
}

impl From<AllocError> for ElfFault {
    ghost from_gives = { λ _ e. e ≡ OutOfMemory };

    fn from(_error: AllocError) -> ElfFault {
        ElfFault::OutOfMemory
    }
}

impl<T: Drop> From<AllocFailed<T>> for ElfFault {
    ghost from_gives = { λ _ e. e ≡ OutOfMemory };

    fn from(_error: AllocFailed<T>) -> ElfFault {
        ElfFault::OutOfMemory
    }
}

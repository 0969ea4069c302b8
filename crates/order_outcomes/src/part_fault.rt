//! Why files of parts are not merged.
use faults::Fault;
use std::alloc::{AllocError, AllocFailed, Global};
use std::fmt::Display;

/// The status where a part is refused, or missing.
const REFUSED: u8 = 2;

/// Why the file of a part is refused.
#[derive(Clone, Copy)]
pub enum PartFault {
    /// Its first line is another one.
    NoPart,
    /// Its last line has not the sum of the others.
    Damaged,
    /// It is of other programs than the first file, of other limits, or of another number of parts.
    OtherPrograms,
    OtherLimits,
    OtherNumber,
    /// Its part was there already.
    Twice,
    OutOfMemory,
}

impl From<AllocError> for PartFault {
    fn from(_error: AllocError) -> PartFault {
        PartFault::OutOfMemory
    }
}

impl<T: Drop> From<AllocFailed<T>> for PartFault {
    fn from(_failed: AllocFailed<T>) -> PartFault {
        PartFault::OutOfMemory
    }
}

impl PartFault {
    /// The fault of the file at a path.
    pub fn of(self, alloc: Global, path: &str) -> Fault {
        let why = match self {
            PartFault::NoPart => "is no part of an exploration",
            PartFault::Damaged => "is damaged",
            PartFault::OtherPrograms => "is of other programs than the first",
            PartFault::OtherLimits => "is of other limits than the first",
            PartFault::OtherNumber => "is of another number of parts than the first",
            PartFault::Twice => "is of a part that was there already",
            PartFault::OutOfMemory => return Fault::OutOfMemory,
        };
        refused(alloc, path, why)
    }
}

/// The fault of a part, by its file or its number.
pub fn refused<P: Display + Drop>(alloc: Global, part: P, why: &str) -> Fault {
    match format!(in alloc; "part refused: {part} {why}") {
        Ok(text) => Fault::told(text, REFUSED),
        Err(_) => Fault::OutOfMemory,
    }
}

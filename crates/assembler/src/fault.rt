//! `AsmFault`: why a source is refused, and where. `Cause` has the seven reasons.
ghost use Rattle.std.specs.Prelude.{◌≡◌};
ghost use Rattle.assembler.specs.Faults.{number_of, out_of_memory, whole, fault_at, of_text};

use asm_text::{Line, TextFault};
use std::alloc::{AllocError, AllocFailed};
use std::fmt;
use thiserror::Error;

/// Why a source is refused.
#[derive(Clone, Copy, Debug, PartialEq, Eq, Error)]
pub enum Cause {
    /// What stands at this place has not the form of a line, a statement or an operand.
    Syntax = 1,
    /// An operand names a label that the source does not have.
    UnknownName = 2,
    /// A label has the name of one further up.
    DoubleLabel = 3,
    /// A number does not fit where it stands. With the forms of the lines it is found of a `.space` whose size is negative, or in text
    /// is no multiple of 4. Where these have no fault it is found, with the labels' addresses, of:
    ///
    /// - a byte outside -128 to 255, or upper bits outside 0 to 0xFFFFF;
    /// - an immediate, or the offset of a load or a store, outside -2048 to 2047;
    /// - a shift outside 0 to 31;
    /// - a target whose distance is no multiple of 4, or lies outside -4096 to 4092 for a branch, or outside -1048576 to 1048572
    ///   for a jump.
    Range = 4,
    /// No label `_start` stands before a word of text. The source as a whole has this fault, and the next two.
    NoStart = 5,
    /// The source has over 1,048,576 bytes, or the image over 60 pages.
    TooLarge = 6,
    /// Memory ran out.
    OutOfMemory = 7,
}

impl Cause {
    /// Its number, 1 to 7.
    pub fn number(self) -> u8
        ensures { result ≡ number_of self }
    {
        self as u8
    }

    fn name(self) -> &'static str {
        match self {
            Cause::Syntax => "Syntax",
            Cause::UnknownName => "UnknownName",
            Cause::DoubleLabel => "DoubleLabel",
            Cause::Range => "Range",
            Cause::NoStart => "NoStart",
            Cause::TooLarge => "TooLarge",
            Cause::OutOfMemory => "OutOfMemory",
        }
    }
}

impl fmt::Display for Cause {
    fn fmt<W: fmt::Write>(&self, f: &mut fmt::Formatter<W>) -> fmt::Result {
        f.write_str(self.name())
    }
}

/// Why a source is refused, and where. Lines and columns count from 1, columns in bytes. A fault of the source as a whole stands at
/// 1:1.
#[derive(Clone, Copy, Debug, PartialEq, Eq, Error)]
#[error("{why} at {line}:{column}")]
pub struct AsmFault {
    pub why: Cause,
    pub line: usize,
    pub column: usize,
}

impl AsmFault {
    /// A fault of the source as a whole, at 1:1.
    pub fn whole(why: Cause) -> AsmFault
        ensures { result ≡ whole why }
    {
        AsmFault {
            why,
            line: 1,
            column: 1,
        }
    }
}

/// A fault at byte `at` of the source, which lies in this line.
pub fn fault_at(source: &[u8], line: &Line, why: Cause, at: usize) -> AsmFault
    ensures { result ≡ fault_at source.now line.now why at }
{
    AsmFault {
        why,
        line: line.number,
        column: at.min(source.len()).saturating_sub(line.start) + 1,
    }
}

impl From<AllocError> for AsmFault {
    ghost from_gives = { λ _ fault. fault ≡ out_of_memory };

    fn from(_error: AllocError) -> AsmFault {
        AsmFault::whole(Cause::OutOfMemory)
    }
}

impl<T: Drop> From<AllocFailed<T>> for AsmFault {
    ghost from_gives = { λ _ fault. fault ≡ out_of_memory };

    fn from(_failed: AllocFailed<T>) -> AsmFault {
        AsmFault::whole(Cause::OutOfMemory)
    }
}

impl From<TextFault> for AsmFault {
    ghost from_gives = { λ text fault. fault ≡ of_text text };

    fn from(fault: TextFault) -> AsmFault {
        let why = match fault.why {
            asm_text::Cause::Syntax => Cause::Syntax,
            asm_text::Cause::OutOfMemory => Cause::OutOfMemory,
        };
        AsmFault {
            why,
            line: fault.line,
            column: fault.column,
        }
    }
}

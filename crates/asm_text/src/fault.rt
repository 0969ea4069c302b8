//! Why a source has no tokens.
ghost use Rattle.std.specs.Prelude.{◌≡◌};
ghost use Rattle.asm_text.specs.Faults.{number_of, out_of_memory};

use std::alloc::{AllocError, AllocFailed};
use thiserror::Error;

/// What is wrong.
#[derive(Clone, Copy, Debug, PartialEq, Eq, Error)]
pub enum Cause {
    /// A byte, a word, a number or a string has none of the forms of a source.
    #[error("syntax")]
    Syntax = 1,
    /// Memory ran out.
    #[error("out of memory")]
    OutOfMemory = 2,
}

impl Cause {
    /// Its number, 1 or 2.
    pub fn number(self) -> u8
        ensures { result ≡ number_of self }
    {
        self as u8
    }
}

/// Why a source has no tokens, and where. Lines and columns count from 1, columns in bytes. Out of memory stands at 1:1.
#[derive(Clone, Copy, Debug, PartialEq, Eq, Error)]
#[error("{line}:{column}: {why}")]
pub struct TextFault {
    pub why: Cause,
    pub line: usize,
    pub column: usize,
}

impl TextFault {
    fn out_of_memory() -> TextFault
        ensures { result ≡ out_of_memory }
    {
        TextFault {
            why: Cause::OutOfMemory,
            line: 1,
            column: 1,
        }
    }
}

impl From<AllocError> for TextFault {
    ghost from_gives = { λ _ fault. fault ≡ out_of_memory };

    fn from(_error: AllocError) -> TextFault {
        TextFault::out_of_memory()
    }
}

impl<T: Drop> From<AllocFailed<T>> for TextFault {
    ghost from_gives = { λ _ fault. fault ≡ out_of_memory };

    fn from(_failed: AllocFailed<T>) -> TextFault {
        TextFault::out_of_memory()
    }
}

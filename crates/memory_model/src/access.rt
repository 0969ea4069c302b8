//! Accesses of a memory.
ghost use Rattle.std.specs.Prelude.{◌≡◌};
ghost use Rattle.memory_model.specs.Numbers.{fault_number};

use thiserror::Error;

/// What may be done with the bytes of a page.
#[derive(Clone, Copy, Debug, PartialEq, Eq)]
pub struct Rights {
    pub read: bool,
    pub write: bool,
    pub execute: bool,
}

/// How many bytes an access has: 1, 2 or 4.
#[derive(Clone, Copy, Debug, PartialEq, Eq)]
pub enum Width {
    Byte,
    Half,
    Word,
}

/// Why an access is refused. Misaligned is tested first; else the lowest byte that may not be used decides.
#[derive(Clone, Copy, Debug, PartialEq, Eq, Error)]
pub enum BusFault {
    /// No page is there.
    #[error("no page is there")]
    Unmapped = 1,
    /// The page lacks the right.
    #[error("the page lacks the right")]
    NoRight = 2,
    /// The address is no multiple of the width.
    #[error("the address is no multiple of the width")]
    Misaligned = 3,
}

impl BusFault {
    /// Its number, 1 to 3.
    pub fn number(self) -> u8
        ensures { result ≡ fault_number self }
    {
        self as u8
    }
}

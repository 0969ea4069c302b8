//! `CrewFault`: why a crew stopped.
ghost use Rattle.std.specs.Prelude.{◌≡◌};
ghost use Rattle.pool.specs.Faults.{number_of};

use bursts::WorkFault;
use std::fmt;
use thiserror::Error;

/// Why a crew stopped before its work was over.
#[derive(Drop, Error)]
pub enum CrewFault {
    /// A turn failed: of several pairs, that of the first that had one.
    #[error("a turn failed")]
    Work(WorkFault),
    /// A thread could not be started.
    #[error("a thread could not be started")]
    NoThread,
}

impl CrewFault {
    /// Its number, 1 or 2.
    pub fn number(&self) -> u8
        ensures { result ≡ number_of self.now }
    {
        match self {
            CrewFault::Work(_) => 1,
            CrewFault::NoThread => 2,
        }
    }
}

impl fmt::Debug for CrewFault {
    fn fmt<W: fmt::Write>(&self, f: &mut fmt::Formatter<W>) -> fmt::Result {
        match self {
            CrewFault::Work(_) => f.pad("Work(..)"),
            CrewFault::NoThread => f.pad("NoThread"),
        }
    }
}

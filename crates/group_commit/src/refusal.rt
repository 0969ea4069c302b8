//! Why a call of a committer is refused.
ghost use Rattle.std.specs.Prelude.{◌≡◌};
ghost use Rattle.group_commit.specs.Refusals.{number_of};
ghost use Rattle.group_commit.specs.declared.refusal.CommitRefusal.TheVariants.{OutOfMemory};

use std::alloc::{AllocError, AllocFailed};
use std::fmt;
use thiserror::Error;

/// Why a call was refused. A refused call changes nothing.
#[derive(Clone, Copy, Debug, PartialEq, Eq, Error)]
pub enum CommitRefusal {
    /// A group is not yet committed.
    GroupInFlight = 5,
    /// There is no uncommitted change.
    NothingToCut = 6,
    /// No write in flight begins there.
    NoSuchWrite = 7,
    /// A write has failed, so nothing is submitted any more.
    DiskFailed = 8,
    /// Memory ran out.
    OutOfMemory = 9,
    /// With these changes there would be more than a u64 counts.
    Budget = 11,
}

impl CommitRefusal {
    /// Its number, 5 to 9, or 11.
    pub fn number(self) -> u8
        ensures { result ≡ number_of self }
    {
        self as u8
    }

    fn text(self) -> &'static str {
        match self {
            CommitRefusal::GroupInFlight => "a group is in flight",
            CommitRefusal::NothingToCut => "there is nothing to cut",
            CommitRefusal::NoSuchWrite => "no write in flight begins there",
            CommitRefusal::DiskFailed => "a write has failed",
            CommitRefusal::OutOfMemory => "out of memory",
            CommitRefusal::Budget => "there are more changes than are counted",
        }
    }
}

impl fmt::Display for CommitRefusal {
    fn fmt<W: fmt::Write>(&self, f: &mut fmt::Formatter<W>) -> fmt::Result {
        f.write_str(self.text())
    }
}

impl From<AllocError> for CommitRefusal {
    ghost from_gives = { λ _ e. e ≡ OutOfMemory };

    fn from(_error: AllocError) -> CommitRefusal {
        CommitRefusal::OutOfMemory
    }
}

impl<T: Drop> From<AllocFailed<T>> for CommitRefusal {
    ghost from_gives = { λ _ e. e ≡ OutOfMemory };

    fn from(_error: AllocFailed<T>) -> CommitRefusal {
        CommitRefusal::OutOfMemory
    }
}

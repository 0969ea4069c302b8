//! What the core answers.
ghost use Rattle.std.specs.Prelude.{◌≡◌};
ghost use Rattle.kernel_model.specs.Refusals.{number_of};
ghost use Rattle.kernel_model.specs.declared.answer.Refused.TheVariants.{OutOfMemory};

use machine_model::Stop;
use std::alloc::AllocError;
use std::fmt;
use thiserror::Error;

/// What an Enter came to.
#[derive(Clone, Copy, Debug)]
pub enum Outcome {
    /// The call was replied to.
    Entered,
    /// The call has to wait, and changed nothing.
    Waits,
    /// The process has ended, by a call or a trap.
    Ended,
}

/// The answer to an accepted event. It tells a scheduler of progress, and never a reply's value or an exit's status.
#[derive(Clone, Copy, Debug)]
pub enum Answer {
    /// A Turn ran so many instructions, and stopped there.
    Ran {
        count: u32,
        stop: Stop,
    },
    /// An Enter was replied to.
    Entered,
    /// An Enter has to wait.
    Waits,
    /// An Enter ended its process.
    Ended,
    /// A Cut will commit so many changes, by so many writes.
    Cut {
        changes: u64,
        writes: u64,
    },
    /// A write is complete, and so many changes are committed.
    Completed {
        committed: u64,
    },
    /// A write has failed.
    Failed,
    /// A loan's result was taken back; `outcome` is what its Enter came to, where it had one.
    Settled {
        count: u32,
        stop: Stop,
        outcome: Option<Outcome>,
    },
}

/// Why an event is refused. The tests come in the order that each event states.
#[derive(Clone, Copy, Debug, PartialEq, Eq, Error)]
pub enum Refused {
    /// There is no process of that number.
    NoProcess = 1,
    /// The process has ended.
    Ended = 2,
    /// The process is out on loan.
    Lent = 3,
    /// The process stands at no call and no trap, so it cannot enter the kernel.
    NotStopped = 4,
    /// The group before is not committed: a write of it is in flight.
    GroupInFlight = 5,
    /// Every change is committed.
    NothingToCut = 6,
    /// No write in flight begins at that place of the disk.
    NoSuchWrite = 7,
    /// A write of this run has failed.
    DiskFailed = 8,
    /// There is no memory for it.
    OutOfMemory = 9,
    /// The result is not of the loan that its process is out on.
    Stranger = 10,
    /// The process would pass 2^40 instructions, or the run 2^40 events, where two are kept for each loan that is out.
    Budget = 11,
}

impl Refused {
    /// Its number, 1 to 11.
    pub fn number(self) -> u8
        ensures { result ≡ number_of self }
    {
        self as u8
    }

    fn text(self) -> &'static str {
        match self {
            Self::NoProcess => "no such process",
            Self::Ended => "the process has ended",
            Self::Lent => "the process is out on loan",
            Self::NotStopped => "the process stands at no call and no trap",
            Self::GroupInFlight => "a group is not yet committed",
            Self::NothingToCut => "no change is uncommitted",
            Self::NoSuchWrite => "no write in flight begins there",
            Self::DiskFailed => "a write has failed",
            Self::OutOfMemory => "out of memory",
            Self::Stranger => "the result is of no loan that is out",
            Self::Budget => "the history or the process has no room for it",
        }
    }
}

impl fmt::Display for Refused {
    fn fmt<W: fmt::Write>(&self, f: &mut fmt::Formatter<W>) -> fmt::Result {
        f.write_str(self.text())
    }
}

impl From<AllocError> for Refused {
    ghost from_gives = { λ _ e. e ≡ OutOfMemory };

    fn from(_error: AllocError) -> Refused {
        Refused::OutOfMemory
    }
}

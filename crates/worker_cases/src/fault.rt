//! Why a case ends early.
use executor::RunFault;
use kernel::{BootFault, Refused};
use std::alloc::AllocError;
use std::fmt;

/// Why a case ends early.
#[derive(Clone, Copy)]
pub enum Fault {
    /// Memory could not be had.
    OutOfMemory,
    /// The core is not booted.
    Boot(BootFault),
    /// The core refuses a loan or an event.
    Refused(Refused),
    /// Nothing is lent where a loan was to be had.
    NothingLent,
    /// No write is in flight where one was to complete.
    NoWrite,
    /// The crew stops, with a fault of this number.
    Crew(u8),
    /// The second worker was not at work while the first was held.
    Late,
    /// There is no seat.
    NoSeat,
    /// A result found no room in the queue.
    QueueFull,
    /// A turn at the desk settles nothing.
    NothingSettled,
    /// A run ends early.
    Run(RunFault),
}

/// The text of a fault without a number.
fn text_of(fault: Fault) -> &'static str {
    match fault {
        Fault::OutOfMemory => "out of memory",
        Fault::NothingLent => "nothing is lent",
        Fault::NoWrite => "no write is in flight",
        Fault::Late => "the second worker was not at work while the first was held",
        Fault::NoSeat => "there is no seat",
        Fault::QueueFull => "the queue is full",
        Fault::NothingSettled => "a turn at the desk settles nothing",
        Fault::Boot(_) | Fault::Refused(_) | Fault::Crew(_) | Fault::Run(_) => "",
    }
}

impl fmt::Display for Fault {
    fn fmt<W: fmt::Write>(&self, f: &mut fmt::Formatter<W>) -> fmt::Result {
        match self {
            Fault::Boot(why) => write!(f, "the core is not booted: {why}"),
            Fault::Refused(why) => write!(f, "refused: {why}"),
            Fault::Crew(number) => write!(f, "the crew stops with fault {number}"),
            Fault::Run(why) => write!(f, "a run ends early: {why}"),
            fault => f.write_str(text_of(*fault)),
        }
    }
}

impl From<AllocError> for Fault {
    fn from(_error: AllocError) -> Fault {
        Fault::OutOfMemory
    }
}

impl From<BootFault> for Fault {
    fn from(why: BootFault) -> Fault {
        Fault::Boot(why)
    }
}

impl From<Refused> for Fault {
    fn from(why: Refused) -> Fault {
        Fault::Refused(why)
    }
}

impl From<RunFault> for Fault {
    fn from(why: RunFault) -> Fault {
        Fault::Run(why)
    }
}

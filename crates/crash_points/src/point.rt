//! A crash that was tried.
use crash_outcomes::{Fill, Moment, print_outcome};
use std::alloc::{AllocError, Global};
use std::io::Write;
use std::{fmt, io};

/// Which crash it is: when it came, and what it left of what was not on the disk yet. It prints as its name.
#[derive(Clone, Copy, Drop)]
pub enum CrashPlace {
    /// At this moment, and the ranges of writes in flight or failed hold the bytes of this fill.
    Filled(Moment, Fill),
    /// At this moment, and by another rule than bench's so many cells are not as at one moment.
    Apart(Moment, u32),
    /// After an order of calls, when all that they did was committed: of the orders that came to a new disk with its promise the one of
    /// this number, from 1. By another rule than bench's it need not be committed, and so many cells are not as at one moment.
    Order(u64, Option<u32>),
}

/// A crash, and the files that it left, as a line.
#[derive(Drop)]
pub struct CrashPoint {
    pub place: CrashPlace,
    pub outcome: String,
    pub told: Telling,
}

/// What is told of a crash, beside when it came and what it left.
#[derive(Drop)]
pub struct Telling {
    /// Lines: of an order, whose calls it has; by another rule than bench's, which changes are there.
    pub summary: String,
    /// By another rule than bench's, a line for each change since the last sync.
    pub changes: String,
}

impl fmt::Display for CrashPlace {
    fn fmt<W: fmt::Write>(&self, f: &mut fmt::Formatter<W>) -> fmt::Result {
        match self {
            CrashPlace::Filled(Moment { boot, event, .. }, fill) => {
                write!(f, "boot {boot} event {event} fill {fill}")
            }
            CrashPlace::Apart(Moment { boot, event, .. }, count) => {
                write!(f, "boot {boot} event {event} apart {count}")
            }
            CrashPlace::Order(number, None) => write!(f, "order {number}"),
            CrashPlace::Order(number, Some(count)) => write!(f, "order {number} apart {count}"),
        }
    }
}

impl Telling {
    /// Nothing. Takes no memory.
    pub fn none(alloc: Global) -> Telling {
        Telling {
            summary: String::new(alloc),
            changes: String::new(alloc),
        }
    }

    /// The same, in memory of its own.
    pub fn try_clone(&self, alloc: Global) -> Result<Telling, AllocError> {
        Ok(Telling {
            summary: String::from_str(alloc, self.summary.as_str())?,
            changes: String::from_str(alloc, self.changes.as_str())?,
        })
    }
}

impl CrashPlace {
    /// The same by another rule than bench's, where so many cells are not as at one moment.
    pub fn with_apart(self, count: u32) -> CrashPlace {
        match self {
            CrashPlace::Filled(moment, _) | CrashPlace::Apart(moment, _) => {
                CrashPlace::Apart(moment, count)
            }
            CrashPlace::Order(number, _) => CrashPlace::Order(number, Some(count)),
        }
    }

    /// The same after the order of this number, if it is after one.
    pub fn numbered(self, number: u64) -> CrashPlace {
        match self {
            CrashPlace::Order(_, apart) => CrashPlace::Order(number, apart),
            place => place,
        }
    }

    /// Whether it is a crash by another rule than bench's.
    pub fn is_by_rule(self) -> bool {
        matches!(self, CrashPlace::Apart(..) | CrashPlace::Order(_, Some(_)))
    }
}

impl CrashPoint {
    /// The same, in memory of its own.
    pub fn try_clone(&self, alloc: Global) -> Result<CrashPoint, AllocError> {
        Ok(CrashPoint {
            place: self.place,
            outcome: String::from_str(alloc, self.outcome.as_str())?,
            told: self.told.try_clone(alloc)?,
        })
    }

    /// Prints it, with the files that it left.
    pub fn print<O: Write>(&self, out: &mut O) -> io::Result<()> {
        let outcome = self.outcome.as_str();
        let place = self.place;
        match place {
            CrashPlace::Filled(moment, fill) => print_outcome(moment, fill, outcome, out),
            CrashPlace::Apart(..) | CrashPlace::Order(..) => {
                let summary = self.told.summary.as_str();
                write!(out, "{place} {outcome}\n{summary}")
            }
        }
    }

    /// How many events its run had before it.
    pub fn events(&self) -> u64 {
        match self.place {
            CrashPlace::Filled(moment, _) | CrashPlace::Apart(moment, _) => moment.event,
            CrashPlace::Order(..) => 0,
        }
    }

    /// The fill with which bench itself is to crash there.
    pub fn fill(&self) -> Fill {
        match self.place {
            CrashPlace::Filled(_, fill) => fill,
            CrashPlace::Apart(..) | CrashPlace::Order(..) => Fill::Unchanged,
        }
    }
}

//! Sets and clears breakpoints and watches: by their addresses, as gdb names them, or by numbers.
use crate::location::Location;
use crate::timeline::Timeline;
use debugger::{DebugFault, Watch};
use std::alloc::AllocError;

/// The most watches at a time.
const MOST_WATCHES: usize = 64;

/// The most locations that are followed at a time.
const MOST_FOLLOWED: usize = 16;

/// An odd address, at which no instruction stands. A breakpoint there keeps a number for a location that is followed.
const NO_INSTRUCTION: u32 = 1;

/// A location that is followed, and its number.
#[derive(Clone, Copy)]
pub struct Follower {
    pub number: usize,
    pub location: Location,
}

/// What came of setting a breakpoint or a watch.
#[derive(Clone, Copy)]
pub enum SetPoint {
    Set,
    /// There are too many breakpoints or watches.
    Full,
    /// No memory is at the address.
    NoMemory,
}

impl Timeline {
    /// Whether a watch is set.
    pub fn watches(&self) -> bool {
        !self.watches.is_empty()
    }

    /// Sets a breakpoint at an address, unless one is set there.
    pub fn set_break(&mut self, at: u32) -> SetPoint {
        if self.debugger.number_at(at).is_some() || self.debugger.break_at(at).is_ok() {
            SetPoint::Set
        } else {
            SetPoint::Full
        }
    }

    /// Removes the breakpoint at an address, if one is set there.
    pub fn clear_break(&mut self, at: u32) {
        if let Some(number) = self.debugger.number_at(at) {
            // The debugger has it.
            let _ = self.debugger.clear(number);
        }
    }

    /// Sets a watch, unless it is set.
    pub fn set_watch(&mut self, watch: Watch) -> Result<SetPoint, AllocError> {
        if self.watches.contains(&watch) {
            return Ok(SetPoint::Set);
        }
        if self.watches.len() >= MOST_WATCHES {
            return Ok(SetPoint::Full);
        }
        if self.machine().space().byte(watch.at).is_none() {
            return Ok(SetPoint::NoMemory);
        }
        self.watches.push(watch)?;
        Ok(SetPoint::Set)
    }

    /// Removes a watch, if it is set.
    pub fn clear_watch(&mut self, watch: Watch) {
        match self.watches.iter().position(|other| *other == watch) {
            Some(place) if place < self.watches.len() => {
                let _ = self.watches.remove(place);
            }
            _ => {}
        }
    }

    /// Follows a location, and gives its number, which no breakpoint has. Refused: BreakTableFull, where 16 are followed or 64
    /// numbers are taken; OutOfMemory.
    pub fn follow(&mut self, location: Location) -> Result<usize, DebugFault> {
        if self.followed.len() >= MOST_FOLLOWED {
            return Err(DebugFault::BreakTableFull);
        }
        let number = self.debugger.break_at(NO_INSTRUCTION)?;
        self.numbers.push(number)?;
        self.followed.push(location)?;
        Ok(number)
    }

    /// Removes the breakpoint of a number, or has the location of this number followed no longer. Refused: NoSuchBreak.
    pub fn clear_number(&mut self, number: usize) -> Result<(), DebugFault> {
        self.debugger.clear(number)?;
        match self.numbers.iter().position(|other| *other == number) {
            Some(place) if place < self.numbers.len() && place < self.followed.len() => {
                let _ = self.numbers.remove(place);
                let _ = self.followed.remove(place);
            }
            _ => {}
        }
        Ok(())
    }

    /// The location that is followed at a place in the order in which they were set.
    pub fn follower(&self, place: usize) -> Option<Follower> {
        Some(Follower {
            number: *self.numbers.get(place)?,
            location: *self.followed.get(place)?,
        })
    }

    /// All locations that are followed.
    pub fn followed(&self) -> &[Location] {
        self.followed.as_slice()
    }
}

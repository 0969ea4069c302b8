//! Moves the program for gdb, on or back, a slice at a time. Between two slices the conversation looks for an interrupt.
use crate::session::Session;
use gdb_packets::Stop as Told;
use std::alloc::AllocError;
use timeline::{After, SessionFault, Stop, Way};
use trap_reports::trap_report;

/// How many parts a slice of the way on has at most.
const PARTS: u32 = 1 << 10;

/// How many parts a slice of the way on has at most while watches are set: a part is then one instruction.
const WATCHED_PARTS: u32 = 1 << 16;

/// After so many events of the kernel a slice ends, since other processes may have run long between them.
const EVENTS: usize = 64;

/// How many loans of the kernel a part has at most.
const LOANS: u32 = 16;

/// The most instructions that `travel` goes on: gdb waits two seconds for the answer.
const FAR: u64 = 1 << 24;

/// The most slices that `travel` takes, since a kernel may take long for a reply.
const SLICES: u32 = 64;

/// How a program goes on, between two slices.
#[derive(Clone, Copy)]
pub enum Going {
    /// On to a count. After a step gdb is told of no breakpoint.
    Ahead { limit: u64, is_step: bool },
    /// Back, from above the breakpoints that were looked at.
    Back,
    /// An instruction back.
    StepBack,
}

/// What gdb is told of a stop. After a step gdb is told of no breakpoint.
fn told_of(stop: Stop, is_step: bool) -> Told {
    match stop {
        Stop::Break(_) if is_step => Told::Done,
        Stop::Break(_) => Told::Break,
        Stop::Done | Stop::Change => Told::Done,
        Stop::Watch(watch) => Told::Watch(watch),
        Stop::Trap(cause) => Told::Trap(cause),
        Stop::Begin => Told::Begin,
        Stop::End(_) => Told::End,
    }
}

impl Session {
    /// How many events the kernel has had.
    fn events(&self) -> usize {
        match &self.timeline.live {
            Some(live) => live.core().history().len(),
            None => 0,
        }
    }

    /// Notes what terminals show.
    fn note_shown(&mut self) -> Result<(), AllocError> {
        match &mut self.timeline.live {
            Some(live) => self.messages.add_shown(live),
            None => Ok(()),
        }
    }

    /// Notes a call that is answered, what terminals show where the kernel was asked, and why the program goes no further.
    fn note(&mut self, after: After) -> Result<(), SessionFault> {
        match after {
            After::Asked | After::NoReply { .. } => self.note_shown()?,
            After::Replied => self.history.add_call(&self.timeline)?,
            After::Stop(Stop::End(end)) => {
                self.note_shown()?;
                self.messages.add(end)?;
            }
            After::Stop(Stop::Trap(_)) => {
                if let Some(report) = trap_report(self.timeline.machine()) {
                    self.messages.add(report)?;
                }
            }
            _ => {}
        }
        Ok(())
    }

    /// Goes on to a count by a part, as far as the history has room, with one loan of the kernel at most.
    fn part_of_way(&mut self, limit: u64, stops: bool) -> Result<After, SessionFault> {
        let left = limit.saturating_sub(self.timeline.count());
        if left == 0 {
            return Ok(After::Stop(Stop::Done));
        }
        let most = left.min(self.history.room_ahead(&self.timeline)?);
        if most == 0 {
            return Ok(After::Stop(Stop::End(self.history.full())));
        }
        let way = Way {
            most,
            stops,
            loans: 1,
        };
        self.timeline.ahead(way)
    }

    /// Goes on to a count by a part, with up to 16 loans of the kernel, and notes what came of it.
    fn part(&mut self, limit: u64, stops: bool) -> Result<After, SessionFault> {
        let mut after = self.part_of_way(limit, stops)?;
        for _ in 1..LOANS {
            if matches!(after, After::NoReply { .. }) {
                after = self.part_of_way(limit, stops)?;
            }
        }
        self.note(after)?;
        Ok(after)
    }

    /// Goes on to a count by a slice. None where nothing stopped the machine, and the way goes on.
    fn ahead(&mut self, limit: u64, stops: bool) -> Result<Option<Stop>, SessionFault> {
        let parts = if stops && self.timeline.watches() {
            WATCHED_PARTS
        } else {
            PARTS
        };
        let last = self.events().saturating_add(EVENTS);
        for _ in 0..parts {
            if self.events() >= last {
                return Ok(None);
            }
            match self.part(limit, stops)? {
                After::Stop(stop) => return Ok(Some(stop)),
                After::NoReply { .. } => return Ok(None),
                After::Part | After::Asked | After::Replied => {}
            }
        }
        Ok((self.timeline.count() >= limit).then_some(Stop::Done))
    }

    /// Goes to the state after `count` instructions, past breakpoints and watches: back, or on as far as the program goes. False,
    /// and the machine stays, where the way on is longer than gdb waits.
    pub fn travel(&mut self, count: u64) -> Result<bool, SessionFault> {
        let now = self.timeline.count();
        if count <= now {
            self.timeline.debugger.rewind(count)?;
            return Ok(true);
        }
        if count - now > FAR {
            return Ok(false);
        }
        for _ in 0..SLICES {
            if self.ahead(count, false)?.is_some() {
                return Ok(true);
            }
        }
        Ok(true)
    }

    /// Moves the machine by a slice. Where the machine stops, gives what gdb is told.
    pub fn slice(&mut self, going: Going) -> Result<Option<Told>, SessionFault> {
        let (stop, is_step) = match going {
            Going::Ahead { limit, is_step } => (self.ahead(limit, true)?, is_step),
            Going::Back => (self.timeline.back()?, false),
            Going::StepBack => (Some(self.timeline.step_back()?), false),
        };
        match stop {
            Some(stop) => Ok(Some(told_of(stop, is_step))),
            None => Ok(None),
        }
    }
}

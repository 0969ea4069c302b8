//! `History`: how many bytes of memory a program's history counts as taking, and when it has no more room (`--history`).
ghost use Rattle.std.specs.Prelude.{◌<◌};
ghost use Rattle.kernel_model.specs.World.{terminal_count};

use gdb_packets::{RepliedCalls, memory_entered};
use kernel::Core;
use kernel_model::TERMINALS;
use machine_model::Reply;
use std::alloc::{AllocError, Global};
use timeline::{End, Timeline};

/// The instructions between two kept states.
const SPAN: u64 = 1024;

/// The bytes that a call counts as. A call stands in the trace and in the list of calls.
const BYTES_OF_CALL: u64 = 1024;

/// How often each byte that a call moves is kept at most.
const TIMES_MOVED: u64 = 4;

/// The bytes that an event of the kernel counts as.
const BYTES_OF_EVENT: u64 = 512;

/// The bytes that a reply counts as in the kernel, beside those that it brings. A reply stands in a list that doubles, with its
/// mark in another one.
const BYTES_OF_REPLY: u64 = 256;

/// The bytes that each byte counts as that a terminal shows. The byte stands in a list that doubles, with its mark of eight bytes
/// in another one.
const BYTES_OF_SHOWN: u64 = 32;

/// The most processes of a run.
const MOST_PROCESSES: u32 = 1024;

const MIB: u64 = 1 << 20;

/// The bytes that a reply counts as in the kernel.
fn bytes_of(reply: &Reply) -> u64 {
    BYTES_OF_REPLY
        .saturating_add(reply.bytes().len() as u64)
        .saturating_add(memory_entered(reply))
}

/// How many bytes the terminals show.
fn shown_by(core: &Core) -> u64 {
    let mut shown = 0u64;
    for terminal in 0..TERMINALS as u32 {
        shown = shown.saturating_add(core.shown(terminal).len() as u64);
    }
    shown
}

/// The history of a program, whose bytes are counted: its kept states and its calls, and of a kernel the events, the replies of all
/// processes, and what terminals show.
#[derive(Drop)]
pub struct History {
    /// How many bytes the history may take.
    room: u64,
    /// The program's calls that got a reply.
    calls: RepliedCalls,
    /// How many replies of each process are counted, by its number less one.
    counted: Vec<usize>,
    /// The bytes that these replies count as.
    replies: u64,
    /// How many events the kernel had when its replies were counted last.
    events: usize,
}

impl History {
    /// An empty history, which may take `room` bytes.
    pub fn new(alloc: Global, room: u64) -> History {
        History {
            room,
            calls: RepliedCalls::new(alloc),
            counted: Vec::new(alloc),
            replies: 0,
            events: 0,
        }
    }

    /// The program's calls that got a reply.
    pub fn calls(&self) -> &RepliedCalls {
        &self.calls
    }

    /// The end of a program whose history has no more room.
    pub fn full(&self) -> End {
        End::Full {
            mib: self.room / MIB,
        }
    }

    /// Adds the call at which the program stands, which has its reply.
    pub fn add_call(&mut self, timeline: &Timeline) -> Result<(), AllocError> {
        match timeline.debugger.replies().last() {
            Some(reply) => self.calls.push(timeline.machine(), reply),
            None => Ok(()),
        }
    }

    /// Counts the replies of the process at a place that are not counted yet.
    fn count_replies(&mut self, place: usize, replies: &[Reply]) -> Result<(), AllocError> {
        let before = self.counted.get(place).copied().unwrap_or(0);
        for reply in replies.get(before..).unwrap_or_default() {
            self.replies = self.replies.saturating_add(bytes_of(reply));
        }
        match self.counted.get_mut(place) {
            Some(counted) => {
                *counted = replies.len();
                Ok(())
            }
            None => Ok(self.counted.push(replies.len())?),
        }
    }

    /// Counts what processes were told since the last count. A child that a fork made was told all that its parent was told, and
    /// the kernel keeps this a second time.
    fn count(&mut self, core: &Core) -> Result<(), AllocError> {
        let events = core.history().len();
        if self.events == events {
            return Ok(());
        }
        self.events = events;
        for place in 0..MOST_PROCESSES {
            match core.trace(place + 1) {
                Ok(replies) => self.count_replies(place as usize, replies)?,
                Err(_) => return Ok(()),
            }
        }
        Ok(())
    }

    /// The bytes that the program's own states and calls count as.
    fn of_program(&self, timeline: &Timeline) -> u64 {
        let calls = (self.calls.count() as u64).saturating_mul(BYTES_OF_CALL);
        let moved = self.calls.moved().saturating_mul(TIMES_MOVED);
        timeline
            .debugger
            .kept_bytes()
            .saturating_add(calls)
            .saturating_add(moved)
    }

    /// The bytes that the kernel's events, replies and output count as.
    fn of_kernel(&mut self, core: &Core) -> Result<u64, AllocError> {
        self.count(core)?;
        Ok(
            (self.events as u64)
                .saturating_mul(BYTES_OF_EVENT)
                .saturating_add(self.replies)
                .saturating_add(shown_by(core).saturating_mul(BYTES_OF_SHOWN)),
        )
    }

    /// The bytes that the whole history counts as.
    fn held(&mut self, timeline: &Timeline) -> Result<u64, AllocError> {
        let kernel = match &timeline.live {
            Some(live) => self.of_kernel(live.core())?,
            None => 0,
        };
        Ok(self.of_program(timeline).saturating_add(kernel))
    }

    /// How many instructions may be done before the bytes are counted again: up to the next state that is kept. Where there is no
    /// more room, up to the greatest count that was reached.
    pub fn room_ahead(&mut self, timeline: &Timeline) -> Result<u64, AllocError> {
        let count = timeline.count();
        if self.held(timeline)? < self.room {
            Ok(SPAN - count % SPAN)
        } else {
            Ok(timeline.top().saturating_sub(count))
        }
    }
}

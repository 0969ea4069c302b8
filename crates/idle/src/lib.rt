//! What a thread does that finds nothing to do: it yields its processor, and later it sleeps. Read `Backoff`. Only safety is proved.
#![tactic(auto)]

use std::sync::Wait;
use std::thread;
use std::thread::Parker;
use std::time::Duration;

/// After so many turns without work a thread sleeps.
const YIELDS: u32 = 64;

/// How many microseconds it sleeps at first. Each further sleep is longer by as much.
const PAUSE: u64 = 100;

/// The longest sleep, in these pauses, where nothing else is said.
const MOST_PAUSES: u32 = 50;

/// A thread's turns without work. At first it yields its processor; after a while it sleeps, longer and longer, up to five
/// milliseconds or what else is said. So a wait that lasts costs next to no processor, and whoever sleeps looks again soon.
#[derive(Drop)]
pub struct Backoff {
    turns: u32,
    /// By how many turns the next work found makes it shorter.
    relief: u32,
    /// After so many turns without work a sleep gets no longer.
    most: u32,
    parker: Parker,
}

impl Backoff {
    /// No turn yet.
    pub fn new() -> Backoff {
        Backoff::up_to(MOST_PAUSES)
    }

    /// No turn yet. The longest sleep is of so many times 100 microseconds, and of one at least.
    pub fn up_to(pauses: u32) -> Backoff {
        Backoff {
            turns: 0,
            relief: 1,
            most: YIELDS.saturating_add(pauses.max(1) - 1),
            parker: Parker::new(),
        }
    }

    /// There was something to do: the count begins again.
    pub fn end(&mut self) {
        self.turns = 0;
    }

    /// There was something to do, which another thread might have done too. The next rest is shorter by one turn, and by twice as
    /// many for each further time without a rest between. So a thread that comes by work only now and then sleeps on, and one that
    /// finds work some seven times in a row is awake.
    pub fn shorten(&mut self) {
        self.turns = self.turns.saturating_sub(self.relief);
        self.relief = self.relief.saturating_mul(2);
    }

    /// Whether the turn before was without work, and the next one without work is a sleep.
    pub fn is_asleep(&self) -> bool {
        self.turns >= YIELDS && self.relief == 1
    }

    /// One more turn without work, after which the thread yields or sleeps.
    pub fn take<R: Wait>(&mut self, rt: &R) {
        self.relief = 1;
        if self.turns < YIELDS {
            thread::yield_now();
        } else {
            let pauses = self.turns - YIELDS + 1;
            self.parker
                .park_timeout(rt, Duration::from_micros(PAUSE * u64::from(pauses)));
        }
        self.turns = self.turns.saturating_add(1).min(self.most);
    }
}

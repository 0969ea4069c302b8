//! How much is tried, and by how many threads.
ghost use Rattle.std.specs.Prelude.{◌≡◌, ◌≤◌, ◌%◌, ◌-◌, ◌==◌, true, IfSome, None};

use std::thread;
use std::thread::Threads;

/// How many threads there are where the host does not say how many processors it has.
const FEW: usize = 4;

/// One of so many parts, among which the disks and promises of a run are shared out in turn.
#[derive(Clone, Copy)]
pub struct Part {
    /// Its number, from 1.
    pub number: u32,
    /// How many parts there are.
    pub of: u32,
}

/// How much is tried, and by how many threads.
#[derive(Clone, Copy)]
pub struct Effort {
    /// None: by as many threads as the host has processors for.
    pub jobs: Option<u32>,
    /// None: all of it.
    pub part: Option<Part>,
    /// Whether it is told how far it has come.
    pub progress: bool,
}

impl Part {
    /// Whether what has this number, from 0, is in the part.
    fn has(self, number: u64) -> bool
        ensures { 1 ≤ self.number → self.number ≤ self.of → result ≡ (number % self.of == self.number - 1) }
    {
        if self.of == 0 {
            return false;
        }
        number % u64::from(self.of) == u64::from(self.number).saturating_sub(1)
    }
}

impl Effort {
    /// Whether what has this number, from 0, is tried.
    pub fn takes(self, number: u64) -> bool
        ensures all { self.part ≡ None → result ≡ true }
        ensures part { IfSome self.part (λ part. 1 ≤ part.number → part.number ≤ part.of → result ≡ (number % part.of == part.number - 1)) }
    {
        match self.part {
            Some(part) => part.has(number),
            None => true,
        }
    }

    /// How many threads there are.
    pub fn threads<R: Threads>(self, rt: &R) -> usize {
        match self.jobs {
            Some(threads) => threads as usize,
            None => match thread::available_parallelism(rt) {
                Ok(processors) => processors.get(),
                Err(_) => FEW,
            },
        }
    }
}

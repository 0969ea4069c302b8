//! How far a search goes, and by how many threads.
ghost use Rattle.std.specs.Prelude.{◌≡◌, ◌<◌, unwrap_or};

use state_search::{Bounds, Part};
use std::thread;
use std::thread::Threads;

/// How many states each thread takes of a level before what they came to is put together.
const TAKEN: usize = 256;

/// How many threads search where the host does not say how many processors it has.
const FEW: usize = 4;

/// From states to which so many calls lead a search goes on no farther where no other number is given. A process that polls for ever comes
/// there.
const MOST_CALLS: u64 = 10_000;

/// How far is searched, and by how many threads.
#[derive(Clone, Copy)]
pub struct Limits {
    /// How many instructions a process runs at most to its next call.
    pub instructions: u32,
    /// No further level is searched where more states were found.
    pub states: u64,
    /// Nor is a state gone on from to which so many calls lead; None: `MOST_CALLS`.
    pub calls: Option<u64>,
    /// None: by as many as the host has processors for.
    pub threads: Option<u32>,
    /// Which part is searched; None: the whole.
    pub part: Option<Part>,
}

impl Limits {
    /// The bounds of the search.
    pub fn bounds(self) -> Bounds
        ensures states { result.states ≡ self.states }
        ensures calls { result.moves ≡ unwrap_or self.calls 10000 }
    {
        Bounds {
            states: self.states,
            moves: self.calls.unwrap_or(MOST_CALLS),
        }
    }

    /// How many threads search.
    pub fn threads<R: Threads>(self, rt: &R) -> usize {
        match self.threads {
            Some(threads) => threads as usize,
            None => match thread::available_parallelism(rt) {
                Ok(processors) => processors.get(),
                Err(_) => FEW,
            },
        }
    }
}

/// How many states of a level so many threads take together.
pub fn taken_by(threads: usize) -> usize
    ensures { 0 < result }
{
    threads.saturating_mul(TAKEN).max(1)
}

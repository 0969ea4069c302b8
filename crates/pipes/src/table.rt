//! The pipes by their numbers.
ghost use Rattle.std.specs.Prelude.{◌≡◌, [], ◌∷◌, ◌++◌, ◌≤◌, length, slice_get, option_copied, IfOk, OnOk, OnErr};
ghost use Rattle.kernel_model.specs.Rows.{most_pipes};
ghost use Rattle.kernel_model.specs.declared.effect.PipeStep.TheVariants.{Open, Put, Take, Add, Drop};
ghost use Rattle.pipes.specs.Stepping.{seen_after, MayStep};

use crate::pipe::Pipe;
use kernel_model::PipeEnd;
use std::alloc::{AllocError, Global};
use std::marker::Model;

/// The most pipes of a run.
pub const MOST_PIPES: usize = 1024;

/// All pipes that there ever were, in the order in which they were opened. A pipe's place, from 0, is its number, which is not used
/// again. A step of a pipe that is not there changes nothing.
pub struct PipeTable {
    alloc: Global,
    pipes: Vec<Pipe>,
}

impl Drop for PipeTable {
    fn drop(self) {
        let PipeTable {
            alloc: _,
            pipes: _pipes,
        } = self;
    }
}

impl Model for PipeTable {
    ghost use Rattle.std.specs.Prelude.{◌≤◌, List, vec_len, vec_capacity};
    ghost use Rattle.kernel_model.specs.Rows.{most_pipes};
    ghost use Rattle.pipes.specs.Seen.{Seen};

    ghost Value = { List Seen };

    ghost view = { λ t. t.pipes.items };

    ghost invariant = { λ t. (vec_len t.pipes ≤ most_pipes) × (most_pipes ≤ vec_capacity t.pipes) };
}

impl PipeTable {
    /// No pipes. It takes the memory for a table of 1,024, but not for what a pipe holds.
    pub fn new(alloc: Global) -> Result<PipeTable, AllocError>
        ensures { IfOk result (λ t. t ≡ []) }
    {
        let pipes = Vec::with_capacity(alloc, MOST_PIPES)?;
        Ok(PipeTable { alloc, pipes })
    }

    /// The same pipes, in memory of their own, with room for a table of 1,024. Refused for want of memory alone.
    pub fn try_clone(&self, alloc: Global) -> Result<PipeTable, AllocError>
        ensures { IfOk result (λ copy. copy ≡ self.now) }
    {
        let mut copy = PipeTable::new(alloc)?;
        for pipe in &self.pipes {
            copy.push(pipe.try_clone(alloc)?);
        }
        Ok(copy)
    }

    /// How many pipes there ever were, and the number of the next.
    pub fn len(&self) -> usize
        ensures len { result ≡ length self.now }
        ensures within { result ≤ most_pipes }
    {
        self.pipes.len()
    }

    /// The pipe of a number; None where it was never opened.
    pub fn get(&self, pipe: u32) -> Option<&Pipe>
        ensures { option_copied result ≡ slice_get self.now pipe }
    {
        self.pipes.get(pipe as usize)
    }

    /// Opens a pipe, which gets the next number. Where memory runs out nothing changes.
    pub fn open(&mut self) -> Result<(), AllocError>
        requires { MayStep self.old Open }
        ensures ok { OnOk result (self.new ≡ seen_after self.old Open) }
        ensures err { OnErr result (self.new ≡ self.old) }
    {
        let pipe = Pipe::new(self.alloc)?;
        self.push(pipe);
        Ok(())
    }

    /// Adds a pipe that was made before; it gets the next number. Takes no memory.
    pub fn push(&mut self, pipe: Pipe)
        requires { MayStep self.old Open }
        ensures { self.new ≡ self.old ++ pipe ∷ [] }
    {
        self.pipes.push(pipe).unwrap();
    }

    /// Writes these bytes to a pipe. Takes no memory.
    pub fn put(&mut self, pipe: u32, bytes: &[u8])
        requires { MayStep self.old (Put pipe bytes.now) }
        ensures { self.new ≡ seen_after self.old (Put pipe bytes.now) }
    {
        if let Some(pipe) = self.pipes.get_mut(pipe as usize) {
            pipe.put(bytes);
        }
    }

    /// Reads the first `count` bytes of a pipe away. Takes no memory.
    pub fn take(&mut self, pipe: u32, count: usize)
        requires { MayStep self.old (Take pipe count) }
        ensures { self.new ≡ seen_after self.old (Take pipe count) }
    {
        if let Some(pipe) = self.pipes.get_mut(pipe as usize) {
            pipe.take(count);
        }
    }

    /// One more descriptor stands for an end. Takes no memory.
    pub fn add_end(&mut self, end: PipeEnd)
        requires { MayStep self.old (Add end) }
        ensures { self.new ≡ seen_after self.old (Add end) }
    {
        match end {
            PipeEnd::Read(pipe) => {
                if let Some(pipe) = self.pipes.get_mut(pipe as usize) {
                    pipe.add_reader();
                }
            }
            PipeEnd::Write(pipe) => {
                if let Some(pipe) = self.pipes.get_mut(pipe as usize) {
                    pipe.add_writer();
                }
            }
        }
    }

    /// One descriptor fewer stands for an end. Takes no memory.
    pub fn drop_end(&mut self, end: PipeEnd)
        ensures { self.new ≡ seen_after self.old (Drop end) }
    {
        match end {
            PipeEnd::Read(pipe) => {
                if let Some(pipe) = self.pipes.get_mut(pipe as usize) {
                    pipe.drop_reader();
                }
            }
            PipeEnd::Write(pipe) => {
                if let Some(pipe) = self.pipes.get_mut(pipe as usize) {
                    pipe.drop_writer();
                }
            }
        }
    }
}

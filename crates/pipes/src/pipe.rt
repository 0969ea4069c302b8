//! One pipe.
ghost use Rattle.std.specs.Prelude.{◌≡◌, ◌+◌, ◌-◌, ◌^◌, ◌<◌, ◌≤◌, ◌++◌, length, take, drop, IfOk};
ghost use Rattle.kernel_model.specs.Rows.{pipe_size};
ghost use Rattle.kernel_model.specs.State.{new_pipe};
ghost use Rattle.pipes.specs.Seen.{seen_of};

use byte_list::Bytes;
use circular_buffer::HeapCircularBuffer;
use std::alloc::{AllocError, Global};
use std::marker::Model;

/// The most bytes that a pipe holds.
pub const PIPE_SIZE: usize = 4096;

/// A pipe: the bytes that it holds, in a ring, and how many descriptors stand for each of its ends.
pub struct Pipe {
    ring: HeapCircularBuffer<u8>,
    readers: usize,
    writers: usize,
}

impl Drop for Pipe {
    fn drop(self) {
        let Pipe {
            ring: _ring,
            readers: _,
            writers: _,
        } = self;
    }
}

impl Model for Pipe {
    ghost use Rattle.std.specs.Prelude.{◌≡◌};
    ghost use Rattle.pipes.specs.Seen.{Seen};

    ghost Value = { Seen };

    ghost view = { λ p. record { held = p.ring.items; readers = p.readers; writers = p.writers } };

    ghost invariant = { λ p. p.ring.capacity ≡ 4096 };
}

impl Pipe {
    /// A new and empty pipe, with one descriptor for each of its ends. It takes all the memory that a pipe ever needs: 4,096 bytes.
    pub fn new(alloc: Global) -> Result<Pipe, AllocError>
        ensures { IfOk result (λ p. p ≡ seen_of new_pipe) }
    {
        Ok(Pipe {
            ring: HeapCircularBuffer::with_capacity(alloc, PIPE_SIZE)?,
            readers: 1,
            writers: 1,
        })
    }

    /// How many bytes were written and are not yet read.
    pub fn held(&self) -> usize
        ensures held { result ≡ length self.now.held }
        ensures within { result ≤ pipe_size }
    {
        self.ring.len()
    }

    /// How many more bytes may be written now.
    pub fn room(&self) -> usize
        ensures room { result ≡ pipe_size - length self.now.held }
        ensures within { length self.now.held ≤ pipe_size }
    {
        PIPE_SIZE - self.held()
    }

    /// How many descriptors, of all processes, stand for the end from which bytes are read.
    pub fn readers(&self) -> usize
        ensures { result ≡ self.now.readers }
    {
        self.readers
    }

    /// How many descriptors, of all processes, stand for the end to which bytes are written.
    pub fn writers(&self) -> usize
        ensures { result ≡ self.now.writers }
    {
        self.writers
    }

    /// A copy of the first n bytes that the pipe holds, or of all where it holds fewer. The pipe keeps them.
    pub fn prefix(&self, alloc: Global, n: usize) -> Result<Bytes, AllocError>
        ensures { IfOk result (λ bytes. bytes ≡ take n self.now.held) }
    {
        let (first, second) = self.ring.as_slices();
        let from_first = n.min(first.len());
        let from_second = (n - from_first).min(second.len());
        let mut bytes = Vec::with_capacity(alloc, n.min(self.held()))?;
        bytes.extend_from_slice(&first[..from_first])?;
        bytes.extend_from_slice(&second[..from_second])?;
        Ok(Bytes::new(bytes))
    }

    /// The same pipe, in memory of its own: it takes 4,096 bytes, as a new one does.
    pub(crate) fn try_clone(&self, alloc: Global) -> Result<Pipe, AllocError>
        ensures { IfOk result (λ copy. copy ≡ self.now) }
    {
        // Called for its clause: at most 4,096.
        let _held = self.held();
        let mut copy = Pipe::new(alloc)?;
        let (first, second) = self.ring.as_slices();
        copy.put(first);
        copy.put(second);
        copy.readers = self.readers;
        copy.writers = self.writers;
        Ok(copy)
    }

    /// Writes these bytes after those that the pipe holds.
    pub(crate) fn put(&mut self, bytes: &[u8])
        requires { length self.old.held + length bytes.now ≤ pipe_size }
        ensures { self.new ≡ record self.old { held = self.old.held ++ bytes.now } }
    {
        self.ring.fill_from_slice(bytes);
    }

    /// Reads the first `count` bytes away.
    pub(crate) fn take(&mut self, count: usize)
        requires { count ≤ length self.old.held }
        ensures { self.new ≡ record self.old { held = drop count self.old.held } }
    {
        let left = self.held() - count;
        self.ring.truncate_front(left);
    }

    pub(crate) fn add_reader(&mut self)
        requires { self.old.readers + 1 < 2 ^ 64 }
        ensures { self.new ≡ record self.old { readers = self.old.readers + 1 } }
    {
        self.readers += 1;
    }

    pub(crate) fn add_writer(&mut self)
        requires { self.old.writers + 1 < 2 ^ 64 }
        ensures { self.new ≡ record self.old { writers = self.old.writers + 1 } }
    {
        self.writers += 1;
    }

    pub(crate) fn drop_reader(&mut self)
        ensures { self.new ≡ record self.old { readers = self.old.readers - 1 } }
    {
        self.readers = self.readers.saturating_sub(1);
    }

    pub(crate) fn drop_writer(&mut self)
        ensures { self.new ≡ record self.old { writers = self.old.writers - 1 } }
    {
        self.writers = self.writers.saturating_sub(1);
    }
}

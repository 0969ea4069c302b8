//! Edits that a call makes.
use crate::descriptor::{Descriptor, PipeEnd};
use byte_list::Bytes;

/// Bytes for a terminal.
pub struct Output {
    pub terminal: u32,
    pub bytes: Bytes,
}

impl Drop for Output {
    fn drop(self) {
        let Output {
            terminal: _,
            bytes: _bytes,
        } = self;
    }
}

/// An edit of a file, by its number.
#[derive(Drop)]
pub enum FileEdit {
    /// A new and empty file of this name is made, with the next number.
    Create(Bytes),
    /// These bytes are written at this offset.
    Write {
        file: u64,
        offset: u32,
        bytes: Bytes,
    },
    /// It loses all its bytes.
    Empty(u64),
    /// It loses its name.
    Remove(u64),
    /// It gets this name.
    Rename {
        file: u64,
        name: Bytes,
    },
}

/// What a descriptor stands for from now on; one that stands for nothing is free.
#[derive(Clone, Copy)]
pub struct Slot {
    pub fd: usize,
    pub holds: Option<Descriptor>,
}

/// So many more bytes of a tape are read.
#[derive(Clone, Copy)]
pub struct TapeRead {
    pub tape: u32,
    pub count: usize,
}

/// What happens to the pipes.
#[derive(Drop)]
pub enum PipeStep {
    /// A new pipe, the next by number, with one end of each kind.
    Open,
    /// Bytes are written to a pipe.
    Put { pipe: u32, bytes: Bytes },
    /// So many bytes are read from a pipe.
    Take { pipe: u32, count: usize },
    /// One more descriptor stands for an end.
    Add(PipeEnd),
    /// One descriptor fewer stands for an end.
    Drop(PipeEnd),
}

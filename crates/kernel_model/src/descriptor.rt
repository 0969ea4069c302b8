//! What a descriptor stands for.

/// An end of a pipe, by the pipe's number.
#[derive(Clone, Copy, Debug, PartialEq, Eq)]
pub enum PipeEnd {
    /// The end from which bytes are read.
    Read(u32),
    /// The end to which bytes are written.
    Write(u32),
}

/// What a descriptor stands for. Each may be read alone or written alone. Read: a tape, the read end of a pipe, a file that was
/// opened by mode 0. Written: a terminal, the write end of a pipe, a file that was opened by mode 1 or 2.
#[derive(Clone, Copy, Debug, PartialEq, Eq)]
pub enum Descriptor {
    /// A tape, by its number.
    Tape(u32),
    /// A terminal, by its number.
    Terminal(u32),
    /// A file, by its number, with the offset at which it is read or written next.
    File {
        file: u64,
        offset: u32,
        writes: bool,
    },
    /// An end of a pipe.
    Pipe(PipeEnd),
}

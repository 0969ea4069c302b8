//! What carries dependencies from one event to another.

/// A carrier (dependency object): what one event writes and a later one reads.
#[derive(Clone, Copy, Debug, PartialEq, Eq, Hash)]
pub enum Carrier {
    /// A process, by its number.
    Proc(u32),
    /// A file's bytes, and whether it lives, by the file's number.
    File(u64),
    /// The names of the files that live, with their numbers, and the number of the next file.
    Names,
    /// A pipe, by its number.
    Pipe(u32),
    /// The number of the next pipe.
    Pipes,
    /// The number of the next process.
    Tasks,
    /// A tape's place, by the tape's number.
    Tape(u32),
}

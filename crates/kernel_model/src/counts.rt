//! How many terminals and tapes there are, how many programs there may be, and how many bytes a call moves.
use disk_model::LONGEST_FILE_WRITE;

/// How many terminals there are, numbered from 0.
pub const TERMINALS: usize = 8;

/// How many tapes there are, numbered from 0.
pub const TAPES: usize = 8;

/// The most programs of a boot.
pub const MOST_PROGRAMS: usize = 8;

/// The most bytes that a call moves, so that what it writes to a file is one change.
pub const MOST_BYTES: u32 = LONGEST_FILE_WRITE;

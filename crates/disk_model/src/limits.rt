//! Limits of the files on a disk; the sizes are in bytes.

/// The most files that live at a time.
pub const MOST_FILES: usize = 32;

/// The most bytes of a name.
pub const LONGEST_NAME: u32 = 32;

/// The most bytes of a file.
pub const LONGEST_FILE: u32 = 16_384;

/// The most bytes that one change writes to a file.
pub const LONGEST_FILE_WRITE: u32 = 1024;

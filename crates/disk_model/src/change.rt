//! Changes of files, files, and pieces of a disk.
use byte_list::Bytes;

/// One change of the files. It names a file by its place, from 0, among those that live before the change, in order of creation.
#[derive(Drop)]
pub enum Change {
    /// A new and empty file of this name.
    Create(Bytes),
    /// These bytes at this offset of a file, in bytes from its start. A gap between its old end and the offset becomes zeros.
    Write {
        file: u16,
        offset: u32,
        bytes: Bytes,
    },
    /// A file loses all its bytes.
    Empty(u16),
    /// A file is gone, and those after it move down by one place.
    Remove(u16),
    /// A file gets this name, and keeps its place. A file that had the name is gone, and those after it move down by one place.
    Rename {
        file: u16,
        name: Bytes,
    },
}

/// A file: its name and its bytes.
pub struct NamedFile {
    pub name: Bytes,
    pub bytes: Bytes,
}

impl Drop for NamedFile {
    fn drop(self) {
        let NamedFile {
            name: _name,
            bytes: _bytes,
        } = self;
    }
}

/// Bytes for a place on the disk: `at` is the offset of the first, in bytes from the disk's start.
pub struct Piece {
    pub at: u32,
    pub bytes: Bytes,
}

impl Drop for Piece {
    fn drop(self) {
        let Piece {
            at: _,
            bytes: _bytes,
        } = self;
    }
}

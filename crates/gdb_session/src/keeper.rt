//! `Keeper`: keeps the disk in its file, for `monitor keep`.
use simdisk::SimDisk;

/// Keeps a disk where gdb's user asks for it.
pub trait Keeper {
    /// Keeps a disk, and gives the line that says what came of it.
    fn keep(&mut self, disk: &SimDisk) -> &'static str;
}

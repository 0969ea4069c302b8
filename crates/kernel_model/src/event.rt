//! The events of a run.

/// One event. Processes are named by their numbers, from 1.
#[derive(Clone, Copy, Debug)]
pub enum Event {
    /// The process runs n instructions (a time slice), or fewer where it comes to a call or a trap.
    Turn { pid: u32, n: u32 },
    /// The process enters the kernel by the call or the trap at which it stands.
    Enter { pid: u32 },
    /// A group of changes is submitted to the disk.
    Cut,
    /// The write in flight that begins at this offset of the disk is complete.
    Complete { at: u32 },
    /// The write in flight that begins at this offset of the disk has failed.
    Fail { at: u32 },
}

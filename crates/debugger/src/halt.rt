//! Where a machine goes no further along its trace.
use machine::Cause;

/// What keeps a machine from going on along its trace.
#[derive(Clone, Copy)]
pub enum Halt {
    /// It stands at an instruction that traps.
    Trap(Cause),
    /// It stands at a call that no reply is left for, or whose reply has bytes that may not be written.
    EndOfTrace,
}

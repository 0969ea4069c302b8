//! What steps and runs come to.
ghost use Rattle.std.specs.Prelude.{◌≡◌};
ghost use Rattle.debugger.specs.Stops.{answer_at, stopped_by as stopped_at};

use crate::fault::DebugFault;
use crate::halt::Halt;
use machine::Cause;

/// What a step comes to.
#[derive(Clone, Copy, Debug, PartialEq, Eq)]
pub enum Stepped {
    /// An instruction was done, or a call took its reply.
    Went,
    /// Nothing was done: the machine stands at an instruction that traps.
    Trap(Cause),
}

/// Why a run stopped.
#[derive(Clone, Copy, Debug, PartialEq, Eq)]
pub enum Stopped {
    /// The machine came to a breakpoint, which has this number.
    Break(usize),
    /// The machine stands at an instruction that traps.
    Trap(Cause),
    /// The machine stands at a call that the trace has no reply for.
    EndOfTrace,
    /// All instructions that it might do were done.
    Limit,
}

/// What a step comes to at what keeps its machine from going on, if anything does.
pub fn stepped_by(halt: Option<Halt>) -> Result<Stepped, DebugFault>
    ensures { result ≡ answer_at halt }
{
    match halt {
        None => Ok(Stepped::Went),
        Some(Halt::Trap(cause)) => Ok(Stepped::Trap(cause)),
        Some(Halt::EndOfTrace) => Err(DebugFault::PastTrace),
    }
}

/// How a run stops at what keeps its machine from going on.
pub fn stopped_by(halt: Halt) -> Stopped
    ensures { result ≡ stopped_at halt }
{
    match halt {
        Halt::Trap(cause) => Stopped::Trap(cause),
        Halt::EndOfTrace => Stopped::EndOfTrace,
    }
}

//! `Stop` and `End`: why a program stops, and why it goes no further.
use debugger::{Cause, Watch};
use kernel_model::Refused;
use std::fmt;
use std::fmt::Display;

/// Why a program goes no further. It prints as a line.
#[derive(Clone, Copy)]
pub enum End {
    /// 2^40 instructions are done.
    Budget,
    /// The history fills so many MiB, and has no more room.
    Full { mib: u64 },
    /// The trace has no more replies.
    Trace,
    /// The bytes of the next reply may not be written.
    FaultyReply,
    /// The process ended with a status.
    Exit { process: u32, status: u32 },
    /// The process waits, and no other one runs on.
    Waits { process: u32 },
    /// The kernel goes no further.
    Refused { process: u32, why: Refused },
}

impl Display for End {
    fn fmt<W: fmt::Write>(&self, f: &mut fmt::Formatter<W>) -> fmt::Result {
        match self {
            End::Budget => f.write_str("2^40 instructions are done"),
            End::Full { mib } => write!(
                f,
                "the program's history fills {mib} MiB; it goes no further (--history MIB gives it more)"
            ),
            End::Trace => f.write_str("end of trace"),
            End::FaultyReply => {
                f.write_str("end of trace: the bytes of its reply may not be written")
            }
            End::Exit { process, status } => write!(f, "process {process} ended {status}"),
            End::Waits { process } => write!(
                f,
                "process {process} waits for nobody: no other process can end its wait"
            ),
            End::Refused { process, why } => write!(f, "process {process} goes no further: {why}"),
        }
    }
}

/// Why a program stops.
#[derive(Clone, Copy)]
pub enum Stop {
    /// The program went as far as it was to.
    Done,
    /// The program stands at the breakpoint of a number.
    Break(usize),
    /// An instruction or a reply meets a watch. The machine stands before it on the way on, and after it on the way back.
    Watch(Watch),
    /// The last instruction, or its reply, changed a location that is followed. The machine stands after it.
    Change,
    /// The program stands at a trap.
    Trap(Cause),
    /// The program stands at its first state.
    Begin,
    /// The program goes no further.
    End(End),
}

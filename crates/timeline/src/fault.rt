//! Why a session of `debug` or `gdb` ends early.
use debugger::DebugFault;
use std::alloc::{AllocError, AllocFailed};
use std::io;

/// Why a session with a debugger ends early.
#[derive(Clone, Copy)]
pub enum SessionFault {
    /// Memory ran out.
    OutOfMemory,
    /// The input could not be read, or the output could not be written.
    InputOutput,
}

impl From<AllocError> for SessionFault {
    fn from(_error: AllocError) -> SessionFault {
        SessionFault::OutOfMemory
    }
}

impl<T: Drop> From<AllocFailed<T>> for SessionFault {
    fn from(_failed: AllocFailed<T>) -> SessionFault {
        SessionFault::OutOfMemory
    }
}

/// All other refusals of a debugger are answers to a command.
impl From<DebugFault> for SessionFault {
    fn from(_fault: DebugFault) -> SessionFault {
        SessionFault::OutOfMemory
    }
}

impl From<io::Error> for SessionFault {
    fn from(error: io::Error) -> SessionFault {
        match error.kind() {
            io::ErrorKind::OutOfMemory => SessionFault::OutOfMemory,
            _ => SessionFault::InputOutput,
        }
    }
}

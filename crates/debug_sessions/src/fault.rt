//! Makes the program's `Fault` of the fault of a session with the debugger.
use faults::{Fault, Refusal};
use timeline::SessionFault;

/// The program's fault where a session of `debug` or `gdb` ends early.
pub fn of_session(fault: SessionFault) -> Fault {
    match fault {
        SessionFault::OutOfMemory => Fault::OutOfMemory,
        // (the system's reason is not known)
        SessionFault::InputOutput => Fault::from(Refusal::Streams),
    }
}

//! Prints why the debugger refuses a command.
use debugger::DebugFault;
use std::io::Write;
use timeline::SessionFault;

/// Prints the number and the name of a refusal; want of memory ends the session.
pub fn print_refusal<O: Write>(why: DebugFault, out: &mut O) -> Result<(), SessionFault> {
    match why {
        DebugFault::OutOfMemory => Err(SessionFault::OutOfMemory),
        why => Ok(writeln!(out, "refused {0} {why}", why.number())?),
    }
}

/// Prints the refusal, if there is one.
pub fn print_refused<O: Write>(
    answer: Result<(), DebugFault>,
    out: &mut O,
) -> Result<(), SessionFault> {
    match answer {
        Ok(()) => Ok(()),
        Err(why) => print_refusal(why, out),
    }
}

//! `check_file`: checks a source, and prints what is found (`bench check`).
use crate::source::{other_kind, source_fault, source_in, text_of};
use assembler::AsmFault;
use faults::{Fault, ForPeople};
use source_checks::{Checked, check, print_checked};
use std::alloc::Global;
use std::io::Write;
use std::rt::Files;

/// Prints what is found in a source that is refused, or what else its file is. Gives the fault of the command.
fn print_refused<O: Write>(
    alloc: Global,
    path: &str,
    source: &str,
    fault: AsmFault,
    out: &mut O,
) -> Result<Fault, Fault> {
    let refused = source_fault(alloc, path, source, fault);
    if other_kind(source).is_some() {
        let told = ForPeople(&refused);
        writeln!(out, "{told}")?;
    } else {
        print_checked(alloc, path, source, &Checked::Refused(fault), out)?;
    }
    Ok(refused)
}

/// Checks the source in a file, and prints what is found. Fails where `assemble_file` does, with the same fault.
pub fn check_file<R: Files + AllocGlobal, O: Write>(
    rt: &R,
    path: &str,
    out: &mut O,
) -> Result<(), Fault> {
    let alloc = rt.alloc();
    let bytes = source_in(rt, path)?;
    let (source, cut) = text_of(alloc, path, &bytes)?;
    let checked = match cut {
        None => check(alloc, source)?,
        Some(fault) => Checked::Refused(fault),
    };
    match checked {
        Checked::Refused(fault) => Err(print_refused(alloc, path, source, fault, out)?),
        Checked::Passed { .. } => Ok(print_checked(alloc, path, source, &checked, out)?),
    }
}

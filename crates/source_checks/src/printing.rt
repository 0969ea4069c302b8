//! What is printed of a checked source.
use crate::checking::Checked;
use crate::gathering::faults;
use crate::place::{label_of, place_in};
use crate::pointing::point;
use crate::rewriting::rewritten;
use crate::saying::named_advice;
use crate::source::Source;
use crate::telling::tell;
use crate::warnings::Warning;
use assembler::{AsmFault, Cause};
use std::alloc::{AllocError, Global};
use std::io::{self, Write};

/// Adds a line with its number, and a caret under a place in it.
fn push_line(
    alloc: Global,
    text: &mut String,
    line: &str,
    number: usize,
    column: usize,
) -> Result<(), AllocError> {
    let pointed = point(alloc, line, column)?;
    let (shown, below) = (pointed.line.as_str(), pointed.below.as_str());
    writeln!(text, "{number:>5} | {shown}\n      | {below}^")
}

/// Adds the line of a fault of syntax as it is written here, if that is known.
fn push_rewritten(
    alloc: Global,
    text: &mut String,
    line: &str,
    fault: AsmFault,
) -> Result<(), AllocError> {
    if fault.why != Cause::Syntax {
        return Ok(());
    }
    match rewritten(alloc, &place_in(line, fault.column))? {
        Some(line) => {
            let pointed = point(alloc, line.as_str(), 1)?;
            let shown = pointed.line.as_str();
            writeln!(text, "write | {shown}")
        }
        None => Ok(()),
    }
}

/// The line of a fault in the form that editors read: its place in the file of a path, and its advice.
fn fault_line(
    alloc: Global,
    path: &str,
    source: &Source<'_>,
    fault: AsmFault,
) -> Result<String, AllocError> {
    let (line, column) = (fault.line, fault.column);
    let said = named_advice(alloc, source, fault)?;
    let said = said.as_str();
    format!(in alloc; "{path}:{line}:{column}: error: {said}")
}

/// Adds what is said of a fault: one line, and if it has a place of its own its line with a caret.
fn push_fault(
    alloc: Global,
    text: &mut String,
    path: &str,
    source: &Source<'_>,
    fault: AsmFault,
) -> Result<(), AllocError> {
    let said = fault_line(alloc, path, source, fault)?;
    let said = said.as_str();
    writeln!(text, "{said}")?;
    match fault.why {
        Cause::NoStart | Cause::TooLarge | Cause::OutOfMemory => Ok(()),
        _ => {
            let line = source.line(fault.line);
            push_line(alloc, text, line, fault.line, fault.column)?;
            push_rewritten(alloc, text, line, fault)
        }
    }
}

/// Adds the faults of a source, of which the assembler tells this one. It is marked among others.
fn push_faults(
    alloc: Global,
    text: &mut String,
    path: &str,
    source: &Source<'_>,
    first: AsmFault,
) -> Result<(), AllocError> {
    let faults = faults(alloc, source.text, first)?;
    let telling = tell(alloc, source, faults.as_slice(), first)?;
    for told in &telling.told {
        push_fault(alloc, text, path, source, told.fault)?;
        if telling.told.len() > 1 && told.fault == first {
            text.push_str("this is the fault that bench asm tells\n")?;
        }
        told.push_lines(text)?;
    }
    let more = telling.more;
    if more > 0 {
        writeln!(text, "and {more} more")?;
    }
    Ok(())
}

/// Adds the warnings about a source, each with the line of its statement.
fn push_warnings(
    alloc: Global,
    text: &mut String,
    path: &str,
    source: &Source<'_>,
    warnings: &[Warning],
) -> Result<(), AllocError> {
    if warnings.is_empty() {
        text.push_str("no fault found\n")?;
    }
    for warning in warnings {
        let (number, doubt) = (warning.line, warning.doubt);
        let line = source.line(number);
        let (_, statement) = label_of(line);
        let column = line.len().saturating_sub(statement.len()).saturating_add(1);
        writeln!(text, "{path}:{number}:{column}: warning: {doubt}")?;
        push_line(alloc, text, line, number, column)?;
    }
    Ok(())
}

fn report(
    alloc: Global,
    path: &str,
    source: &str,
    checked: &Checked,
) -> Result<String, AllocError> {
    let mut text = String::new(alloc);
    let source = Source::of(alloc, source)?;
    match checked {
        Checked::Refused(first) => push_faults(alloc, &mut text, path, &source, *first)?,
        Checked::Passed { warnings, .. } => push_warnings(
            alloc,
            &mut text,
            path,
            &source,
            warnings.as_slice(),
        )?,
    }
    Ok(text)
}

/// Prints what a check found in the source at a path. Each fault and each warning begins with a line that editors read,
/// `path:line:column: error: ..` or `.. warning: ..`, and a caret under its place follows. If there are several faults, the one that the
/// assembler tells is marked. Without any it prints `no fault found`.
pub fn print_checked<O: Write>(
    alloc: Global,
    path: &str,
    source: &str,
    checked: &Checked,
    out: &mut O,
) -> io::Result<()> {
    match report(alloc, path, source, checked) {
        Ok(text) => out.write_all(text.as_str().as_bytes()),
        Err(_) => Err(io::Error::from(io::ErrorKind::OutOfMemory)),
    }
}

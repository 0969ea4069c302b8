//! Prints lines of the source, for `list`.
use debug_info::SourceLines;
use debugger::Debugger;
use std::io;
use std::io::Write;

/// How many lines are printed, and how many of them come before the line that is asked for.
const LINES: usize = 10;

const BEFORE: usize = 5;

/// Whether a breakpoint stands at the first word of a line.
fn has_break(debugger: &Debugger, lines: &SourceLines, number: usize) -> bool {
    match lines.word_from(number) {
        Some((line, at)) => line == number && debugger.number_at(at).is_some(),
        None => false,
    }
}

fn print_line<O: Write>(number: usize, text: &str, marks: &str, out: &mut O) -> io::Result<()> {
    let text = text.trim_ascii_end();
    let blanks = if text.is_empty() { "" } else { "  " };
    writeln!(out, "{marks}{number:>5}{blanks}{text}")
}

/// A line of a source. None past the last one; what is empty after the last line's end is none.
fn line_of(lines: &SourceLines, number: usize) -> Option<&str> {
    match lines.line(number) {
        Some("") if lines.line(number.saturating_add(1)).is_none() => None,
        text => text,
    }
}

/// Prints ten lines of a source around one of this number, or around the next one. `>` marks the line of the next instruction, `*` a
/// breakpoint.
pub fn print_listing<O: Write>(
    debugger: &Debugger,
    lines: &SourceLines,
    number: Option<usize>,
    out: &mut O,
) -> io::Result<()> {
    let next = lines.number_at(debugger.state().pc());
    let middle = number.or(next).unwrap_or(1);
    let first = middle.saturating_sub(BEFORE).max(1);
    for number in first..first.saturating_add(LINES) {
        if let Some(text) = line_of(lines, number) {
            let marks = match (next == Some(number), has_break(debugger, lines, number)) {
                (false, false) => "  ",
                (true, false) => "> ",
                (false, true) => " *",
                (true, true) => ">*",
            };
            print_line(number, text, marks, out)?;
        }
    }
    Ok(())
}

//! Prints where a machine stands: the count, the program counter, the instruction there, and its line of the source.
use debug_info::SourceLines;
use debugger::Machine;
use formats::decode;
use std::io;
use std::io::Write;

/// Prints how many instructions were done, the program counter, and the word there with the instruction that it means.
fn print_place<O: Write>(machine: &Machine, out: &mut O) -> io::Result<()> {
    let count = machine.count();
    let pc = machine.pc();
    write!(out, "count {count}, pc {pc:08x}: ")?;
    print_word_at(machine, pc, out)
}

/// Prints the source's line for the word at an address, if there is one.
fn print_line<O: Write>(source: &SourceLines, at: u32, out: &mut O) -> io::Result<()> {
    match source.line_at(at) {
        Some((number, text)) => writeln!(out, "  line {number}: {text}"),
        None => Ok(()),
    }
}

/// The same as `print_place`, and then the line of the source, where there is one.
pub fn print_place_in<O: Write>(
    machine: &Machine,
    source: Option<&SourceLines>,
    out: &mut O,
) -> io::Result<()> {
    print_place(machine, out)?;
    match source {
        Some(source) => print_line(source, machine.pc(), out),
        None => Ok(()),
    }
}

/// Prints the word at an address, if one may be fetched there.
fn print_word_at<O: Write>(machine: &Machine, at: u32, out: &mut O) -> io::Result<()> {
    match machine.space().fetch(at) {
        Ok(word) => print_word(word, out),
        Err(_) => out.write_all(b"no word may be fetched here\n"),
    }
}

/// Prints a word, and the instruction that it means, if it means one.
fn print_word<O: Write>(word: u32, out: &mut O) -> io::Result<()> {
    match decode(word) {
        Some(instruction) => writeln!(out, "{word:08x}  {instruction}"),
        None => writeln!(out, "{word:08x}  .word 0x{word:08x}"),
    }
}

//! One value of a machine, as `print` says it.
use crate::command::Printed;
use debugger::Machine;
use memory::Space;
use std::io;
use std::io::Write;

/// Prints a word, and the number that it is with a sign.
fn print_word<O: Write>(word: u32, out: &mut O) -> io::Result<()> {
    let signed = word.cast_signed();
    writeln!(out, "0x{word:08x} ({signed})")
}

/// The word of the four bytes from an address on, the lowest first. None where one of them stands in no page.
fn word_at(space: &Space, at: u32) -> Option<u32> {
    let mut word = 0;
    for place in (0..4).rev() {
        word = word << 8 | u32::from(space.byte(at.checked_add(place)?)?);
    }
    Some(word)
}

/// Prints the word at an address.
fn print_word_at<O: Write>(space: &Space, at: u32, out: &mut O) -> io::Result<()> {
    write!(out, "*0x{at:08x} = ")?;
    match word_at(space, at) {
        Some(word) => print_word(word, out),
        None => out.write_all(b"no page\n"),
    }
}

/// Prints a value by its name, in hexadecimal digits and as a decimal number.
pub fn print_value<O: Write>(machine: &Machine, what: Printed, out: &mut O) -> io::Result<()> {
    match what {
        Printed::Register(register) => {
            write!(out, "{register} = ")?;
            print_word(machine.reg(register), out)
        }
        Printed::Pc => writeln!(out, "pc = 0x{:08x}", machine.pc()),
        Printed::Word(at) => print_word_at(machine.space(), at, out),
        Printed::Address(at) => writeln!(out, "0x{at:08x}"),
    }
}

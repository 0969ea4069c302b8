//! What commands there are.
use crate::aids::Aids;
use crate::verbs::{VERBS, Verb};
use std::io;
use std::io::Write;

/// The commands of a session without aids.
const COMMANDS: &str = "  step [N]        does N instructions, or one
  run             goes on to a breakpoint, a trap, or the end
  rewind N        goes back to the state after N instructions
  break ADDR      sets a breakpoint, at eight hexadecimal digits or 0x..
  clear N         removes breakpoint N
  state           prints all registers
  print REGISTER  prints a register, or pc
  print *ADDR     prints the word at an address
  help, ?         prints this
  quit            ends
";

/// What the words after a command are.
const WORDS: &str =
    "ADDR: eight hexadecimal digits, up to eight after 0x, LABEL or LABEL+N. PLACE: ADDR or a register.
N: decimal, or hexadecimal after 0x. A command may be shortened as long as one name alone begins so.
";

/// Prints what a command does.
pub fn print_help_of<O: Write>(verb: Verb, out: &mut O) -> io::Result<()> {
    out.write_all(verb.help().as_bytes())
}

/// Prints the commands of a session, a line each.
pub fn print_help<O: Write>(aids: &Aids, out: &mut O) -> io::Result<()> {
    if !aids.some() {
        return out.write_all(COMMANDS.as_bytes());
    }
    for verb in &VERBS {
        print_help_of(*verb, out)?;
    }
    out.write_all(WORDS.as_bytes())
}

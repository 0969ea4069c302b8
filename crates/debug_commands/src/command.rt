//! `command_of`: reads a line as a command of `debug`.
use crate::aids::Aids;
use crate::places::{
    address_in_digits, break_place, count_of, listed_line, location_of, number_of, number_or_one,
    place_of,
};
use crate::verbs::{Verb, verb_of};
use formats::Reg;
use input_reading::register_named;
use timeline::Location;

/// The commands that move the machine.
#[derive(Clone, Copy)]
pub enum Motion {
    /// So many instructions on.
    Step(u64),
    /// On to a breakpoint, a trap, or the end of the trace.
    Run,
    /// Back to the state after so many instructions.
    Rewind(u64),
    /// So many instructions back.
    Back(u64),
    /// Back to the last breakpoint or watch, or to the first state.
    Reverse,
    /// Back to just before the last instruction that changed a location.
    Last(Location),
}

/// What `print` prints.
#[derive(Clone, Copy)]
pub enum Printed {
    Register(Reg),
    /// The address of the next instruction.
    Pc,
    /// The word at an address.
    Word(u32),
    /// An address itself, as that of a label.
    Address(u32),
}

/// A command that is answered.
#[derive(Clone, Copy)]
pub enum Command {
    Move(Motion),
    /// A breakpoint is set at an address.
    Break(u32),
    /// A run stops after each change of a location.
    Watch(Location),
    /// The breakpoint or the watch of a number is removed.
    Clear(u64),
    /// Bytes from an address on are printed.
    Show { at: u32, count: u32 },
    /// All registers are printed.
    State,
    Print(Printed),
    /// Lines of the source are printed, around a line, or around the next one.
    List(Option<usize>),
    Help,
    HelpOf(Verb),
    Quit,
}

/// Why a line is no command.
#[derive(Clone, Copy)]
pub enum CommandFault {
    Unknown,
    Number,
    Address,
    Count,
    Printed,
    /// Several names of commands begin with the word.
    Ambiguous,
    /// The command takes no words.
    Words,
    /// A label of data, where no breakpoint can stop a program.
    Data,
    /// The source has no such line or label.
    Line,
    /// The program is of another file.
    File,
}

impl CommandFault {
    /// The answer to such a line, where a session has aids or has none.
    pub fn text(self, has_aids: bool) -> &'static str {
        match (self, has_aids) {
            (CommandFault::Unknown | CommandFault::Ambiguous, _) => {
                "unknown command; there are: step N, run, break ADDR, clear N, rewind N, state, quit"
            }
            (CommandFault::Number, _) => "faulty number: N is decimal, or hexadecimal after 0x",
            (CommandFault::Address, false) => {
                "faulty address: ADDR is eight hexadecimal digits, or up to eight after 0x"
            }
            (CommandFault::Address, true) => {
                "faulty address: ADDR is eight hexadecimal digits, or up to eight after 0x, LABEL or LABEL+N with a label of the source"
            }
            (CommandFault::Count, _) => "faulty number: N is decimal, from 1 to 4096",
            (CommandFault::Printed, _) => {
                "nothing of this name: print takes a register, pc, *ADDR, or a label of the source"
            }
            (CommandFault::Words, _) => "this command takes no words after it",
            (CommandFault::Data, _) => {
                "no instruction is at a label of data: watch LABEL stops a run where its bytes change"
            }
            (CommandFault::Line, _) => "the source has no such line or label",
            (CommandFault::File, _) => "the program is not of this file",
        }
    }
}

/// What a word names that is printed, by what it may name beside registers and pc.
fn value_named(word: &str, aids: &Aids) -> Result<Printed, CommandFault> {
    if word == "pc" {
        return Ok(Printed::Pc);
    }
    if let Some(place) = word.strip_prefix("*") {
        return Ok(Printed::Word(place_of(place, aids)?.at));
    }
    if let Some(register) = register_named(word) {
        return Ok(Printed::Register(register));
    }
    match (address_in_digits(word), place_of(word, aids)) {
        (None, Ok(place)) => Ok(Printed::Address(place.at)),
        _ => Err(CommandFault::Printed),
    }
}

/// The command that prints memory, of the words after its name.
fn show(words: &str, aids: &Aids) -> Result<Command, CommandFault> {
    let (word, number) = words.split_once(' ').unwrap_or((words, ""));
    let place = place_of(word, aids)?;
    Ok(Command::Show {
        at: place.at,
        count: count_of(number.trim_ascii())?,
    })
}

/// The command of this name, with the words after it, or none.
fn with_word(name: &str, word: &str, aids: &Aids) -> Result<Command, CommandFault> {
    match name {
        "step" => Ok(Command::Move(Motion::Step(number_of(word)?))),
        "rewind" => Ok(Command::Move(Motion::Rewind(number_of(word)?))),
        "clear" => Ok(Command::Clear(number_of(word)?)),
        "break" => Ok(Command::Break(break_place(word, aids)?)),
        "print" => Ok(Command::Print(value_named(word, aids)?)),
        _ => Err(CommandFault::Unknown),
    }
}

/// The command of a line in a session without aids.
fn plain_command_of(line: &str, aids: &Aids) -> Result<Command, CommandFault> {
    match line {
        "run" => Ok(Command::Move(Motion::Run)),
        "state" => Ok(Command::State),
        "quit" => Ok(Command::Quit),
        "help" | "?" => Ok(Command::Help),
        "step" => Ok(Command::Move(Motion::Step(1))),
        _ => {
            let (name, word) = line.split_once(' ').unwrap_or((line, ""));
            with_word(name, word.trim_ascii(), aids)
        }
    }
}

/// A command without words after it.
fn alone(command: Command, words: &str) -> Result<Command, CommandFault> {
    if words.is_empty() {
        Ok(command)
    } else {
        Err(CommandFault::Words)
    }
}

/// A motion, with the words after its name.
fn motion_of(verb: Verb, words: &str, aids: &Aids) -> Result<Motion, CommandFault> {
    match verb {
        Verb::Step => Ok(Motion::Step(number_or_one(words)?)),
        Verb::Back => Ok(Motion::Back(number_or_one(words)?)),
        Verb::Last => Ok(Motion::Last(location_of(words, aids)?)),
        _ => Ok(Motion::Rewind(number_of(words)?)),
    }
}

fn help_of(words: &str) -> Result<Command, CommandFault> {
    if words.is_empty() {
        Ok(Command::Help)
    } else {
        Ok(Command::HelpOf(verb_of(words)?))
    }
}

/// The command of a line in a session with aids.
fn aided_command_of(line: &str, aids: &Aids) -> Result<Command, CommandFault> {
    let (name, words) = line.split_once(' ').unwrap_or((line, ""));
    let words = words.trim_ascii();
    match verb_of(name)? {
        Verb::Run => alone(Command::Move(Motion::Run), words),
        Verb::Reverse => alone(Command::Move(Motion::Reverse), words),
        Verb::State => alone(Command::State, words),
        Verb::Quit => alone(Command::Quit, words),
        Verb::Break => Ok(Command::Break(break_place(words, aids)?)),
        Verb::Watch => Ok(Command::Watch(location_of(words, aids)?)),
        Verb::Clear => Ok(Command::Clear(number_of(words)?)),
        Verb::List => Ok(Command::List(listed_line(words, aids)?)),
        Verb::Print => Ok(Command::Print(value_named(words, aids)?)),
        Verb::Show => show(words, aids),
        Verb::Help => help_of(words),
        verb => Ok(Command::Move(motion_of(verb, words, aids)?)),
    }
}

/// The command of a line that has no blanks at its ends.
pub fn command_of(line: &str, aids: &Aids) -> Result<Command, CommandFault> {
    if aids.some() {
        aided_command_of(line, aids)
    } else {
        plain_command_of(line, aids)
    }
}

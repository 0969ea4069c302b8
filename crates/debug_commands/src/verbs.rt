//! `Verb`: what the first word of a line asks for: a command's name, its short form, or the beginning of one name alone.
use crate::command::CommandFault;
use std::alloc::{AllocError, Global};
use strsim::osa_distance;

/// A command of a session with aids.
#[derive(Clone, Copy)]
pub enum Verb {
    Step,
    Back,
    Run,
    Reverse,
    Rewind,
    Last,
    Break,
    Watch,
    Clear,
    List,
    State,
    Print,
    Show,
    Help,
    Quit,
}

/// All commands, in the order in which `help` lists them.
pub const VERBS: [Verb; 15] = [
    Verb::Step,
    Verb::Back,
    Verb::Run,
    Verb::Reverse,
    Verb::Rewind,
    Verb::Last,
    Verb::Break,
    Verb::Watch,
    Verb::Clear,
    Verb::List,
    Verb::State,
    Verb::Print,
    Verb::Show,
    Verb::Help,
    Verb::Quit,
];

/// The names of commands.
const NAMES: [(&str, Verb); 16] = [
    ("back", Verb::Back),
    ("break", Verb::Break),
    ("clear", Verb::Clear),
    ("continue", Verb::Run),
    ("help", Verb::Help),
    ("last", Verb::Last),
    ("list", Verb::List),
    ("print", Verb::Print),
    ("quit", Verb::Quit),
    ("reverse", Verb::Reverse),
    ("rewind", Verb::Rewind),
    ("run", Verb::Run),
    ("show", Verb::Show),
    ("state", Verb::State),
    ("step", Verb::Step),
    ("watch", Verb::Watch),
];

/// Their short forms.
const SHORT: [(&str, Verb); 9] = [
    ("?", Verb::Help),
    ("b", Verb::Break),
    ("c", Verb::Run),
    ("l", Verb::List),
    ("p", Verb::Print),
    ("q", Verb::Quit),
    ("r", Verb::Run),
    ("s", Verb::Step),
    ("x", Verb::Show),
];

fn short_of(word: &str) -> Option<Verb> {
    for (short, verb) in &SHORT {
        if *short == word {
            return Some(*verb);
        }
    }
    None
}

/// The command that a word names. Refused: Unknown, where no name begins with the word; Ambiguous, where several do.
pub fn verb_of(word: &str) -> Result<Verb, CommandFault> {
    if let Some(verb) = short_of(word) {
        return Ok(verb);
    }
    let mut found = Err(CommandFault::Unknown);
    for (name, verb) in &NAMES {
        if *name == word {
            return Ok(*verb);
        }
        if name.starts_with(word) {
            found = match found {
                Err(CommandFault::Unknown) => Ok(*verb),
                _ => Err(CommandFault::Ambiguous),
            };
        }
    }
    found
}

/// The names that begin with a word.
pub fn names_from(alloc: Global, word: &str) -> Result<Vec<&'static str>, AllocError> {
    let mut names = Vec::new(alloc);
    for (name, _) in &NAMES {
        if name.starts_with(word) {
            names.push(*name)?;
        }
    }
    Ok(names)
}

/// The nearest name, if a third of the word's letters, or one, make it the word.
pub fn nearest_name(alloc: Global, word: &str) -> Result<Option<&'static str>, AllocError> {
    let mut nearest = None;
    let mut least = (word.len() / 3).max(1);
    for (name, _) in &NAMES {
        let far = osa_distance(alloc, word, *name)?;
        if far <= least && (far < least || nearest.is_none()) {
            least = far;
            nearest = Some(*name);
        }
    }
    Ok(nearest)
}

impl Verb {
    /// What it does, in lines.
    pub fn help(self) -> &'static str {
        match self {
            Verb::Step => "  step [N]           does N instructions, or one (s)\n",
            Verb::Back => "  back [N]           goes back by N instructions, or one\n",
            Verb::Run => {
                "  run                goes on to a breakpoint, a watch, a trap, or the end (r, c, continue)\n"
            }
            Verb::Reverse => {
                "  reverse            goes back to the last breakpoint or watch that was passed, or to the beginning\n"
            }
            Verb::Rewind => {
                "  rewind N           goes back to the state after the first N instructions\n"
            }
            Verb::Last => {
                "  last PLACE [N]     goes back to just before the instruction that last changed a place; again: the change before\n"
            }
            Verb::Break => {
                "  break ADDR|LINE    sets a breakpoint at an address, or at a line of the source, as 13 or FILE:13 (b)\n"
            }
            Verb::Watch => {
                "  watch PLACE [N]    stops a run after each instruction that changes a place\n"
            }
            Verb::Clear => "  clear N            removes breakpoint or watch N\n",
            Verb::List => {
                "  list [LINE|LABEL]  prints ten lines of the source: > is the next one, * has a breakpoint (l)\n"
            }
            Verb::State => "  state              prints all registers\n",
            Verb::Print => {
                "  print REGISTER     prints a register, or pc (p)
  print *ADDR        prints the word at an address
  print LABEL        prints the address of a label\n"
            }
            Verb::Show => {
                "  show ADDR N        prints N bytes of memory from an address on (x)\n"
            }
            Verb::Help => "  help [COMMAND]     prints this, or what one command does (?)\n",
            Verb::Quit => "  quit               ends (q)\n",
        }
    }
}

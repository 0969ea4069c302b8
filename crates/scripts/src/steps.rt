//! The steps of a script: what its lines after the set-up lines do.
use crate::words::{Terminal, only_bytes_of, terminal_of};
use byte_list::Bytes;
use input_reading::decimal_word;
use kernel::Event;
use std::alloc::{AllocError, Global};

/// What a line asks of the core. The answer is printed.
#[derive(Clone, Copy)]
pub enum Question {
    /// What a terminal, 0 to 7, shows.
    Shown(Terminal),
    /// The replies to a process's calls that are handed out.
    Trace(u32),
    /// The files that the disk held at this boot.
    Files,
}

/// What a line that is no `crash` line does with the core, which goes on.
#[derive(Clone, Copy)]
pub enum Action {
    /// An event is applied.
    Apply(Event),
    /// All changes are committed.
    Drain,
    Ask(Question),
}

/// A line of a script that is no set-up line.
#[derive(Drop)]
pub enum Step {
    Act(Action),
    /// The run is cut short, and all programs are booted again on the disk that is left, where the ranges of writes in
    /// flight or failed take these bytes.
    Crash(Bytes),
}

/// The action of a line that is this word alone, if there is one.
fn plain_action(name: &str) -> Option<Action> {
    match name {
        "cut" => Some(Action::Apply(Event::Cut)),
        "drain" => Some(Action::Drain),
        "files" => Some(Action::Ask(Question::Files)),
        _ => None,
    }
}

/// The action of a line of this word and a number, if there is one.
fn numbered_action(name: &str, number: u32) -> Option<Action> {
    match name {
        "enter" => Some(Action::Apply(Event::Enter { pid: number })),
        "complete" => Some(Action::Apply(Event::Complete { at: number })),
        "fail" => Some(Action::Apply(Event::Fail { at: number })),
        "shown" => Some(Action::Ask(Question::Shown(terminal_of(number)?))),
        "trace" => Some(Action::Ask(Question::Trace(number))),
        _ => None,
    }
}

/// The action of a line, by its first word and the words after that, if there is one.
fn action_of(name: &str, words: &[&str]) -> Option<Action> {
    match words {
        [] => plain_action(name),
        [number] => numbered_action(name, decimal_word(number)?),
        [pid, n] if name == "turn" => Some(Action::Apply(Event::Turn {
            pid: decimal_word(pid)?,
            n: decimal_word(n)?,
        })),
        _ => None,
    }
}

/// The step of a line that is no set-up line, by its first word and the words after that. None where the line has no form.
pub fn step_of(alloc: Global, name: &str, words: &[&str]) -> Result<Option<Step>, AllocError> {
    match name {
        "crash" => Ok(only_bytes_of(alloc, words)?.map(Step::Crash)),
        _ => Ok(action_of(name, words).map(Step::Act)),
    }
}

/// The process of an event; those of the disk have none.
pub fn process_of(event: Event) -> Option<u32> {
    match event {
        Event::Turn { pid, .. } | Event::Enter { pid } => Some(pid),
        Event::Cut | Event::Complete { .. } | Event::Fail { .. } => None,
    }
}

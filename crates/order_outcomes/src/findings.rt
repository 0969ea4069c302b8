//! The outcomes that were found so far.
use crate::expectations::expectations_of;
use crate::outcome::Outcome;
use faults::{ExplorationFault, Fault};
use std::alloc::{AllocError, Global};
use std::collections::HashSet;
use std::io;
use std::io::Write;

/// The outcomes that were found, each once.
#[derive(Drop)]
pub struct Findings<'a> {
    /// The lines of the outcomes that are expected; None where any outcome is.
    expected: Option<Vec<&'a str>>,
    outcomes: HashSet<String>,
    /// The first outcome in which a process runs on, by its number.
    pub runs_on: Option<u64>,
}

impl<'a> Findings<'a> {
    /// None was found yet. The expectations are read.
    pub fn new(alloc: Global, expected: Option<&'a str>) -> Result<Findings<'a>, Fault> {
        let expected = match expected {
            Some(text) => Some(expectations_of(alloc, text)?),
            None => None,
        };
        Ok(Findings {
            expected,
            outcomes: HashSet::new(alloc),
            runs_on: None,
        })
    }

    /// How many there are.
    pub fn count(&self) -> u64 {
        self.outcomes.len() as u64
    }

    /// Keeps an outcome. Gives its number where it is a new one.
    pub fn keep(&mut self, alloc: Global, outcome: &Outcome) -> Result<Option<u64>, AllocError> {
        if !self
            .outcomes
            .insert(String::from_str(alloc, outcome.text.as_str())?)?
        {
            return Ok(None);
        }
        let number = self.count();
        if outcome.runs_on && self.runs_on.is_none() {
            self.runs_on = Some(number);
        }
        Ok(Some(number))
    }

    /// Refuses an outcome that is not expected.
    pub fn judge(&self, number: u64, outcome: &Outcome) -> Result<(), Fault> {
        match &self.expected {
            Some(lines) if !lines.iter().any(|line| *line == outcome.text.as_str()) => {
                Err(Fault::from(ExplorationFault::NotExpected { outcome: number }))
            }
            _ => Ok(()),
        }
    }
}

/// Prints an outcome, with how many calls lead to it.
pub fn print_outcome<O: Write>(number: u64, outcome: &Outcome, out: &mut O) -> io::Result<()> {
    let calls = outcome.calls.len();
    let text = outcome.text.as_str();
    writeln!(out, "outcome {number} calls {calls} {text}")
}

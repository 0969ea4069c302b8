//! A script, read whole: its set-up lines first, and then its steps.
use crate::setup::{Setup, SetupLine};
use crate::steps::{Step, step_of};
use faults::{Fault, Refusal};
use host_files::{FileKind, kind_fault, kind_of};
use std::alloc::{AllocError, Global};

/// Whether a line adds nothing to a script: it is empty, or a comment.
fn is_skipped(line: &str) -> bool {
    line.is_empty() || line.starts_with('#')
}

/// A script: what it sets up, and its steps in order.
pub struct Script {
    pub setup: Setup,
    pub steps: Vec<Step>,
}

impl Drop for Script {
    fn drop(self) {
        let Script {
            setup: _setup,
            steps: _steps,
        } = self;
    }
}

/// The fault of the script in a file: what else that is, if it is a source.
fn fault_in(alloc: Global, path: &str, text: &str, fault: Fault) -> Fault {
    let kind = kind_of(text.as_bytes());
    match (kind, &fault) {
        (FileKind::Source | FileKind::C, Fault::Refused { refusal, .. }) => {
            kind_fault(alloc, *refusal, path, kind)
        }
        _ => fault.at(alloc, path),
    }
}

impl Script {
    /// Adds the step of a line that is no set-up line, if it has a form.
    fn read_step(&mut self, alloc: Global, name: &str, words: &[&str]) -> Result<bool, AllocError> {
        match step_of(alloc, name, words)? {
            Some(step) => {
                self.steps.push(step)?;
                Ok(true)
            }
            None => Ok(false),
        }
    }

    /// Adds the line of these words, if it has a form and may stand here.
    fn read_words(&mut self, alloc: Global, words: &[&str]) -> Result<bool, AllocError> {
        let [name, rest @ ..] = words else {
            return Ok(false);
        };
        match SetupLine::named(name) {
            None => self.read_step(alloc, name, rest),
            Some(line) if self.steps.is_empty() => self.setup.add(alloc, line, rest),
            Some(_) => Ok(false),
        }
    }

    /// Reads a line, and adds it, if it has a form and may stand here. Words are parted by one space each. An empty line, and one
    /// that begins with `#`, adds nothing.
    fn read(&mut self, alloc: Global, text: &str) -> Result<bool, AllocError> {
        if is_skipped(text) {
            return Ok(true);
        }
        let words: Vec<&str> = text.split(' ').collect(alloc)?;
        self.read_words(alloc, words.as_slice())
    }

    fn read_lines(&mut self, alloc: Global, text: &str) -> Result<(), Fault> {
        let mut line = 0usize;
        for text in text.split('\n') {
            line = line.saturating_add(1);
            if !self.read(alloc, text)? {
                return Err(Fault::of_line(alloc, Refusal::Script { line }, text));
            }
        }
        Ok(())
    }

    /// What it sets up, and its steps.
    pub fn into_parts(self) -> (Setup, Vec<Step>) {
        let Script { setup, steps } = self;
        (setup, steps)
    }

    /// Reads a script whole. Refused is the first line of these:
    /// - it has no form;
    /// - it is a set-up line (`program`, `image`, `binary`, `tape` or `file`) after a line that is none;
    /// - it is a ninth `program`, `image` or `binary` line, a 33rd `file` line, or a second line for one tape or one name of a file.
    ///
    /// Lines are counted from 1 and end at a line feed; empty ones and those that begin with `#` are skipped. A script without a
    /// `program`, an `image` or a `binary` line is refused when it is booted.
    pub fn parse(alloc: Global, text: &str) -> Result<Script, Fault> {
        let mut script = Script {
            setup: Setup::new(alloc),
            steps: Vec::new(alloc),
        };
        script.read_lines(alloc, text)?;
        Ok(script)
    }

    /// The script in the file at a path, which has this text.
    pub fn of_file(alloc: Global, path: &str, text: &str) -> Result<Script, Fault> {
        if text.is_empty() {
            return Err(kind_fault(alloc, Refusal::NoProgram, path, FileKind::Empty));
        }
        match Script::parse(alloc, text) {
            Ok(script) => Ok(script),
            Err(fault) => Err(fault_in(alloc, path, text, fault)),
        }
    }
}

//! A source's lines and labels.
ghost use Rattle.std.specs.Prelude.{◌≡◌, ◌-◌, [], get_or, IfOk};
ghost use Rattle.source_checks.specs.Lines.{lines_of, texts};

use crate::nearest::near;
use crate::place::{first_of, label_of, name_of, without_comment};
use std::alloc::{AllocError, Global};

/// The lines of a source, and its labels in their order, each with the number of its line.
#[derive(Drop)]
pub struct Source<'a> {
    pub text: &'a str,
    lines: Vec<&'a str>,
    labels: Vec<&'a str>,
    numbers: Vec<usize>,
}

/// The lines of a text: what stands between its line feeds.
fn lines_of<'a>(alloc: Global, text: &'a str) -> Result<Vec<&'a str>, AllocError>
    ensures { IfOk result (λ lines. texts lines.items ≡ lines_of text.now) }
{
    text.split('\n').collect(alloc)
}

impl<'a> Source<'a> {
    pub fn of(alloc: Global, text: &'a str) -> Result<Source<'a>, AllocError>
        ensures { IfOk result (λ source. texts source.lines.items ≡ lines_of text.now) }
    {
        let lines = lines_of(alloc, text)?;
        let mut labels = Vec::new(alloc);
        let mut numbers = Vec::new(alloc);
        for (before, line) in lines.iter().enumerate() {
            if let (Some(name), _) = label_of(line) {
                labels.push(name)?;
                numbers.push(before.saturating_add(1))?;
            }
        }
        Ok(Source {
            text,
            lines,
            labels,
            numbers,
        })
    }

    /// The line of this number, from 1. Empty where there is none.
    pub fn line(&self, number: usize) -> &'a str
        ensures { result.now ≡ get_or (texts self.now.lines.items) (number - 1) [] }
    {
        self.lines
            .get(number.saturating_sub(1))
            .copied()
            .unwrap_or("")
    }

    /// The number of the first line that has this label.
    pub fn line_of(&self, name: &str) -> Option<usize> {
        let at = self.labels.iter().position(|label| *label == name)?;
        self.numbers.get(at).copied()
    }

    pub fn has(&self, name: &str) -> bool {
        self.line_of(name).is_some()
    }

    /// The label that is nearly this name, if there is one.
    pub fn near(&self, alloc: Global, name: &str) -> Result<Option<&'a str>, AllocError> {
        near(alloc, name, self.labels.as_slice())
    }

    /// The number that a directive of another assembler gives a name, and the number of its line.
    pub fn named_number(&self, name: &str) -> Option<(usize, &'a str)> {
        for (before, line) in self.lines.iter().enumerate() {
            let (directive, after) = name_of(label_of(without_comment(line)).1);
            let (named, number) = first_of(after.trim_start());
            if named == name && matches!(directive, ".equ" | ".eqv" | ".set" | ".equiv") {
                let number = number.trim_start().trim_start_matches(',').trim_ascii();
                return Some((before.saturating_add(1), number));
            }
        }
        None
    }

    /// The first label.
    pub fn first(&self) -> Option<&'a str> {
        self.labels.first().copied()
    }
}

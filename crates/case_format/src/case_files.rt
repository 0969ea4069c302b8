//! Files of cases, of every notation: how a case is named, and that nothing of a file is left unread.
//!
//! A file begins with comments, lines that begin with `#`. Each case begins with a line `== TITLE`. A word names all cases of a
//! file, as `pipes.calls`, or one of them by its title, as `pipes.calls:a pipe in one process`.
//!
//! No number says how many cases a file has. In its place all of a file has to be read. Refused are:
//! - a file without a case, and a case without lines;
//! - another line than a comment before the first case;
//! - a line that begins with `==` and has no title after one blank, and a title that stands twice.
use crate::lines::refused;
use anyhow::{Error, bail};
use std::alloc::{AllocError, Global};
use std::io;

/// A case: its title, and the lines after it.
#[derive(Clone, Copy)]
pub struct Case<'a> {
    pub title: &'a str,
    pub lines: &'a str,
}

impl<'a> Case<'a> {
    /// The case of a text that begins with its title.
    fn of(text: &'a str) -> Case<'a> {
        let (title, lines) = text.split_once('\n').unwrap_or((text, ""));
        Case { title, lines }
    }

    /// Refuses a case whose title is empty, one of whose lines may be meant as a title, or none of whose lines says what is done.
    fn check(&self) -> Result<(), Error> {
        if self.title.is_empty() || self.title.trim() != self.title {
            return Err(refused("no title: ==", self.title));
        }
        for line in self.lines.lines() {
            if line.trim_start().starts_with("==") {
                return Err(refused("no title after one blank: ", line));
            }
        }
        if self.lines.lines().all(is_unread) {
            return Err(refused("a case without lines: ", self.title));
        }
        Ok(())
    }
}

/// Whether a line is a comment, or empty.
fn is_unread(line: &str) -> bool {
    line.starts_with('#') || line.trim().is_empty()
}

fn check_head(head: &str) -> Result<(), Error> {
    for line in head.lines() {
        if !is_unread(line) {
            return Err(refused("no comment, and before the first case: ", line));
        }
    }
    Ok(())
}

/// The case of this title, if there is one.
fn find<'a>(cases: &[Case<'a>], title: &str) -> Option<Case<'a>> {
    for case in cases {
        if case.title == title {
            return Some(*case);
        }
    }
    None
}

/// The cases of a file's text, in order.
fn cases_of(alloc: Global, text: &str) -> Result<Vec<Case<'_>>, Error> {
    let mut cases: Vec<Case<'_>> = Vec::new(alloc);
    let mut parts = text.split("\n== ");
    check_head(parts.next().unwrap_or(""))?;
    for part in parts {
        let case = Case::of(part);
        case.check()?;
        if find(cases.as_slice(), case.title).is_some() {
            return Err(refused("this title stands twice: ", case.title));
        }
        cases.push(case)?;
    }
    if cases.is_empty() {
        bail!("there is no case");
    }
    Ok(cases)
}

/// Whether this text stands in the title of a case.
fn is_near(cases: &[Case<'_>], text: &str) -> bool {
    for case in cases {
        if case.title.contains(text) {
            return true;
        }
    }
    false
}

/// Lists the cases of a file on standard error, by the words that name them.
fn list_cases<R: Eprint>(rt: &R, file: &str, cases: &[Case<'_>], text: &str) -> io::Result<()> {
    for case in cases {
        let title = case.title;
        if title.contains(text) {
            eprintln!(rt; "{file}:{title}")?;
        }
    }
    Ok(())
}

/// What a word names: a file of cases, and one of its cases by its title, or all.
#[derive(Clone, Copy)]
pub struct Choice<'a> {
    pub file: &'a str,
    title: Option<&'a str>,
}

impl<'a> Choice<'a> {
    /// What a word names, as `FILE` or `FILE:TITLE`.
    pub fn of(word: &'a str) -> Choice<'a> {
        match word.split_once(':') {
            Some((file, title)) => Choice {
                file,
                title: Some(title),
            },
            None => Choice {
                file: word,
                title: None,
            },
        }
    }

    /// The chosen cases of a file's text, at least one. Where no case has the title, standard error lists the cases in whose titles
    /// it stands, or else all.
    pub fn cases<'t, R: AllocGlobal + Eprint>(
        &self,
        rt: &R,
        text: &'t str,
    ) -> Result<Vec<Case<'t>>, Error> {
        let cases = cases_of(rt.alloc(), text)?;
        let Some(title) = self.title else {
            return Ok(cases);
        };
        if let Some(case) = find(cases.as_slice(), title) {
            return Ok(vec![in rt.alloc(); case]?);
        }
        let near = if is_near(cases.as_slice(), title) {
            title
        } else {
            ""
        };
        list_cases(rt, self.file, cases.as_slice(), near)?;
        bail!("no case has this title; those above have others")
    }

    /// The line that is printed where no chosen case failed. Refused where some did.
    pub fn outcome(&self, alloc: Global, failed: usize) -> Result<String, Error> {
        if failed > 0 {
            bail!("{failed} of its cases failed");
        }
        Ok(self.passed(alloc)?)
    }

    fn passed(&self, alloc: Global) -> Result<String, AllocError> {
        let file = self.file;
        match self.title {
            Some(title) => format!(in alloc; "{file}:{title}: it passes"),
            None => format!(in alloc; "{file}: all cases pass"),
        }
    }
}

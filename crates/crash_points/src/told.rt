//! `Told`: what is told of files that a crash may leave, beside when it came.
use crate::point::Telling;
use crash_lists::{Enumeration, FileMoments, Listed};
use std::alloc::{AllocError, Global};

/// A list of files that a crash may leave, among those of its window, of which each change does what is said.
#[derive(Clone, Copy)]
pub struct ListedChanges<'a> {
    pub deeds: &'a [String],
    pub lists: &'a Enumeration<'a>,
    pub listed: &'a Listed,
}

/// What is told of files that a crash may leave, beside when it came.
#[derive(Clone, Copy)]
pub struct Told<'a> {
    /// Of an order, which processes made calls, in their order.
    pub calls: Option<&'a [u32]>,
    /// By another rule than bench's, which changes are there.
    pub changes: Option<ListedChanges<'a>>,
}

/// Appends which processes made calls, in their order.
fn push_calls(text: &mut String, calls: &[u32]) -> Result<(), AllocError> {
    text.push_str("calls of processes")?;
    for pid in calls {
        write!(text, " {pid}")?;
    }
    text.push_str("\n")
}

impl ListedChanges<'_> {
    /// Appends a line for each change: its number since the sync, what it does, and how much of it is there by these moments.
    fn push_lines(
        &self,
        alloc: Global,
        moments: &[FileMoments],
        text: &mut String,
    ) -> Result<(), AllocError> {
        for (change, deed) in self.deeds.iter().enumerate() {
            let number = change.saturating_add(1);
            let there = self.lists.on_disk(alloc, self.listed, moments, change)?;
            writeln!(text, "change {number} {deed}: {there}")?;
        }
        Ok(())
    }

    /// Appends which changes are there, as one line and change by change; nothing where the list has no moments.
    fn push(&self, alloc: Global, telling: &mut Telling) -> Result<(), AllocError> {
        let Some(moments) = self.lists.moments(alloc, self.listed)? else {
            return Ok(());
        };
        let told = self.lists.told(alloc, self.listed, moments.as_slice())?;
        writeln!(telling.summary, "{told}")?;
        self.push_lines(alloc, moments.as_slice(), &mut telling.changes)
    }
}

impl Told<'_> {
    /// Nothing more.
    pub fn nothing() -> Told<'static> {
        Told {
            calls: None,
            changes: None,
        }
    }

    /// Adds it in words.
    fn push(self, alloc: Global, telling: &mut Telling) -> Result<(), AllocError> {
        if let Some(calls) = self.calls {
            push_calls(&mut telling.summary, calls)?;
        }
        match self.changes {
            Some(changes) => changes.push(alloc, telling),
            None => Ok(()),
        }
    }

    /// The same in words.
    pub fn telling(self, alloc: Global) -> Result<Telling, AllocError> {
        let mut telling = Telling::none(alloc);
        self.push(alloc, &mut telling)?;
        Ok(telling)
    }
}

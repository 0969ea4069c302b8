//! `ChangeOnDisk`: how much of a change a disk has.
ghost use Rattle.std.specs.Prelude.{◌≡◌};
ghost use Rattle.std.specs.List.{list_all, list_any};
ghost use Rattle.crash_lists.specs.Presences.{has_part, presence_of};

use std::fmt;

/// How much of a change a disk has.
#[derive(Clone, Copy, PartialEq, Eq)]
pub enum Presence {
    There,
    NotThere,
    InPart,
}

/// What a change changes in a cell.
#[derive(Clone, Copy)]
pub enum Part {
    /// A name, or both of a renaming.
    Names,
    Length,
    /// Bytes of one cell, from the first that changes to the last.
    Bytes { first: usize, last: usize },
}

/// A part of a change, and as at which moment a disk has the cell.
#[derive(Clone, Copy)]
pub struct PartOnDisk {
    pub part: Part,
    pub moment: usize,
}

/// The change after a moment, part by part, on a disk. It prints as how much of it is there.
#[derive(Drop)]
pub struct ChangeOnDisk {
    pub change: usize,
    pub parts: Vec<PartOnDisk>,
}

/// Whether a disk has a part of a change.
fn has_part(change: usize, part: &PartOnDisk) -> bool
    ensures { result ≡ has_part change part.now }
{
    change < part.moment
}

/// Whether a disk has each part of a change.
fn has_all(change: usize, parts: &[PartOnDisk]) -> bool
    ensures { result ≡ list_all (has_part change) parts.now }
{
    parts.iter().all(|part| has_part(change, part))
}

/// Whether a disk has some part of a change.
fn has_some(change: usize, parts: &[PartOnDisk]) -> bool
    ensures { result ≡ list_any (has_part change) parts.now }
{
    parts.iter().any(|part| has_part(change, part))
}

/// How much a disk has of the change after a moment, by its parts.
fn presence_of(change: usize, parts: &[PartOnDisk]) -> Presence
    ensures { result ≡ presence_of change parts.now }
{
    if has_all(change, parts) {
        Presence::There
    } else if has_some(change, parts) {
        Presence::InPart
    } else {
        Presence::NotThere
    }
}

impl fmt::Display for Part {
    fn fmt<W: fmt::Write>(&self, f: &mut fmt::Formatter<W>) -> fmt::Result {
        match *self {
            Part::Names => write!(f, "the name"),
            Part::Length => write!(f, "the length"),
            Part::Bytes { first, last } if first == last => write!(f, "byte {first}"),
            Part::Bytes { first, last } => write!(f, "bytes {first} to {last}"),
        }
    }
}

impl ChangeOnDisk {
    /// Prints the parts that are there, or those that are not, after a word.
    fn write_parts<W: fmt::Write>(
        &self,
        f: &mut fmt::Formatter<W>,
        word: &str,
        there: bool,
    ) -> fmt::Result {
        let mut before = word;
        for it in &self.parts {
            if has_part(self.change, it) == there {
                let part = it.part;
                write!(f, "{before} {part}")?;
                before = ",";
            }
        }
        Ok(())
    }
}

impl fmt::Display for ChangeOnDisk {
    fn fmt<W: fmt::Write>(&self, f: &mut fmt::Formatter<W>) -> fmt::Result {
        match presence_of(self.change, self.parts.as_slice()) {
            Presence::There => write!(f, "there"),
            Presence::NotThere => write!(f, "not there"),
            Presence::InPart => {
                self.write_parts(f, "in part, with", true)?;
                self.write_parts(f, ", without", false)
            }
        }
    }
}

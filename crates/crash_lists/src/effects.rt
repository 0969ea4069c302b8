//! Which cells each change of a window changes.
ghost use Rattle.std.specs.Prelude.{◌≡◌, ◌<◌, IfNone, IfSome, slice_index};
ghost use Rattle.crash_lists.specs.Effects.{AreSame, Differs, IsChangeOf, IsFirstChange, IsLastChange};

use crate::directories::edits_of;
use crate::presence::Part;
use crate::window::{CELL, Window};
use files::FileTable;
use std::alloc::{AllocError, Global};

/// A file whose length or bytes a change changes, and which parts of them.
#[derive(Drop)]
pub struct FileEffect {
    pub number: u64,
    pub parts: Vec<Part>,
}

/// What a change changes.
#[derive(Drop)]
pub struct Effect {
    /// Of the names that it changes the first, if it changes some.
    pub name: Option<Vec<u8>>,
    /// The number of the file that has no name any more, if there is one.
    pub gone: Option<u64>,
    pub file: Option<FileEffect>,
}

/// The byte at a place; 0 past the end.
fn byte_at(bytes: &[u8], place: usize) -> u8
    ensures { result ≡ slice_index bytes.now place }
{
    bytes.get(place).copied().unwrap_or(0)
}

/// The first place, from one on and up to another, at which bytes differ.
pub fn first_change(before: &[u8], after: &[u8], begin: usize, end: usize) -> Option<usize>
    ensures none { IfNone result (AreSame before.now after.now begin end) }
    ensures some { IfSome result (IsFirstChange before.now after.now begin end) }
{
    for place in begin..end {
        if byte_at(before, place) != byte_at(after, place) {
            return Some(place);
        }
    }
    None
}

/// The last place, from one on at which bytes differ and up to another, at which they do.
fn last_change(before: &[u8], after: &[u8], first: usize, end: usize) -> usize
    requires within { first < end }
    requires differs { Differs before.now after.now first }
    ensures { IsLastChange before.now after.now first end result }
{
    let mut last = first;
    for place in first..end {
        if byte_at(before, place) != byte_at(after, place) {
            last = place;
        }
    }
    last
}

/// The bytes from a place on, up to another, that are not the same before a change and after it. None where all are.
fn changed_bytes(before: &[u8], after: &[u8], begin: usize, end: usize) -> Option<Part>
    ensures none { IfNone result (AreSame before.now after.now begin end) }
    ensures some { IfSome result (IsChangeOf before.now after.now begin end) }
{
    match first_change(before, after, begin, end) {
        Some(first) => {
            let last = last_change(before, after, first, end);
            Some(Part::Bytes { first, last })
        }
        None => None,
    }
}

/// The parts of a file that are not the same before a change and after it.
fn parts_of(alloc: Global, before: &[u8], after: &[u8]) -> Result<Vec<Part>, AllocError> {
    let mut parts = Vec::new(alloc);
    if before.len() != after.len() {
        parts.push(Part::Length)?;
    }
    for cell in 0..before.len().max(after.len()).div_ceil(CELL) {
        let begin = cell.saturating_mul(CELL);
        if let Some(part) = changed_bytes(before, after, begin, begin.saturating_add(CELL)) {
            parts.push(part)?;
        }
    }
    Ok(parts)
}

/// The first of the names that a change changes, if it changes some.
fn name_of(
    alloc: Global,
    before: &FileTable,
    after: &FileTable,
) -> Result<Option<Vec<u8>>, AllocError> {
    let edits = edits_of(alloc, before, after)?;
    match edits.first() {
        Some(edit) => Ok(Some(Vec::from_slice(alloc, edit.name.as_slice())?)),
        None => Ok(None),
    }
}

/// The number of a file that lives before a change and not after it.
fn gone_of(before: &FileTable, after: &FileTable) -> Option<u64> {
    for place in 0..before.count() {
        let number = before.number(place);
        if !after.alive(number) {
            return Some(number);
        }
    }
    None
}

/// The file that lives before a change and after it, and is not the same.
fn file_of(
    alloc: Global,
    before: &FileTable,
    after: &FileTable,
) -> Result<Option<FileEffect>, AllocError> {
    for place in 0..before.count() {
        let number = before.number(place);
        if let Some(next) = after.place(number) {
            let parts = parts_of(alloc, before.bytes(place), after.bytes(next))?;
            if !parts.is_empty() {
                return Ok(Some(FileEffect { number, parts }));
            }
        }
    }
    Ok(None)
}

/// What each change of a window changes.
pub fn effects_of(alloc: Global, window: &Window) -> Result<Vec<Effect>, AllocError> {
    let mut effects = Vec::new(alloc);
    for change in 0..window.changes() {
        let next = change.saturating_add(1);
        if let (Some(before), Some(after)) = (window.files_at(change), window.files_at(next)) {
            effects.push(Effect {
                name: name_of(alloc, before, after)?,
                gone: gone_of(before, after),
                file: file_of(alloc, before, after)?,
            })?;
        }
    }
    Ok(effects)
}

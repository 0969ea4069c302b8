//! What each change of a window does to files, in words.
ghost use Rattle.std.specs.Prelude.{◌<◌, IfSome, length};

use crash_lists::Window;
use files::FileTable;
use std::alloc::{AllocError, Global};

/// The places from the first to the last at which bytes are not the same.
#[derive(Clone, Copy)]
struct Stretch {
    first: usize,
    last: usize,
}

/// Where bytes are not the same; None where all are. Past an end there are none.
fn stretch_of(before: &[u8], after: &[u8]) -> Option<Stretch> {
    let mut stretch: Option<Stretch> = None;
    for place in 0..before.len().max(after.len()) {
        if before.get(place) != after.get(place) {
            stretch = Some(Stretch {
                first: stretch.map_or(place, |stretch| stretch.first),
                last: place,
            });
        }
    }
    stretch
}

/// What is said of a name.
fn named(alloc: Global, does: &str, name: &[u8]) -> Result<String, AllocError> {
    let name = String::from_utf8_lossy(alloc, name)?;
    format!(in alloc; "{does} {name}")
}

/// What is done to the bytes of a file; None where they stay as they were.
fn bytes_deed(
    alloc: Global,
    name: &[u8],
    before: &[u8],
    after: &[u8],
) -> Result<Option<String>, AllocError> {
    let Some(Stretch { first, last }) = stretch_of(before, after) else {
        return Ok(None);
    };
    if after.is_empty() {
        return Ok(Some(named(alloc, "empties", name)?));
    }
    let count = last.saturating_sub(first).saturating_add(1);
    let name = String::from_utf8_lossy(alloc, name)?;
    let unit = if count == 1 { "byte" } else { "bytes" };
    Ok(Some(format!(in alloc; "writes {count} {unit} to {name} at {first}")?))
}

/// What is done to the bytes of the first file that does not have the same.
fn write_deed(alloc: Global, before: &FileTable, after: &FileTable) -> Result<String, AllocError> {
    for place in 0..before.count() {
        if let Some(next) = after.place(before.number(place)) {
            let (old, new) = (before.bytes(place), after.bytes(next));
            if let Some(deed) = bytes_deed(alloc, before.name(place), old, new)? {
                return Ok(deed);
            }
        }
    }
    String::from_str(alloc, "changes nothing")
}

/// The place of the first file whose name no other one has.
fn first_without(files: &FileTable, others: &FileTable) -> Option<usize>
    ensures { IfSome result (λ place. place < length files.now.living) }
{
    for place in 0..files.count() {
        if others.find(files.name(place)).is_none() {
            return Some(place);
        }
    }
    None
}

/// What is done to the file at a place, whose name is gone after it: the file has another one, or is gone too.
fn leaving_deed(
    alloc: Global,
    before: &FileTable,
    after: &FileTable,
    place: usize,
) -> Result<String, AllocError>
    requires { place < length before.now.living }
{
    match after.place(before.number(place)) {
        Some(next) => {
            let mut deed = named(alloc, "renames", before.name(place))?;
            let name = String::from_utf8_lossy(alloc, after.name(next))?;
            write!(deed, " to {name}")?;
            Ok(deed)
        }
        None => named(alloc, "removes", before.name(place)),
    }
}

/// What a change does that leads from some files to others.
fn deed_of(alloc: Global, before: &FileTable, after: &FileTable) -> Result<String, AllocError> {
    if let Some(place) = first_without(before, after) {
        return leaving_deed(alloc, before, after, place);
    }
    match first_without(after, before) {
        Some(place) => named(alloc, "makes", after.name(place)),
        None => write_deed(alloc, before, after),
    }
}

/// What each change of a window does.
pub fn deeds_of(alloc: Global, window: &Window) -> Result<Vec<String>, AllocError> {
    let mut deeds = Vec::new(alloc);
    for change in 0..window.changes() {
        let next = change.saturating_add(1);
        if let (Some(before), Some(after)) = (window.files_at(change), window.files_at(next)) {
            deeds.push(deed_of(alloc, before, after)?)?;
        }
    }
    Ok(deeds)
}

//! Reading the records of a half, as recovery does. Each change is tested before it is done: BadChange where it is not possible.
ghost use Rattle.std.specs.Prelude.{◌≡◌, ◌<◌, [], length, slice_get, option_map, None, IsOk};
ghost use Rattle.disk_model.specs.declared.change.Change.TheVariants.{Create, Write, Empty, Remove, Rename};
ghost use Rattle.journal.specs.Reading.{is_unnamed, is_called, Gives, GivesNew, GivesBoth, step_at, all_changed, record_at, records_at, opened};

use crate::fault::DiskFault;
use crate::reading::{body_in, read_changes};
use byte_list::Bytes;
use disk_model::{Change, LONGEST_FILE, MOST_FILES};
use files::FileList;
use std::alloc::Global;

#[tactic(auto, unfolding(crate::specs::Reading::is_unnamed))]
fn is_unnamed(files: &FileList, name: &[u8]) -> bool
    ensures { result ≡ is_unnamed files.now name.now }
{
    files.find(name).is_none()
}

fn is_called(files: &FileList, place: usize, name: &[u8]) -> bool
    requires { place < length files.now }
    ensures { result ≡ is_called (slice_get files.now place) name.now }
{
    files.name(place) == name
}

/// Creates a file of this name, where none has it and there is room for one.
fn create_file(alloc: Global, files: &mut FileList, name: &Bytes) -> Result<(), DiskFault>
    ensures { GivesNew result files.new (step_at files.old (Create name.now)) }
{
    if !is_unnamed(files, name.as_slice()) || files.count() >= MOST_FILES {
        return Err(DiskFault::BadChange);
    }
    Ok(files.create(name.try_clone(alloc)?)?)
}

/// Writes bytes into the file at a place, where there is one and it gets no longer than a file may be.
fn write_file(files: &mut FileList, place: u16, offset: u32, bytes: &[u8]) -> Result<(), DiskFault>
    ensures { GivesNew result files.new (step_at files.old (Write place offset bytes.now)) }
{
    let place = place as usize;
    let offset = offset as usize;
    if place >= files.count() || offset + bytes.len() > LONGEST_FILE as usize {
        return Err(DiskFault::BadChange);
    }
    Ok(files.write(place, offset, bytes)?)
}

fn empty_file(files: &mut FileList, place: u16) -> Result<(), DiskFault>
    ensures { GivesNew result files.new (step_at files.old (Empty place)) }
{
    let place = place as usize;
    if place >= files.count() {
        return Err(DiskFault::BadChange);
    }
    files.empty(place);
    Ok(())
}

fn remove_file(files: &mut FileList, place: u16) -> Result<(), DiskFault>
    ensures { GivesNew result files.new (step_at files.old (Remove place)) }
{
    let place = place as usize;
    if place >= files.count() {
        return Err(DiskFault::BadChange);
    }
    files.remove(place);
    Ok(())
}

/// Gives the file at a place this name, where there is one and it has another name.
fn rename_file(
    alloc: Global,
    files: &mut FileList,
    place: u16,
    name: &Bytes,
) -> Result<(), DiskFault>
    ensures { GivesNew result files.new (step_at files.old (Rename place name.now)) }
{
    let place = place as usize;
    if place >= files.count() || is_called(files, place, name.as_slice()) {
        return Err(DiskFault::BadChange);
    }
    files.rename(place, name.try_clone(alloc)?);
    Ok(())
}

fn apply(alloc: Global, files: &mut FileList, change: &Change) -> Result<(), DiskFault>
    ensures { GivesNew result files.new (step_at files.old change.now) }
{
    match change {
        Change::Create(name) => create_file(alloc, files, name),
        Change::Write {
            file,
            offset,
            bytes,
        } => write_file(files, *file, *offset, bytes.as_slice()),
        Change::Empty(file) => empty_file(files, *file),
        Change::Remove(file) => remove_file(files, *file),
        Change::Rename { file, name } => rename_file(alloc, files, *file, name),
    }
}

/// Does these changes in order, up to the first that is not possible.
#[tactic(auto, unfolding(crate::specs::Reading::all_changed))]
fn apply_all(alloc: Global, files: &mut FileList, changes: &[Change]) -> Result<(), DiskFault>
    ensures { GivesNew result files.new (all_changed files.old changes.now) }
{
    for change in changes {
        apply(alloc, files, change)?;
    }
    Ok(())
}

/// Does the changes of the record whose gate lies before these bytes. Gives the rest from the next gate on.
#[tactic(auto, unfolding(crate::specs::Reading::record_at))]
fn record_of<'a>(
    alloc: Global,
    files: &mut FileList,
    bytes: &'a [u8],
) -> Result<&'a [u8], DiskFault>
    ensures { GivesBoth (λ x. x.now) result files.new (record_at files.old bytes.now) }
{
    let (body, after) = body_in(bytes)?;
    let changes = read_changes(alloc, body)?;
    apply_all(alloc, files, &changes)?;
    Ok(after)
}

/// What follows the gate, where it is open.
fn after_open_gate(rest: &[u8]) -> Option<&[u8]>
    ensures { option_map (λ x. x.now) result ≡ opened rest.now }
{
    match rest {
        [] => None,
        [gate, bytes @ ..] => { if *gate == 1 { Some(bytes) } else { None } }
    }
}

/// The files that the records of a half make, and what is left of it from the first gate on that is not open.
pub fn records_of(alloc: Global, half: &[u8]) -> Result<(FileList, &[u8]), DiskFault>
    ensures exact { Gives (λ x. (x.0, x.1.now)) result (records_at (length half.now) [] half.now) }
    ensures closed { opened half.now ≡ None → IsOk result }
{
    let mut files = FileList::new(alloc);
    let mut rest = half;
    for _ in 0..half.len() {
        let Some(bytes) = after_open_gate(rest) else {
            return Ok((files, rest));
        };
        rest = record_of(alloc, &mut files, bytes)?;
    }
    Ok((files, rest))
}

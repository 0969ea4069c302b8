//! The changes by which a file gets other bytes.
ghost use Rattle.std.specs.Prelude.{◌≡◌, ◌≤◌, ◌<◌, ◌+◌, ◌^◌, ℕ, true, List, [], length, slice_get, OnOk, IfOk, IfSome};
ghost use Rattle.disk_model.specs.declared.change.Change.TheVariants.{Create, Write};
ghost use Rattle.disk_model.specs.declared.change.NamedFile.{NamedFile};
ghost use Rattle.disk_model.specs.Files.{IsFormed, IsMade, IsName, MayCome, changed, with_bytes};
ghost use Rattle.disk_files.specs.Putting.{Makes, with_file};

use byte_list::Bytes;
use disk_model::{Change, LONGEST_FILE, LONGEST_FILE_WRITE, MOST_FILES, checkpoints_fit};
use faults::{Fault, Refusal};
use files::{FileList, part_of};
use std::alloc::{AllocError, Global};

/// Does a change that is possible, and notes it.
#[tactic(auto, using(crate::proofs::Changes::makes_more))]
fn make(changes: &mut Vec<Change>, files: &mut FileList, change: Change) -> Result<(), AllocError>
    requires formed { IsFormed change }
    requires possible { MayCome files.old change }
    ensures makes { (first : List NamedFile) → Makes first files.old changes.old.items → OnOk result (Makes first files.new changes.new.items) }
    ensures done { OnOk result (files.new ≡ changed files.old change) }
    ensures counted { OnOk result (length changes.new.items ≡ length changes.old.items + 1) }
{
    files.change(&change)?;
    changes.push(change)?;
    Ok(())
}

/// Whether a file of this name may be made.
#[tactic(auto, using(crate::proofs::Unnamed::unnamed))]
fn may_create(files: &FileList, name: &[u8]) -> bool
    ensures { result ≡ true → MayCome files.now (Create name.now) }
{
    match files.find(name) {
        None => files.count() < MOST_FILES,
        Some(_) => false,
    }
}

/// The place of a file, as a change names it.
fn two_bytes(place: usize) -> u16
    requires { place < 2 ^ 16 }
    ensures { result ≡ place }
{
    place as u16
}

/// Makes a file of this name, or empties the file that has it. Gives its place.
fn begin(
    alloc: Global,
    changes: &mut Vec<Change>,
    files: &mut FileList,
    name: &[u8],
) -> Result<u16, Fault>
    requires name { IsName name.now }
    requires made { IsMade files.old }
    ensures makes { (first : List NamedFile) → Makes first files.old changes.old.items → IfOk result (λ _. Makes first files.new changes.new.items) }
    ensures empty { IfOk result (λ file. IfSome (slice_get files.new file) (λ (f : NamedFile). f.bytes ≡ [])) }
    ensures file { IfOk result (λ file. (bytes : List ℕ) → with_bytes files.new file (slice_get files.new file) (λ _. bytes) ≡ with_file files.old name.now bytes) }
    ensures counted { IfOk result (λ _. length changes.new.items ≡ length changes.old.items + 1) }
{
    checkpoints_fit();
    if let Some(place) = files.find(name) {
        let file = two_bytes(place);
        make(changes, files, Change::Empty(file))?;
        return Ok(file);
    }
    if !may_create(files, name) {
        return Err(Fault::from(Refusal::TooMany));
    }
    let file = two_bytes(files.count());
    make(changes, files, Change::Create(Bytes::copy_of(alloc, name)?))?;
    Ok(file)
}

/// Whether these bytes may be written at an offset of the file at a place.
fn may_write(files: &FileList, file: u16, offset: u32, bytes: &[u8]) -> bool
    ensures formed { result ≡ true → IsFormed (Write file offset bytes.now) }
    ensures possible { result ≡ true → MayCome files.now (Write file offset bytes.now) }
{
    let end = u64::from(offset) + bytes.len() as u64;
    usize::from(file) < files.count()
        && !bytes.is_empty()
        && bytes.len() <= LONGEST_FILE_WRITE as usize
        && end <= u64::from(LONGEST_FILE)
}

/// Writes bytes into an empty file. TooLong where it would get longer than a file may be.
fn write(
    alloc: Global,
    changes: &mut Vec<Change>,
    files: &mut FileList,
    file: u16,
    bytes: &[u8],
) -> Result<(), Fault>
    requires empty { IfSome (slice_get files.old file) (λ (f : NamedFile). f.bytes ≡ []) }
    ensures makes { (first : List NamedFile) → Makes first files.old changes.old.items → OnOk result (Makes first files.new changes.new.items) }
    ensures written { OnOk result (files.new ≡ with_bytes files.old file (slice_get files.old file) (λ _. bytes.now)) }
    ensures counted { OnOk result (length changes.new.items ≤ length changes.old.items + 16) }
{
    let mut offset = 0u32;
    while (offset as usize) < bytes.len() {
        let part = part_of(bytes, offset as usize, LONGEST_FILE_WRITE as usize);
        if !may_write(files, file, offset, part) {
            return Err(Fault::from(Refusal::TooLong));
        }
        let written = Bytes::copy_of(alloc, part)?;
        make(
            changes,
            files,
            Change::Write {
                file,
                offset,
                bytes: written,
            },
        )?;
        offset += LONGEST_FILE_WRITE;
    }
    Ok(())
}

/// The changes by which the file of a name has these bytes, whether it is there or not. They are done to the files.
pub fn changes_putting(
    alloc: Global,
    files: &mut FileList,
    name: &[u8],
    bytes: &[u8],
) -> Result<Vec<Change>, Fault>
    requires name { IsName name.now }
    requires made { IsMade files.old }
    ensures makes { IfOk result (λ changes. Makes files.old files.new changes.items) }
    ensures file { IfOk result (λ _. files.new ≡ with_file files.old name.now bytes.now) }
    ensures few { IfOk result (λ changes. length changes.items ≤ 64) }
{
    let mut changes = Vec::new(alloc);
    let file = begin(alloc, &mut changes, files, name)?;
    write(alloc, &mut changes, files, file, bytes)?;
    Ok(changes)
}

//! Files by their places, which changes fold into.
ghost use Rattle.std.specs.Prelude.{IfOk, IfSome, List, ◌≡◌, ◌<◌, ◌≤◌, ◌+◌, ℕ, OnOk, OnErr, IsOk, length, slice_get, slice_index_or, take, drop, option_map, []};
ghost use Rattle.disk_model.specs.declared.change.NamedFile.{NamedFile};
ghost use Rattle.disk_model.specs.declared.change.Change.TheVariants.{Create, Write, Empty, Remove, Rename};
ghost use Rattle.disk_model.specs.Files.{changed, loser, patched, place_named};
ghost use Rattle.files.specs.There.{has_its_file};

use byte_list::Bytes;
use disk_model::{Change, NamedFile};
use std::alloc::{AllocError, Global};
use std::marker::Model;

/// The files that live, in order of creation. A change names a file by its place here, from 0. The list has no limits of its own:
/// its caller keeps the number, the sizes and the names of the files within theirs.
pub struct FileList {
    alloc: Global,
    files: Vec<NamedFile>,
}

impl Drop for FileList {
    fn drop(self) {
        let FileList {
            alloc: _,
            files: _files,
        } = self;
    }
}

impl Model for FileList {
    ghost use Rattle.std.specs.Prelude.{List};
    ghost use Rattle.disk_model.specs.declared.change.NamedFile.{NamedFile};

    ghost Value = { List NamedFile };

    ghost view = { λ t. t.files.items };
}

/// Writes bytes from the offset on, in place. A gap between the old end and the offset becomes zeros. Memory is taken first, and
/// only for what the file grows by; where there is none nothing changes.
fn patch(file: &mut Bytes, offset: usize, bytes: &[u8]) -> Result<(), AllocError>
    ensures ok { OnOk result (file.new ≡ patched file.old offset bytes.now) }
    ensures err { OnErr result (file.new ≡ file.old) }
    ensures inside { offset + length bytes.now ≤ length file.old → IsOk result }
{
    let len = file.as_slice().len();
    let end = offset.saturating_add(bytes.len());
    file.extend_zeros(end.saturating_sub(len))?;
    file.overwrite(offset, bytes);
    Ok(())
}

/// At most n of these bytes, from an offset on; none where the offset lies past their end.
pub fn part_of(bytes: &[u8], offset: usize, n: usize) -> &[u8]
    ensures { result.now ≡ take n (drop offset bytes.now) }
{
    let rest = &bytes[offset.min(bytes.len())..];
    &rest[..n.min(rest.len())]
}

fn copy_of(alloc: Global, file: &NamedFile) -> Result<NamedFile, AllocError>
    ensures { IfOk result (λ f. f ≡ file.now) }
{
    Ok(NamedFile {
        name: file.name.try_clone(alloc)?,
        bytes: file.bytes.try_clone(alloc)?,
    })
}

/// Whether a change finds its file among so many. A creation names none.
pub(crate) fn has_its_file(change: &Change, count: usize) -> bool
    ensures { result ≡ has_its_file change.now count }
{
    match change {
        Change::Create(_) => true,
        Change::Write {
            file,
            offset: _,
            bytes: _,
        } => usize::from(*file) < count,
        Change::Empty(file) => usize::from(*file) < count,
        Change::Remove(file) => usize::from(*file) < count,
        Change::Rename { file, name: _ } => usize::from(*file) < count,
    }
}

impl FileList {
    /// No files. Takes no memory.
    pub fn new(alloc: Global) -> FileList
        ensures { result ≡ [] }
    {
        FileList {
            alloc,
            files: Vec::new(alloc),
        }
    }

    /// How many files live.
    pub fn count(&self) -> usize
        ensures { result ≡ length self.now }
    {
        self.files.len()
    }

    /// The place of the first file of this name. All names before it are compared.
    pub fn find(&self, name: &[u8]) -> Option<usize>
        ensures place { result ≡ place_named self.now name.now }
        ensures there { IfSome result (λ place. place < length self.now) }
    {
        self.files
            .iter()
            .position(|file| file.name.as_slice() == name)
    }

    /// The bytes of the name of the file at a place.
    pub fn name(&self, place: usize) -> &[u8]
        requires { place < length self.now }
        ensures { (d : NamedFile) → result.now ≡ (slice_index_or self.now place d).name }
    {
        self.files[place].name.as_slice()
    }

    /// All bytes of the file at a place; nothing is copied.
    pub fn bytes(&self, place: usize) -> &[u8]
        requires { place < length self.now }
        ensures { (d : NamedFile) → result.now ≡ (slice_index_or self.now place d).bytes }
    {
        self.files[place].bytes.as_slice()
    }

    /// The size in bytes of the file at a place.
    pub fn length(&self, place: usize) -> usize
        requires { place < length self.now }
        ensures { (d : NamedFile) → result ≡ length (slice_index_or self.now place d).bytes }
    {
        self.bytes(place).len()
    }

    /// At most n bytes of the file at a place, from an offset on: fewer where it ends before, and none past its end. None
    /// where there is no file at the place.
    pub fn read(&self, place: usize, offset: usize, n: usize) -> Option<&[u8]>
        ensures { option_map (λ bytes. bytes.now) result
            ≡ option_map (λ f. take n (drop offset f.bytes)) (slice_get self.now place) }
    {
        let file = self.files.get(place)?;
        Some(part_of(file.bytes.as_slice(), offset, n))
    }

    /// Appends a new and empty file of this name. It does not look whether another file has the name. Where memory runs out nothing
    /// changes.
    pub fn create(&mut self, name: Bytes) -> Result<(), AllocError>
        ensures ok { OnOk result (self.new ≡ changed self.old (Create name)) }
        ensures err { OnErr result (self.new ≡ self.old) }
    {
        let bytes = Bytes::empty(self.alloc);
        self.files.push(NamedFile { name, bytes })?;
        Ok(())
    }

    /// Writes these bytes at this offset of the file at a place. A gap between its old end and the offset becomes zeros. Takes
    /// memory only for what the file grows by. Where memory runs out nothing changes.
    pub fn write(&mut self, place: usize, offset: usize, bytes: &[u8]) -> Result<(), AllocError>
        requires { place < length self.old }
        ensures ok { OnOk result (self.new ≡ changed self.old (Write place offset bytes.now)) }
        ensures err { OnErr result (self.new ≡ self.old) }
        ensures inside { (d : NamedFile) → offset + length bytes.now ≤ length (slice_index_or self.old place d).bytes → IsOk result }
    {
        patch(&mut self.files[place].bytes, offset, bytes)
    }

    /// The file at a place loses all its bytes. Takes no memory.
    pub fn empty(&mut self, place: usize)
        requires { place < length self.old }
        ensures { self.new ≡ changed self.old (Empty place) }
    {
        self.files[place].bytes = Bytes::empty(self.alloc);
    }

    /// The file at a place is gone, and those after it move down by one place. Takes no memory.
    pub fn remove(&mut self, place: usize)
        requires { place < length self.old }
        ensures { self.new ≡ changed self.old (Remove place) }
    {
        self.files.remove(place);
    }

    /// The place of the other file, if there is one, that loses this name to the file at a place.
    pub(crate) fn loser(&self, place: usize, name: &[u8]) -> Option<usize>
        requires { place < length self.now }
        ensures place { result ≡ loser self.now (slice_get self.now place) name.now }
        ensures there { IfSome result (λ other. other < length self.now) }
    {
        if self.name(place) == name {
            return None;
        }
        self.find(name)
    }

    /// Gives the file at a place this name; it keeps its place. Another file that had the name is gone, and those after it move
    /// down by one place. Takes no memory.
    pub fn rename(&mut self, place: usize, name: Bytes)
        requires { place < length self.old }
        ensures { self.new ≡ changed self.old (Rename place name) }
    {
        let loser = self.loser(place, name.as_slice());
        self.files[place].name = name;
        if let Some(loser) = loser {
            self.files.remove(loser);
        }
    }

    /// Does a change. One that names a file that is not there changes nothing. Takes memory only for a name and for what a file
    /// grows by. Where memory runs out nothing changes.
    pub fn change(&mut self, change: &Change) -> Result<(), AllocError>
        ensures ok { OnOk result (self.new ≡ changed self.old change.now) }
        ensures err { OnErr result (self.new ≡ self.old) }
        ensures empties { (place : ℕ) → change.now ≡ Empty place → IsOk result }
        ensures removes { (place : ℕ) → change.now ≡ Remove place → IsOk result }
        ensures inside { (place offset : ℕ) (bytes : List ℕ) → change.now ≡ Write place offset bytes
            → IfSome (slice_get self.old place) (λ (f : NamedFile). offset + length bytes ≤ length f.bytes) → IsOk result }
    {
        if !has_its_file(change, self.count()) {
            return Ok(());
        }
        match change {
            Change::Create(name) => self.create(name.try_clone(self.alloc)?),
            Change::Write {
                file,
                offset,
                bytes,
            } => self.write(usize::from(*file), *offset as usize, bytes.as_slice()),
            Change::Empty(file) => {
                self.empty(usize::from(*file));
                Ok(())
            }
            Change::Remove(file) => {
                self.remove(usize::from(*file));
                Ok(())
            }
            Change::Rename { file, name } => {
                self.rename(usize::from(*file), name.try_clone(self.alloc)?);
                Ok(())
            }
        }
    }

    /// The same files, in memory of their own.
    pub fn try_clone(&self) -> Result<FileList, AllocError>
        ensures { IfOk result (λ t. t ≡ self.now) }
    {
        let mut files = Vec::new(self.alloc);
        for file in &self.files {
            files.push(copy_of(self.alloc, file)?)?;
        }
        Ok(FileList {
            alloc: self.alloc,
            files,
        })
    }
}

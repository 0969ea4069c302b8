//! Files by numbers that are never used again.
ghost use Rattle.std.specs.Prelude.{IfOk, IfSome, List, [], ◌≡◌, ◌<◌, ◌≤◌, ◌+◌, ◌^◌, ℕ, OnOk, OnErr, IsOk, length, slice_get, slice_index_or, slice_index, take, drop, option_map};
ghost use Rattle.disk_model.specs.declared.change.NamedFile.{NamedFile};
ghost use Rattle.disk_model.specs.declared.change.Change.TheVariants.{Create, Write, Empty, Remove, Rename};
ghost use Rattle.disk_model.specs.Files.{place_named};
ghost use Rattle.disk_model.specs.Numbers.{changed_numbered, lives, numbered, place_of};

use crate::list::{FileList, has_its_file};
use byte_list::Bytes;
use disk_model::{Change, NamedFile};
use std::alloc::{AllocError, Global};
use std::marker::Model;

/// The files that live, in order of creation, each with a number that no other file of the table ever had. A change names a file by
/// its place, from 0. The place moves down when a file before it is gone; the number stays, so descriptors hold it. The table has
/// no limits of its own: its caller keeps them.
pub struct FileTable {
    alloc: Global,
    list: FileList,
    numbers: Vec<u64>,
    made: u64,
}

impl Drop for FileTable {
    fn drop(self) {
        let FileTable {
            alloc: _,
            list: _list,
            numbers: _numbers,
            made: _,
        } = self;
    }
}

impl Model for FileTable {
    ghost use Rattle.std.specs.Prelude.{◌≡◌, length};
    ghost use Rattle.disk_model.specs.Numbers.{Numbered};

    ghost Value = { Numbered };

    ghost view = { λ t. record { living = t.list; numbers = t.numbers.items; made = t.made } };

    ghost invariant = { λ t. length t.numbers.items ≡ length t.list };
}

impl FileTable {
    /// No files, and none was ever made. Takes no memory.
    pub fn new(alloc: Global) -> FileTable
        ensures { result ≡ numbered [] }
    {
        FileTable {
            alloc,
            list: FileList::new(alloc),
            numbers: Vec::new(alloc),
            made: 0,
        }
    }

    /// These files, numbered by their places. Takes memory for the numbers, and none where there are no files.
    pub fn numbered(alloc: Global, list: FileList) -> Result<FileTable, AllocError>
        ensures ok { IfOk result (λ t. t ≡ numbered list) }
        ensures none { list ≡ [] → IsOk result }
    {
        let made = list.count() as u64;
        let mut numbers = Vec::new(alloc);
        for number in 0..made {
            numbers.push(number)?;
        }
        Ok(FileTable {
            alloc,
            list,
            numbers,
            made,
        })
    }

    /// The files by their places, without their numbers.
    pub fn list(&self) -> &FileList
        ensures { result.now ≡ self.now.living }
    {
        &self.list
    }

    /// How many files live.
    pub fn count(&self) -> usize
        ensures { result ≡ length self.now.living }
    {
        self.list.count()
    }

    /// How many files were ever made: the number of the next one.
    pub fn made(&self) -> u64
        ensures { result ≡ self.now.made }
    {
        self.made
    }

    /// As `FileList::find`.
    pub fn find(&self, name: &[u8]) -> Option<usize>
        ensures place { result ≡ place_named self.now.living name.now }
        ensures there { IfSome result (λ place. place < length self.now.living) }
    {
        self.list.find(name)
    }

    /// The number of the file at a place, which stays as long as it lives.
    pub fn number(&self, place: usize) -> u64
        requires { place < length self.now.living }
        ensures { result ≡ slice_index self.now.numbers place }
    {
        self.numbers[place]
    }

    /// Where the file of this number stands now; None where it does not live. All numbers before it are compared.
    pub fn place(&self, number: u64) -> Option<usize>
        ensures place { result ≡ place_of self.now number }
        ensures there { IfSome result (λ place. place < length self.now.living) }
    {
        self.numbers.iter().position(|other| *other == number)
    }

    /// Whether the file of this number lives: it was made, and has a name.
    pub fn alive(&self, number: u64) -> bool
        ensures { result ≡ lives self.now number }
    {
        self.place(number).is_some()
    }

    /// As `FileList::name`.
    pub fn name(&self, place: usize) -> &[u8]
        requires { place < length self.now.living }
        ensures { (d : NamedFile) → result.now ≡ (slice_index_or self.now.living place d).name }
    {
        self.list.name(place)
    }

    /// As `FileList::bytes`.
    pub fn bytes(&self, place: usize) -> &[u8]
        requires { place < length self.now.living }
        ensures { (d : NamedFile) → result.now ≡ (slice_index_or self.now.living place d).bytes }
    {
        self.list.bytes(place)
    }

    /// As `FileList::length`, in bytes.
    pub fn length(&self, place: usize) -> usize
        requires { place < length self.now.living }
        ensures { (d : NamedFile) → result ≡ length (slice_index_or self.now.living place d).bytes }
    {
        self.list.length(place)
    }

    /// As `FileList::read`.
    pub fn read(&self, place: usize, offset: usize, n: usize) -> Option<&[u8]>
        ensures { option_map (λ bytes. bytes.now) result
            ≡ option_map (λ f. take n (drop offset f.bytes)) (slice_get self.now.living place) }
    {
        self.list.read(place, offset, n)
    }

    /// As `FileList::create`, with the next number. Where memory runs out nothing changes.
    pub fn create(&mut self, name: Bytes) -> Result<(), AllocError>
        requires { self.old.made + 1 < 2 ^ 64 }
        ensures ok { OnOk result (self.new ≡ changed_numbered self.old (Create name)) }
        ensures err { OnErr result (self.new ≡ self.old) }
    {
        self.numbers.reserve(1)?;
        self.list.create(name)?;
        self.numbers.push(self.made).unwrap();
        self.made += 1;
        Ok(())
    }

    /// As `FileList::write`. Where memory runs out nothing changes.
    pub fn write(&mut self, place: usize, offset: usize, bytes: &[u8]) -> Result<(), AllocError>
        requires { place < length self.old.living }
        ensures ok { OnOk result (self.new ≡ changed_numbered self.old (Write place offset bytes.now)) }
        ensures err { OnErr result (self.new ≡ self.old) }
        ensures inside { (d : NamedFile) → offset + length bytes.now ≤ length (slice_index_or self.old.living place d).bytes → IsOk result }
    {
        self.list.write(place, offset, bytes)
    }

    /// The file at a place loses all its bytes. Takes no memory.
    pub fn empty(&mut self, place: usize)
        requires { place < length self.old.living }
        ensures { self.new ≡ changed_numbered self.old (Empty place) }
    {
        self.list.empty(place);
    }

    /// The file at a place loses its name, and is gone: no file has its number from then on. Those after it move down by one place.
    /// Takes no memory.
    pub fn unlink(&mut self, place: usize)
        requires { place < length self.old.living }
        ensures { self.new ≡ changed_numbered self.old (Remove place) }
    {
        self.list.remove(place);
        self.numbers.remove(place);
    }

    /// As `FileList::rename`: the file keeps its number, and another that had the name is gone with its own. Takes no memory.
    pub fn rename(&mut self, place: usize, name: Bytes)
        requires { place < length self.old.living }
        ensures { self.new ≡ changed_numbered self.old (Rename place name) }
    {
        let loser = self.list.loser(place, name.as_slice());
        self.list.rename(place, name);
        if let Some(loser) = loser {
            self.numbers.remove(loser);
        }
    }

    /// As `FileList::change`; a creation takes the next number. Where memory runs out nothing changes.
    pub fn change(&mut self, change: &Change) -> Result<(), AllocError>
        requires { self.old.made + 1 < 2 ^ 64 }
        ensures ok { OnOk result (self.new ≡ changed_numbered self.old change.now) }
        ensures err { OnErr result (self.new ≡ self.old) }
        ensures empties { (place : ℕ) → change.now ≡ Empty place → IsOk result }
        ensures removes { (place : ℕ) → change.now ≡ Remove place → IsOk result }
        ensures inside { (place offset : ℕ) (bytes : List ℕ) → change.now ≡ Write place offset bytes
            → IfSome (slice_get self.old.living place) (λ (f : NamedFile). offset + length bytes ≤ length f.bytes) → IsOk result }
    {
        if !has_its_file(change, self.list.count()) {
            return Ok(());
        }
        match change {
            Change::Create(name) => self.create(name.try_clone(self.alloc)?),
            Change::Write {
                file,
                offset,
                bytes,
            } => self.write(usize::from(*file), *offset as usize, bytes.as_slice()),
            Change::Empty(file) => {
                self.empty(usize::from(*file));
                Ok(())
            }
            Change::Remove(file) => {
                self.unlink(usize::from(*file));
                Ok(())
            }
            Change::Rename { file, name } => {
                self.rename(usize::from(*file), name.try_clone(self.alloc)?);
                Ok(())
            }
        }
    }

    /// The same files with the same numbers, in memory of their own.
    pub fn try_clone(&self) -> Result<FileTable, AllocError>
        ensures { IfOk result (λ t. t ≡ self.now) }
    {
        let mut numbers = Vec::new(self.alloc);
        numbers.extend_from_slice(&self.numbers)?;
        Ok(FileTable {
            alloc: self.alloc,
            list: self.list.try_clone()?,
            numbers,
            made: self.made,
        })
    }
}

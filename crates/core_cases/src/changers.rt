//! The changes that the tested programs make, and the files after so many of these changes, by a plain fold.
use crate::plain_files::{PlainFile, has, make, remove, rename, write};
use files::FileList;
use std::alloc::{AllocError, Global};

/// A program that makes its files, each named by a letter, and then writes to them.
#[derive(Clone, Copy)]
pub enum Changer {
    /// `first.s` writes 41 00 00 to `f`.
    First,
    /// `three_files.s` goes on writing, in rounds: 1,024 bytes to each of two blocks of `a`, from 500 on, and to each of six
    /// blocks of `c`. A write begins with its number, from 1, in four bytes; after it comes the file's letter.
    ThreeFiles,
    /// `writer.s` goes on writing 1,024 bytes to each of the sixteen blocks of `f`, again and again, its number and zeros.
    Writer,
    /// `renamer.s` goes on making, writing, removing and renaming its files, by the steps of `ROUND`. It writes 1,024 bytes,
    /// the number of the change, from 1, and zeros.
    Renamer,
}

/// A change by the files' names.
#[derive(Clone, Copy)]
enum Step {
    /// The file is made, or emptied where it is there.
    Make(u8),
    /// The block of this number is written.
    Write(u8, usize),
    Remove(u8),
    Rename(u8, u8),
}

/// The changes of a round of `renamer.s`.
const ROUND: [Step; 21] = [
    Step::Make(b'a'),
    Step::Write(b'a', 0),
    Step::Make(b'b'),
    Step::Write(b'b', 0),
    Step::Make(b'c'),
    Step::Write(b'c', 0),
    Step::Remove(b'a'),
    Step::Write(b'b', 1),
    Step::Rename(b'c', b'd'),
    Step::Write(b'd', 1),
    Step::Make(b'c'),
    Step::Write(b'c', 0),
    Step::Rename(b'c', b'b'),
    Step::Write(b'b', 1),
    Step::Rename(b'd', b'b'),
    Step::Write(b'b', 2),
    Step::Make(b'a'),
    Step::Write(b'a', 0),
    Step::Make(b'c'),
    Step::Remove(b'a'),
    Step::Write(b'c', 0),
];

impl Changer {
    /// The program whose source this file has.
    pub fn of(name: &str) -> Changer {
        match name {
            "first.s" => Changer::First,
            "three_files.s" => Changer::ThreeFiles,
            "renamer.s" => Changer::Renamer,
            _ => Changer::Writer,
        }
    }

    /// The names of its files that are made first, once for all.
    fn names(self) -> &'static [u8] {
        match self {
            Changer::ThreeFiles => b"abc",
            Changer::Renamer => b"",
            _ => b"f",
        }
    }

    /// The name of the file, the offset and the last byte of the write of this number, from 0.
    fn target_of(self, number: u32) -> (u8, usize, u8) {
        match (self, number % 8) {
            (Changer::ThreeFiles, 0) => (b'a', 500, b'a'),
            (Changer::ThreeFiles, 1) => (b'a', 1524, b'a'),
            (Changer::ThreeFiles, place) => (b'c', place.saturating_sub(2) as usize * 1024, b'c'),
            _ => (b'f', number as usize % 16 * 1024, 0),
        }
    }

    /// The bytes of the write of this number, from 0.
    fn bytes_of(self, alloc: Global, number: u32, last: u8) -> Result<Vec<u8>, AllocError> {
        match self {
            Changer::First => Vec::from_slice(alloc, b"A\0\0"),
            _ => {
                let number = number.saturating_add(1);
                let mut bytes = Vec::from_slice(alloc, &number.to_le_bytes())?;
                bytes.resize(1024, last)?;
                Ok(bytes)
            }
        }
    }

    fn write(self, alloc: Global, files: &mut [PlainFile], number: u32) -> Result<(), AllocError> {
        let (name, offset, last) = self.target_of(number);
        let bytes = self.bytes_of(alloc, number, last)?;
        write(files, name, offset, bytes.as_slice())
    }

    /// Does the step of a round that is the change of this number, from 0.
    fn step(
        self,
        alloc: Global,
        files: &mut Vec<PlainFile>,
        number: u32,
    ) -> Result<(), AllocError> {
        match ROUND[number as usize % ROUND.len()] {
            Step::Make(name) => make(alloc, files, name),
            Step::Write(name, block) => {
                let bytes = self.bytes_of(alloc, number, 0)?;
                write(files, name, block.saturating_mul(1024), bytes.as_slice())
            }
            Step::Remove(name) => {
                remove(files, name);
                Ok(())
            }
            Step::Rename(old, new) => {
                rename(files, old, new);
                Ok(())
            }
        }
    }

    /// Does the change of this number, from 0: first the files are made.
    fn change(
        self,
        alloc: Global,
        files: &mut Vec<PlainFile>,
        number: u32,
    ) -> Result<(), AllocError> {
        let names = self.names();
        match names.get(number as usize) {
            Some(name) => make(alloc, files, *name),
            None => match self {
                Changer::Renamer => self.step(alloc, files, number),
                _ => self.write(alloc, files, number.saturating_sub(names.len() as u32)),
            },
        }
    }

    /// The files after so many changes.
    pub fn files_after(self, alloc: Global, changes: u32) -> Result<Vec<PlainFile>, AllocError> {
        let mut files = Vec::new(alloc);
        for number in 0..changes {
            self.change(alloc, &mut files, number)?;
        }
        Ok(files)
    }

    /// Whether a list has the files after so many changes, at least these and at most those.
    pub fn leaves(
        self,
        alloc: Global,
        list: &FileList,
        least: u32,
        most: u32,
    ) -> Result<bool, AllocError> {
        let mut files = self.files_after(alloc, least)?;
        for number in least..most {
            if has(list, &files) {
                return Ok(true);
            }
            self.change(alloc, &mut files, number)?;
        }
        Ok(has(list, &files))
    }
}

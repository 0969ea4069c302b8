//! `Enumeration`: which files a crash may leave.
ghost use Rattle.std.specs.Prelude.{◌≡◌, IfOk, IfSome, Some, slice_get};
ghost use Rattle.disk_model.specs.declared.change.NamedFile.{NamedFile};
ghost use Rattle.crash_lists.specs.Rules.{AreMomentsOf};

use crate::cells::DiskCells;
use crate::choices::{Choices, FileIn};
use crate::contents::{Content, FileAt};
use crate::directories::{Directory, directories_near};
use crate::effects::{Effect, FileEffect, effects_of};
use crate::model::CrashModel;
use crate::moments::{FileMoments, FileNear};
use crate::presence::{ChangeOnDisk, Part, PartOnDisk};
use crate::window::{CELL, Window};
use byte_list::Bytes;
use disk_model::Change;
use files::FileList;
use std::alloc::{AllocError, Global};

/// Files that a crash may leave, and how many cells are not as at the common moment.
#[derive(Drop)]
pub struct Listed {
    pub files: FileList,
    pub apart: u32,
    /// Which moment that is, and which cells they are.
    cells: DiskCells,
}

/// The name of the file at a place; nothing where there is none.
fn name_at(files: &FileList, place: usize) -> &[u8] {
    if place < files.count() {
        files.name(place)
    } else {
        &[]
    }
}

/// The bytes of the file at a place; none where there is none.
fn bytes_at(files: &FileList, place: usize) -> &[u8]
    ensures { (file : NamedFile) → slice_get files.now place ≡ Some file → result.now ≡ file.bytes }
{
    if place < files.count() {
        files.bytes(place)
    } else {
        &[]
    }
}

/// What was enumerated.
#[derive(Drop)]
pub struct Lists {
    pub lists: Vec<Listed>,
    /// Whether some were left out, since more cells are apart in them.
    pub is_cut: bool,
}

/// Files, and one more.
fn with_file(
    alloc: Global,
    files: &FileList,
    name: &[u8],
    bytes: &[u8],
) -> Result<FileList, AllocError> {
    let mut more = files.try_clone()?;
    let file = u16::try_from(more.count()).unwrap_or(u16::MAX);
    more.change(&Change::Create(Bytes::copy_of(alloc, name)?))?;
    more.change(&Change::Write {
        file,
        offset: 0,
        bytes: Bytes::copy_of(alloc, bytes)?,
    })?;
    Ok(more)
}

impl Lists {
    /// Each list with a file of this name and number, which holds one of the contents, where no more than so many cells are then apart.
    fn with_each(
        &self,
        alloc: Global,
        (name, number): (&[u8], u64),
        contents: &[Content],
        most: u32,
    ) -> Result<Lists, AllocError> {
        let mut next = Lists {
            lists: Vec::new(alloc),
            is_cut: self.is_cut,
        };
        for listed in &self.lists {
            for content in contents {
                let apart = listed.apart.saturating_add(content.apart);
                if apart > most {
                    next.is_cut = true;
                    continue;
                }
                let files = with_file(alloc, &listed.files, name, content.bytes.as_slice())?;
                let cells = listed.cells.with_file(alloc, number, content)?;
                next.lists.push(Listed {
                    files,
                    apart,
                    cells,
                })?;
            }
        }
        Ok(next)
    }
}

/// The names of a directory with the numbers of their files, in the order of names: no call tells another order.
fn sorted(alloc: Global, directory: &Directory) -> Result<Vec<(&[u8], u64)>, AllocError> {
    let mut named: Vec<(&[u8], u64)> = Vec::new(alloc);
    for cell in &directory.cells {
        if let Some(number) = cell.number {
            named.push((cell.name.as_slice(), number))?;
        }
    }
    named.sort_unstable();
    Ok(named)
}

/// The files that a crash in a window may leave under a rule.
#[derive(Drop)]
pub struct Enumeration<'a> {
    window: &'a Window,
    model: CrashModel,
    /// Of each file that lives at some moment.
    choices: Vec<Choices>,
    /// Of each change.
    effects: Vec<Effect>,
}

impl<'a> Enumeration<'a> {
    /// Finds what the cells of each file may hold.
    pub fn new(
        alloc: Global,
        window: &'a Window,
        model: CrashModel,
    ) -> Result<Enumeration<'a>, AllocError> {
        let mut choices: Vec<Choices> = Vec::new(alloc);
        for moment in 0..=window.changes() {
            if let Some(files) = window.files_at(moment) {
                for place in 0..files.count() {
                    let number = files.number(place);
                    if !choices.iter().any(|file| file.number == number) {
                        let file = FileIn {
                            window,
                            model,
                            number,
                        };
                        choices.push(Choices::of(alloc, file)?)?;
                    }
                }
            }
        }
        Ok(Enumeration {
            window,
            model,
            choices,
            effects: effects_of(alloc, window)?,
        })
    }

    /// The file of a number, where names are as at a common moment.
    fn file_near(&self, number: u64, common: usize) -> FileNear<'_>
        ensures window { result.file.window.now ≡ self.now.window.now }
        ensures model { result.file.model ≡ self.now.model }
        ensures number { result.file.number ≡ number }
        ensures common { result.common ≡ common }
    {
        FileNear {
            file: FileIn {
                window: self.window,
                model: self.model,
                number,
            },
            common,
        }
    }

    /// What the file of a number may hold near a common moment. Nothing where it never lives.
    fn contents(
        &self,
        alloc: Global,
        number: u64,
        moment: usize,
        most: u32,
    ) -> Result<(Vec<Content>, bool), AllocError> {
        let Some(choices) = self.choices.iter().find(|file| file.number == number) else {
            return Ok((Vec::new(alloc), false));
        };
        let near = self.file_near(number, moment);
        FileAt { near, choices }.contents(alloc, most)
    }

    /// The lists of one directory.
    fn lists_of(
        &self,
        alloc: Global,
        moment: usize,
        directory: &Directory,
        most: u32,
    ) -> Result<Lists, AllocError> {
        let mut first = Vec::new(alloc);
        first.push(Listed {
            files: FileList::new(alloc),
            apart: directory.count_apart(),
            cells: DiskCells::new(alloc, moment, directory.apart.as_slice())?,
        })?;
        let mut lists = Lists {
            lists: first,
            is_cut: false,
        };
        for file in sorted(alloc, directory)? {
            let (_, number) = file;
            let (contents, is_cut) = self.contents(alloc, number, moment, most)?;
            lists = lists.with_each(alloc, file, contents.as_slice(), most)?;
            lists.is_cut = lists.is_cut || is_cut;
        }
        Ok(lists)
    }

    /// The files that a crash may leave, where no more than so many cells are not as at a common moment: names that changed, lengths of
    /// files, and 512 bytes of a file. A list may come more than once. Its files are in the order of their names.
    pub fn near(&self, alloc: Global, moment: usize, most: u32) -> Result<Lists, AllocError> {
        let (directories, is_cut) = directories_near(alloc, self.window, self.model, moment, most)?;
        let mut all = Lists {
            lists: Vec::new(alloc),
            is_cut,
        };
        for directory in &directories {
            let mut lists = self.lists_of(alloc, moment, directory, most)?;
            all.lists.append(&mut lists.lists)?;
            all.is_cut = all.is_cut || lists.is_cut;
        }
        Ok(all)
    }

    /// The first of the names that a change changes, as a text.
    fn name_of(&self, alloc: Global, change: usize) -> Result<String, AllocError> {
        match self.effects.get(change) {
            Some(
                Effect {
                    name: Some(name),
                    ..
                },
            ) => String::from_utf8_lossy(alloc, name.as_slice()),
            _ => Ok(String::new(alloc)),
        }
    }

    /// As at which moments the files of a list have their lengths and their cells: those that the rule allows. None where none are found.
    pub fn moments(
        &self,
        alloc: Global,
        listed: &Listed,
    ) -> Result<Option<Vec<FileMoments>>, AllocError>
        ensures { IfOk result (λ found. IfSome found (λ moments.
            AreMomentsOf self.now.model self.now.window.now.moments.items listed.now.cells.common listed.now.files listed.now.cells.files.items moments.items)) }
    {
        let mut all = Vec::new(alloc);
        for file in &listed.cells.files {
            let near = self.file_near(file.number, listed.cells.common);
            let bytes = bytes_at(&listed.files, all.len());
            let Some(moments) = near.moments(alloc, bytes, file.apart)? else {
                return Ok(None);
            };
            all.push(moments)?;
        }
        Ok(Some(all))
    }

    /// Adds which cells of the file at a place are apart, in words.
    fn push_file(
        &self,
        alloc: Global,
        apart: &mut Vec<String>,
        listed: &Listed,
        (place, moments): (usize, &FileMoments),
    ) -> Result<(), AllocError> {
        let Some(file) = listed.cells.files.get(place) else {
            return Ok(());
        };
        let near = self.file_near(file.number, listed.cells.common);
        let length = bytes_at(&listed.files, place).len();
        let name = String::from_utf8_lossy(alloc, name_at(&listed.files, place))?;
        if near.is_length_apart(moments.size) {
            apart.push(format!(in alloc; "the length of {name}")?)?;
        }
        for (cell, moment) in moments.cells.iter().enumerate() {
            if near.is_cell_apart(length, cell, *moment) {
                let begin = cell.saturating_mul(CELL);
                let last = begin.saturating_add(CELL.saturating_sub(1));
                apart.push(format!(in alloc; "bytes {begin} to {last} of {name}")?)?;
            }
        }
        Ok(())
    }

    /// Which cells are apart in a list, in words.
    fn apart(
        &self,
        alloc: Global,
        listed: &Listed,
        moments: &[FileMoments],
    ) -> Result<Vec<String>, AllocError> {
        let mut apart = Vec::new(alloc);
        for change in &listed.cells.names {
            let name = self.name_of(alloc, *change)?;
            apart.push(format!(in alloc; "the name {name}")?)?;
        }
        for file in moments.iter().enumerate() {
            self.push_file(alloc, &mut apart, listed, file)?;
        }
        Ok(apart)
    }

    /// Which changes are there in a list by these moments, in words: those before the common moment, but for the cells that are apart.
    pub fn told(
        &self,
        alloc: Global,
        listed: &Listed,
        moments: &[FileMoments],
    ) -> Result<String, AllocError> {
        let (moment, changes) = (listed.cells.common, self.window.changes());
        let mut told = format!(in alloc;
            "{moment} of {changes} changes since the last sync are there"
        )?;
        let mut before = ", but for ";
        for apart in &self.apart(alloc, listed, moments)? {
            write!(told, "{before}{apart}")?;
            before = "; ";
        }
        Ok(told)
    }

    /// Whether a list is past the last name of a file.
    fn is_past(&self, cells: &DiskCells, number: u64) -> bool {
        (0..self.effects.len()).any(|change| match self.effects.get(change) {
            Some(effect) => effect.gone == Some(number) && cells.has_names(change),
            None => false,
        })
    }

    /// The moment of a part of a file. A file that has no name in a list is as at the end, if it lost its last name there, and else as at
    /// the sync.
    fn moment_of(
        &self,
        cells: &DiskCells,
        moments: &[FileMoments],
        number: u64,
        part: Part,
    ) -> usize {
        let place = cells.place(number);
        match place.and_then(|place| moments.get(place)) {
            Some(file) => file.moment_of(part),
            None if self.is_past(cells, number) => self.window.changes(),
            None => 0,
        }
    }

    /// Adds the parts that a change changes of a file.
    fn push_parts(
        &self,
        cells: &DiskCells,
        moments: &[FileMoments],
        file: &FileEffect,
        parts: &mut Vec<PartOnDisk>,
    ) -> Result<(), AllocError> {
        for part in &file.parts {
            parts.push(PartOnDisk {
                part: *part,
                moment: self.moment_of(cells, moments, file.number, *part),
            })?;
        }
        Ok(())
    }

    /// How much a list has by these moments of the change after a moment.
    pub fn on_disk(
        &self,
        alloc: Global,
        listed: &Listed,
        moments: &[FileMoments],
        change: usize,
    ) -> Result<ChangeOnDisk, AllocError> {
        let mut parts = Vec::new(alloc);
        if let Some(effect) = self.effects.get(change) {
            if effect.name.is_some() {
                parts.push(PartOnDisk {
                    part: Part::Names,
                    moment: listed.cells.moment_of_names(change),
                })?;
            }
            if let Some(file) = &effect.file {
                self.push_parts(&listed.cells, moments, file, &mut parts)?;
            }
        }
        Ok(ChangeOnDisk { change, parts })
    }
}

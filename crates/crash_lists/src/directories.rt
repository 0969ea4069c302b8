//! Which names a crash may leave.
use crate::model::CrashModel;
use crate::window::Window;
use files::FileTable;
use std::alloc::{AllocError, Global};

/// A name, and the number of its file; none where the name is gone.
#[derive(Drop)]
pub struct NameCell {
    pub name: Vec<u8>,
    pub number: Option<u64>,
}

/// The names that a crash may leave, and which changes of names are not as at the common moment.
#[derive(Drop)]
pub struct Directory {
    pub cells: Vec<NameCell>,
    /// The names of which a change is not there. No later one is then.
    stopped: Vec<Vec<u8>>,
    pub apart: Vec<usize>,
}

fn is_among(names: &[Vec<u8>], name: &[u8]) -> bool {
    names.iter().any(|other| other.as_slice() == name)
}

/// The number of the file of this name, if there is one.
fn number_named(files: &FileTable, name: &[u8]) -> Option<u64> {
    let place = files.find(name)?;
    Some(files.number(place))
}

/// The names of files with their numbers.
fn cells_of(alloc: Global, files: &FileTable) -> Result<Vec<NameCell>, AllocError> {
    let mut cells = Vec::new(alloc);
    for place in 0..files.count() {
        cells.push(NameCell {
            name: Vec::from_slice(alloc, files.name(place))?,
            number: Some(files.number(place)),
        })?;
    }
    Ok(cells)
}

/// Adds the names of the first files that the second ones have not, or have for other files, with what they have.
fn push_edits(
    alloc: Global,
    edits: &mut Vec<NameCell>,
    of: &FileTable,
    after: &FileTable,
    other: &FileTable,
) -> Result<(), AllocError> {
    for place in 0..of.count() {
        let name = of.name(place);
        let is_known = edits.iter().any(|edit| edit.name.as_slice() == name);
        if !is_known && number_named(after, name) != number_named(other, name) {
            edits.push(NameCell {
                name: Vec::from_slice(alloc, name)?,
                number: number_named(after, name),
            })?;
        }
    }
    Ok(())
}

/// What a change does to names.
pub fn edits_of(
    alloc: Global,
    before: &FileTable,
    after: &FileTable,
) -> Result<Vec<NameCell>, AllocError> {
    let mut edits = Vec::new(alloc);
    push_edits(alloc, &mut edits, before, after, before)?;
    push_edits(alloc, &mut edits, after, after, before)?;
    Ok(edits)
}

fn copies_of(alloc: Global, names: &[Vec<u8>]) -> Result<Vec<Vec<u8>>, AllocError> {
    let mut copies = Vec::new(alloc);
    for name in names {
        copies.push(Vec::from_slice(alloc, name.as_slice())?)?;
    }
    Ok(copies)
}

impl Directory {
    fn of(alloc: Global, files: &FileTable) -> Result<Directory, AllocError> {
        Ok(Directory {
            cells: cells_of(alloc, files)?,
            stopped: Vec::new(alloc),
            apart: Vec::new(alloc),
        })
    }

    /// How many changes are apart.
    pub fn count_apart(&self) -> u32 {
        u32::try_from(self.apart.len()).unwrap_or(u32::MAX)
    }

    fn try_clone(&self, alloc: Global) -> Result<Directory, AllocError> {
        let mut cells = Vec::new(alloc);
        for cell in &self.cells {
            cells.push(NameCell {
                name: Vec::from_slice(alloc, cell.name.as_slice())?,
                number: cell.number,
            })?;
        }
        Ok(Directory {
            cells,
            stopped: copies_of(alloc, self.stopped.as_slice())?,
            apart: Vec::from_slice(alloc, self.apart.as_slice())?,
        })
    }

    /// Whether a change of names may be there: no earlier one of its names is missing.
    fn takes(&self, edits: &[NameCell]) -> bool {
        !edits.iter().any(|edit| is_among(self.stopped.as_slice(), edit.name.as_slice()))
    }

    /// The same with a change of names.
    fn with(&self, alloc: Global, edits: &[NameCell]) -> Result<Directory, AllocError> {
        let mut directory = self.try_clone(alloc)?;
        for edit in edits {
            directory
                .cells
                .retain(|cell| cell.name.as_slice() != edit.name.as_slice());
            if edit.number.is_some() {
                directory.cells.push(NameCell {
                    name: Vec::from_slice(alloc, edit.name.as_slice())?,
                    number: edit.number,
                })?;
            }
        }
        Ok(directory)
    }

    /// The same without a change of names.
    fn without(&self, alloc: Global, edits: &[NameCell]) -> Result<Directory, AllocError> {
        let mut directory = self.try_clone(alloc)?;
        for edit in edits {
            directory
                .stopped
                .push(Vec::from_slice(alloc, edit.name.as_slice())?)?;
        }
        Ok(directory)
    }
}

/// Directories, of which no more than so many changes are apart.
#[derive(Drop)]
struct Near {
    most: u32,
    directories: Vec<Directory>,
    is_cut: bool,
}

impl Near {
    /// Adds a directory, in which a change of names is apart, if one is given.
    fn push(&mut self, mut directory: Directory, apart: Option<usize>) -> Result<(), AllocError> {
        if let Some(change) = apart {
            directory.apart.push(change)?;
        }
        if directory.count_apart() > self.most {
            self.is_cut = true;
            return Ok(());
        }
        self.directories.push(directory)?;
        Ok(())
    }
}

/// A change of names, and whether it is there at the common moment.
#[derive(Clone, Copy)]
struct NameChange<'a> {
    change: usize,
    edits: &'a [NameCell],
    is_there: bool,
}

impl NameChange<'_> {
    /// The change, if it is apart in a directory that has it or not.
    fn apart(&self, has_it: bool) -> Option<usize> {
        if has_it == self.is_there {
            None
        } else {
            Some(self.change)
        }
    }
}

/// The directories with one more change of names, and those without it.
fn after_change(alloc: Global, near: Near, change: NameChange<'_>) -> Result<Near, AllocError> {
    let mut next = Near {
        most: near.most,
        directories: Vec::new(alloc),
        is_cut: near.is_cut,
    };
    for directory in &near.directories {
        let edits = change.edits;
        if directory.takes(edits) {
            next.push(directory.with(alloc, edits)?, change.apart(true))?;
        }
        next.push(directory.without(alloc, edits)?, change.apart(false))?;
    }
    Ok(next)
}

/// The names that a crash may leave where each name is as at a moment of its own, and a renaming is whole.
fn free_directories(
    alloc: Global,
    window: &Window,
    moment: usize,
    most: u32,
) -> Result<(Vec<Directory>, bool), AllocError> {
    let mut near = Near {
        most,
        directories: Vec::new(alloc),
        is_cut: false,
    };
    if let Some(files) = window.files_at(0) {
        near.push(Directory::of(alloc, files)?, None)?;
    }
    for change in 0..window.changes() {
        let next = change.saturating_add(1);
        if let (Some(before), Some(after)) = (window.files_at(change), window.files_at(next)) {
            let edits = edits_of(alloc, before, after)?;
            if !edits.is_empty() {
                let names = NameChange {
                    change,
                    edits: edits.as_slice(),
                    is_there: next <= moment,
                };
                near = after_change(alloc, near, names)?;
            }
        }
    }
    let Near {
        directories,
        is_cut,
        ..
    } = near;
    Ok((directories, is_cut))
}

/// The names that a crash may leave near a common moment, with no more than so many changes of names apart. Whether some were left out.
pub fn directories_near(
    alloc: Global,
    window: &Window,
    model: CrashModel,
    moment: usize,
    most: u32,
) -> Result<(Vec<Directory>, bool), AllocError> {
    if model == CrashModel::Posix {
        return free_directories(alloc, window, moment, most);
    }
    let mut directories = Vec::new(alloc);
    if let Some(files) = window.files_at(moment) {
        directories.push(Directory::of(alloc, files)?)?;
    }
    Ok((directories, false))
}

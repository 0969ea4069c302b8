//! `DiskCells`: which cells of a disk are not as at a common moment.
use crate::contents::Content;
use std::alloc::{AllocError, Global};

/// A file of a disk.
#[derive(Clone, Copy)]
pub struct DiskFile {
    pub number: u64,
    /// How many of its cells are apart.
    pub apart: u32,
}

/// Which cells of a disk are not as at a common moment.
#[derive(Drop)]
pub struct DiskCells {
    pub common: usize,
    /// The changes of names that are there though they come after it, or are not though they come before it.
    pub names: Vec<usize>,
    /// The files, by their places.
    pub files: Vec<DiskFile>,
}

impl DiskCells {
    /// Those of a disk without files.
    pub fn new(alloc: Global, common: usize, names: &[usize]) -> Result<DiskCells, AllocError> {
        Ok(DiskCells {
            common,
            names: Vec::from_slice(alloc, names)?,
            files: Vec::new(alloc),
        })
    }

    /// Those of the disk with a file more.
    pub fn with_file(
        &self,
        alloc: Global,
        number: u64,
        content: &Content,
    ) -> Result<DiskCells, AllocError> {
        let mut files = Vec::from_slice(alloc, self.files.as_slice())?;
        files.push(DiskFile {
            number,
            apart: content.apart,
        })?;
        Ok(DiskCells {
            common: self.common,
            names: Vec::from_slice(alloc, self.names.as_slice())?,
            files,
        })
    }

    /// The place of the file of a number, if the disk has it.
    pub fn place(&self, number: u64) -> Option<usize> {
        self.files.iter().position(|file| file.number == number)
    }

    /// Whether a change of names is there.
    pub fn has_names(&self, change: usize) -> bool {
        let is_apart = self.names.iter().any(|other| *other == change);
        (change < self.common) != is_apart
    }

    /// The moment of names that a change changes: right after it, or right before it.
    pub fn moment_of_names(&self, change: usize) -> usize {
        if self.has_names(change) {
            change.saturating_add(1)
        } else {
            change
        }
    }
}

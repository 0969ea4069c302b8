//! What a file may hold after a crash.
use crate::choices::{Choices, FileIn, cell_bytes};
use crate::moments::FileNear;
use std::alloc::{AllocError, Global};
use std::collections::HashSet;

/// What a file may hold, and how many of its cells are not as at the common moment: of its length and of each 512 bytes.
#[derive(Drop)]
pub struct Content {
    pub bytes: Vec<u8>,
    pub apart: u32,
}

/// A value that a cell may have.
#[derive(Drop)]
struct CellValue {
    bytes: Vec<u8>,
    /// Whether it is not the one of the common moment.
    is_apart: bool,
}

impl Content {
    /// The same with the bytes of one cell more.
    fn with_cell(&self, alloc: Global, value: &CellValue) -> Result<Content, AllocError> {
        let mut bytes = Vec::from_slice(alloc, self.bytes.as_slice())?;
        bytes.extend_from_slice(value.bytes.as_slice())?;
        Ok(Content {
            bytes,
            apart: self.apart.saturating_add(u32::from(value.is_apart)),
        })
    }
}

/// A file at a common moment, from which cells may be apart.
#[derive(Clone, Copy)]
pub struct FileAt<'a> {
    pub near: FileNear<'a>,
    pub choices: &'a Choices,
}

/// These beginnings, each with one of the values of a cell after it, where no more than so many cells are then apart. Whether some were
/// left out.
fn extend(
    alloc: Global,
    begun: &[Content],
    values: &[CellValue],
    most: u32,
) -> Result<(Vec<Content>, bool), AllocError> {
    let mut longer = Vec::new(alloc);
    let mut is_cut = false;
    for content in begun {
        for value in values {
            let content = content.with_cell(alloc, value)?;
            if content.apart > most {
                is_cut = true;
            } else {
                longer.push(content)?;
            }
        }
    }
    Ok((longer, is_cut))
}

impl FileAt<'_> {
    /// The values of a cell of a file of this length that may be as at these moments.
    fn values(
        &self,
        alloc: Global,
        length: usize,
        cell: usize,
        moments: &[usize],
    ) -> Result<Vec<CellValue>, AllocError> {
        let FileIn { window, number, .. } = self.near.file;
        let mut values = Vec::new(alloc);
        for moment in moments {
            values.push(CellValue {
                bytes: cell_bytes(alloc, window.bytes_at(number, *moment), cell)?,
                is_apart: self.near.is_cell_apart(length, cell, *moment),
            })?;
        }
        Ok(values)
    }

    /// What the file may hold where its length is as at a moment, with no more than so many cells apart. Whether some were left out.
    fn contents_of_size(
        &self,
        alloc: Global,
        size: usize,
        most: u32,
    ) -> Result<(Vec<Content>, bool), AllocError> {
        let FileIn { window, number, .. } = self.near.file;
        let length = window.bytes_at(number, size).len();
        let mut contents = Vec::new(alloc);
        let apart = u32::from(self.near.is_length_apart(size));
        if apart > most {
            return Ok((contents, true));
        }
        contents.push(Content {
            bytes: Vec::new(alloc),
            apart,
        })?;
        let mut is_cut = false;
        let mut cell = 0usize;
        for moments in self.choices.of_size(size) {
            if contents.is_empty() {
                break;
            }
            let values = self.values(alloc, length, cell, moments.as_slice())?;
            let (longer, cuts) = extend(alloc, contents.as_slice(), values.as_slice(), most)?;
            contents = longer;
            is_cut = is_cut || cuts;
            cell = cell.saturating_add(1);
        }
        for content in contents.as_mut_slice() {
            content.bytes.truncate(length);
        }
        Ok((contents, is_cut))
    }

    /// What the file may hold with no more than so many cells apart; each once, or again with fewer apart. Whether some were left out.
    pub fn contents(&self, alloc: Global, most: u32) -> Result<(Vec<Content>, bool), AllocError> {
        let mut all = Vec::new(alloc);
        let mut known: HashSet<Vec<u8>> = HashSet::new(alloc);
        let mut is_cut = false;
        let (first, last) = self.near.file.sizes(self.near.common);
        for apart in 0..=most {
            for size in first..=last {
                let (contents, cuts) = self.contents_of_size(alloc, size, apart)?;
                for content in contents {
                    let key = Vec::from_slice(alloc, content.bytes.as_slice())?;
                    if known.insert(key)? {
                        all.push(content)?;
                    }
                }
                is_cut = if apart == most { is_cut || cuts } else { false };
            }
        }
        Ok((all, is_cut))
    }
}

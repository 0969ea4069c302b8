//! As at which moments a file of a list has its length and its cells.
ghost use Rattle.std.specs.Prelude.{◌≡◌, ◌*◌, ◌+◌, ◌<◌, ℕ, IfOk, IfSome, false, length, min, slice_index, true, vec_len};
ghost use Rattle.crash_lists.specs.Effects.{AreSame};
ghost use Rattle.crash_lists.specs.Rules.{AreMoments, IsCellAt, LengthMayBe, bytes_at as bytes_in, moment_of};

use crate::choices::FileIn;
use crate::effects::first_change;
use crate::presence::Part;
use crate::window::CELL;
use std::alloc::{AllocError, Global};

/// As at which moments a file has its length and its cells.
#[derive(Drop)]
pub struct FileMoments {
    /// How many bytes it has.
    length: usize,
    /// The moment of its length.
    pub size: usize,
    /// That of each 512 bytes.
    pub cells: Vec<usize>,
}

/// A file whose names are as at a common moment.
#[derive(Clone, Copy)]
pub struct FileNear<'a> {
    pub file: FileIn<'a>,
    pub common: usize,
}

impl FileMoments {
    /// The moment of a part of the file. Bytes past its end are as its length is.
    pub fn moment_of(&self, part: Part) -> usize
        ensures { result ≡ moment_of self.now part }
    {
        match part {
            Part::Names | Part::Length => self.size,
            Part::Bytes { first, .. } => {
                if first < self.length {
                    self.cells.get(first / CELL).copied().unwrap_or(self.size)
                } else {
                    self.size
                }
            }
        }
    }
}

impl FileNear<'_> {
    /// Whether the length at a moment is not the common one.
    pub fn is_length_apart(&self, size: usize) -> bool {
        let FileIn { window, number, .. } = self.file;
        window.bytes_at(number, size).len() != window.bytes_at(number, self.common).len()
    }

    /// Whether a cell of a file of this length does not have the same bytes at a moment as at the common one. Bytes past the end do not count.
    pub fn is_cell_apart(&self, length: usize, cell: usize, moment: usize) -> bool
        ensures same { 512 * cell < length → result ≡ false → AreSame (bytes_in self.now.file.window.now.moments.items self.now.file.number self.now.common) (bytes_in self.now.file.window.now.moments.items self.now.file.number moment) (512 * cell) (min (512 * cell + 512) length) }
        ensures apart { 512 * cell < length → result ≡ true → AreSame (bytes_in self.now.file.window.now.moments.items self.now.file.number self.now.common) (bytes_in self.now.file.window.now.moments.items self.now.file.number moment) (512 * cell) (min (512 * cell + 512) length) → ⊥ }
    {
        let FileIn { window, number, .. } = self.file;
        let begin = cell.saturating_mul(CELL);
        let end = begin.saturating_add(CELL).min(length);
        let (now, then) = (
            window.bytes_at(number, self.common),
            window.bytes_at(number, moment),
        );
        first_change(now, then, begin, end).is_some()
    }

    /// Whether a cell of these bytes may be as at a moment, where the length is as at another.
    fn gives(&self, size: usize, bytes: &[u8], cell: usize, moment: usize) -> bool
        requires cell { 512 * cell < length bytes.now }
        requires moment { moment < vec_len self.now.file.window.now.moments }
        ensures { result ≡ true → IsCellAt self.now.file.model self.now.file.window.now.moments.items self.now.file.number size bytes.now cell moment }
    {
        let FileIn { window, number, .. } = self.file;
        let begin = cell * CELL;
        let end = begin.saturating_add(CELL).min(bytes.len());
        match first_change(bytes, window.bytes_at(number, moment), begin, end) {
            Some(_) => false,
            None => self.file.may_be(size, moment, cell),
        }
    }

    /// The moment of a cell of these bytes, where the length is as at another: the common one if it may be, or else one with the same bytes
    /// as that, or else the first.
    fn moment_of_cell(&self, size: usize, bytes: &[u8], cell: usize) -> Option<usize>
        requires { 512 * cell < length bytes.now }
        ensures { IfSome result (IsCellAt self.now.file.model self.now.file.window.now.moments.items self.now.file.number size bytes.now cell) }
    {
        let count = self.file.window.moments();
        if self.common < count && self.gives(size, bytes, cell, self.common) {
            return Some(self.common);
        }
        let mut found = None;
        for moment in 0..count {
            if self.gives(size, bytes, cell, moment) {
                if !self.is_cell_apart(bytes.len(), cell, moment) {
                    return Some(moment);
                }
                if found.is_none() {
                    found = Some(moment);
                }
            }
        }
        found
    }

    /// The moments of the cells of these bytes, where the length is as at one.
    fn moments_of_cells(
        &self,
        alloc: Global,
        size: usize,
        bytes: &[u8],
    ) -> Result<Option<Vec<usize>>, AllocError>
        ensures { IfOk result (λ found. IfSome found (λ cells. (cell : ℕ) → 512 * cell < length bytes.now
            → IsCellAt self.now.file.model self.now.file.window.now.moments.items self.now.file.number size bytes.now cell (slice_index cells.items cell))) }
    {
        let mut cells = Vec::new(alloc);
        for cell in 0..bytes.len().div_ceil(CELL) {
            let Some(moment) = self.moment_of_cell(size, bytes, cell) else {
                return Ok(None);
            };
            cells.push(moment)?;
        }
        Ok(Some(cells))
    }

    /// How many cells are apart of a file of this length, and the length.
    fn count_apart(&self, length: usize, size: usize, cells: &[usize]) -> u32 {
        let mut apart = u32::from(self.is_length_apart(size));
        for (cell, moment) in cells.iter().enumerate() {
            if self.is_cell_apart(length, cell, *moment) {
                apart = apart.saturating_add(1);
            }
        }
        apart
    }

    /// The moments of a file of these bytes, where the length is as at one. None where more than so many cells would be apart.
    fn moments_of_size(
        &self,
        alloc: Global,
        size: usize,
        bytes: &[u8],
        most: u32,
    ) -> Result<Option<FileMoments>, AllocError>
        requires { LengthMayBe self.now.file.model self.now.file.window.now.moments.items self.now.file.number self.now.common size }
        ensures { IfOk result (λ found. IfSome found (λ at.
            AreMoments self.now.file.model self.now.file.window.now.moments.items self.now.file.number self.now.common bytes.now at)) }
    {
        let FileIn { window, number, .. } = self.file;
        let length = bytes.len();
        if length != window.bytes_at(number, size).len() {
            return Ok(None);
        }
        let Some(cells) = self.moments_of_cells(alloc, size, bytes)? else {
            return Ok(None);
        };
        if self.count_apart(length, size, cells.as_slice()) > most {
            return Ok(None);
        }
        Ok(Some(FileMoments {
            length,
            size,
            cells,
        }))
    }

    /// The moments of a file of these bytes, of which no more than so many cells are apart. The length is as at the common one if it may be.
    pub fn moments(
        &self,
        alloc: Global,
        bytes: &[u8],
        most: u32,
    ) -> Result<Option<FileMoments>, AllocError>
        ensures { IfOk result (λ found. IfSome found (λ at.
            AreMoments self.now.file.model self.now.file.window.now.moments.items self.now.file.number self.now.common bytes.now at)) }
    {
        let (first, last) = self.file.sizes(self.common);
        if first <= self.common && self.common <= last {
            let found = self.moments_of_size(alloc, self.common, bytes, most)?;
            if found.is_some() {
                return Ok(found);
            }
        }
        for size in first..=last {
            let found = self.moments_of_size(alloc, size, bytes, most)?;
            if found.is_some() {
                return Ok(found);
            }
        }
        Ok(None)
    }
}

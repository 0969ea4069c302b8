//! As at which moments the cells of a file may be. The common moment does not matter, so it is found once for all.
ghost use Rattle.std.specs.Prelude.{◌≡◌, ◌+◌, ◌<◌, ◌≤◌, ℕ, nat_lt, true, false, vec_len};
ghost use Rattle.crash_lists.specs.Rules.{AreBy, AreOrdered, AreWhole, IsLate, IsWrittenSince, LengthMayBe, MayBe};

use crate::model::CrashModel;
use crate::window::{CELL, Window};
use std::alloc::{AllocError, Global};
use std::collections::HashSet;

/// As at which moments the cells of a file may be.
#[derive(Drop)]
pub struct Choices {
    pub number: u64,
    /// For each moment of the length, and for each cell: of the moments with the same bytes up to the end the first.
    sizes: Vec<Vec<Vec<usize>>>,
}

/// A file of a window.
#[derive(Clone, Copy)]
pub struct FileIn<'a> {
    pub window: &'a Window,
    pub model: CrashModel,
    pub number: u64,
}

/// The bytes of a cell; zeros past the end.
pub fn cell_bytes(alloc: Global, bytes: &[u8], cell: usize) -> Result<Vec<u8>, AllocError> {
    let begin = cell.saturating_mul(CELL).min(bytes.len());
    let end = begin.saturating_add(CELL).min(bytes.len());
    let mut held = Vec::with_capacity(alloc, CELL)?;
    held.extend_from_slice(bytes.get(begin..end).unwrap_or(&[]))?;
    for _ in held.len()..CELL {
        held.push(0)?;
    }
    Ok(held)
}

/// Whether a change after a moment counts at another one.
fn counts_at(change: usize, moment: usize) -> bool
    ensures { result ≡ nat_lt change moment }
{
    change < moment
}

/// Whether a cell may be there or not, where the length of its file counts a change or not, by ordered and delayed: an emptying counts
/// for both or for neither, and a write that makes the file longer has its bytes there.
fn is_ordered(long: bool, there: bool, is_emptied: bool, is_lengthened: bool) -> bool
    ensures emptied { result ≡ true → is_emptied ≡ true → long ≡ there }
    ensures longer { result ≡ true → is_lengthened ≡ true → long ≡ true → there ≡ true }
    ensures others { is_emptied ≡ false → is_lengthened ≡ false → result ≡ true }
    ensures both { long ≡ there → result ≡ true }
{
    if is_emptied && long != there {
        return false;
    }
    !long || there || !is_lengthened
}

/// Whether a cell may be there or not, where the length of its file counts an emptying or not, by posix: no bytes are lost by an emptying
/// after which the length is not, unless the cell was written since.
fn is_whole(long: bool, there: bool, is_emptied: bool, is_written: bool) -> bool
    ensures lost { result ≡ true → is_emptied ≡ true → long ≡ false → there ≡ true → is_written ≡ true }
    ensures others { is_emptied ≡ false → result ≡ true }
    ensures written { is_written ≡ true → result ≡ true }
    ensures both { long ≡ there → result ≡ true }
{
    !is_emptied || long || !there || is_written
}

impl FileIn<'_> {
    /// Whether a change after another one makes the file longer by a cell, and counts at a moment.
    fn is_written_since(&self, change: usize, moment: usize, cell: usize) -> bool
        requires { moment < vec_len self.now.window.now.moments }
        ensures { result ≡ true → IsWrittenSince self.now.window.now.moments.items change moment self.now.number cell }
    {
        for later in change.saturating_add(1)..moment {
            if self.window.is_lengthened(self.number, later, cell) {
                return true;
            }
        }
        false
    }

    /// Whether a cell may be as at a moment, where the length is as at another, by what ordered and delayed ask of one change.
    fn keeps_order(&self, change: usize, size: usize, moment: usize, cell: usize) -> bool
        requires { change + 1 < vec_len self.now.window.now.moments }
        ensures { result ≡ true → AreOrdered self.now.window.now.moments.items change self.now.number size moment cell }
    {
        is_ordered(
            counts_at(change, size),
            counts_at(change, moment),
            self.window.is_emptied(self.number, change),
            self.window.is_lengthened(self.number, change, cell),
        )
    }

    /// The same by what posix asks of it.
    fn keeps_whole(&self, change: usize, size: usize, moment: usize, cell: usize) -> bool
        requires change { change + 1 < vec_len self.now.window.now.moments }
        requires moment { moment < vec_len self.now.window.now.moments }
        ensures { result ≡ true → AreWhole self.now.window.now.moments.items change self.now.number size moment cell }
    {
        let is_emptied = self.window.is_emptied(self.number, change);
        let is_written = is_emptied && self.is_written_since(change, moment, cell);
        is_whole(
            counts_at(change, size),
            counts_at(change, moment),
            is_emptied,
            is_written,
        )
    }

    /// The same by what the rule asks of it.
    fn allows(&self, change: usize, size: usize, moment: usize, cell: usize) -> bool
        requires change { change + 1 < vec_len self.now.window.now.moments }
        requires moment { moment < vec_len self.now.window.now.moments }
        ensures { result ≡ true → AreBy self.now.model self.now.window.now.moments.items change self.now.number size moment cell }
    {
        match self.model {
            CrashModel::Ordered | CrashModel::Delayed => {
                self.keeps_order(change, size, moment, cell)
            }
            CrashModel::Posix => self.keeps_whole(change, size, moment, cell),
        }
    }

    /// Whether a cell may be as at a moment, where the length is as at another.
    pub fn may_be(&self, size: usize, moment: usize, cell: usize) -> bool
        requires { moment < vec_len self.now.window.now.moments }
        ensures { result ≡ true → MayBe self.now.model self.now.window.now.moments.items self.now.number size moment cell }
    {
        for change in 0..self.window.changes() {
            if !self.allows(change, size, moment, cell) {
                return false;
            }
        }
        true
    }

    /// By delayed, the first moment as at which the length may be, where names are as at the common one.
    fn first_late(&self, common: usize) -> usize
        ensures { (size : ℕ) → result ≤ size → size ≤ common → IsLate self.now.window.now.moments.items self.now.number common size }
    {
        let mut first = self.window.made_at(self.number).min(common);
        for change in 0..common.min(self.window.changes()) {
            if self.window.is_emptied(self.number, change) {
                first = first.max(change.saturating_add(1));
            }
        }
        first
    }

    /// The first and the last moment as at which the length may be, where names are as at the common one.
    pub fn sizes(&self, common: usize) -> (usize, usize)
        ensures { (size : ℕ) → result.0 ≤ size → size ≤ result.1 → LengthMayBe self.now.model self.now.window.now.moments.items self.now.number common size }
    {
        match self.model {
            CrashModel::Ordered => (common, common),
            CrashModel::Delayed => (self.first_late(common), common),
            CrashModel::Posix => (0, self.window.changes()),
        }
    }

    /// The moments as at which a cell may be, where the length is as at one: of those with the same bytes up to the end the first.
    fn moments(&self, alloc: Global, size: usize, cell: usize) -> Result<Vec<usize>, AllocError> {
        let length = self.window.bytes_at(self.number, size).len();
        let mut moments = Vec::new(alloc);
        let mut known: HashSet<Vec<u8>> = HashSet::new(alloc);
        for moment in 0..self.window.moments() {
            if self.may_be(size, moment, cell) {
                let bytes = self.window.bytes_at(self.number, moment);
                let bytes = bytes.get(..length).unwrap_or(bytes);
                if known.insert(cell_bytes(alloc, bytes, cell)?)? {
                    moments.push(moment)?;
                }
            }
        }
        Ok(moments)
    }

    /// The moments of each cell, where the length is as at one.
    fn cells(&self, alloc: Global, size: usize) -> Result<Vec<Vec<usize>>, AllocError> {
        let length = self.window.bytes_at(self.number, size).len();
        let mut cells = Vec::new(alloc);
        for cell in 0..length.div_ceil(CELL) {
            cells.push(self.moments(alloc, size, cell)?)?;
        }
        Ok(cells)
    }
}

impl Choices {
    /// Those of the file of a number.
    pub fn of(alloc: Global, file: FileIn<'_>) -> Result<Choices, AllocError> {
        let mut sizes = Vec::new(alloc);
        for size in 0..file.window.moments() {
            sizes.push(file.cells(alloc, size)?)?;
        }
        Ok(Choices {
            number: file.number,
            sizes,
        })
    }

    /// The moments of each cell, where the length is as at one.
    pub fn of_size(&self, size: usize) -> &[Vec<usize>] {
        match self.sizes.get(size) {
            Some(cells) => cells.as_slice(),
            None => &[],
        }
    }
}

//! The files between two syncs.
ghost use Rattle.std.specs.Prelude.{◌≡◌, ◌≢◌, ◌/◌, ◌+◌, ◌-◌, ◌<◌, ◌≤◌, ◌++◌, ◌∷◌, [], ℕ, IfOk, OnOk, Some, None, is_some, IfNone, IfSome, true, vec_len};
ghost use Rattle.crash_lists.specs.Rules.{bytes_at as bytes_in, is_emptied as empties, is_lengthened as lengthens, living_at as living_in};

use files::FileTable;
use std::alloc::{AllocError, Global};

/// How many bytes of a file are one cell.
pub const CELL: usize = 512;

/// The files at each moment since a sync: as they were then, and after each change since.
#[derive(Drop)]
pub struct Window {
    moments: Vec<FileTable>,
    /// How many changes were made since the boot, by the last moment.
    made: u64,
}

/// The number of the cell in which a byte lies.
fn cell_of(place: usize) -> usize
    ensures { result ≡ place / 512 }
{
    place / CELL
}

impl Window {
    /// The window that a sync begins, with the files then. So many changes were made since the boot.
    pub fn new(alloc: Global, made: u64, files: &FileTable) -> Result<Window, AllocError>
        ensures { IfOk result (λ window. (window.moments.items ≡ files.now ∷ []) × (window.made ≡ made)) }
    {
        let mut moments = Vec::new(alloc);
        moments.push(files.try_clone()?)?;
        Ok(Window { moments, made })
    }

    /// The same, in memory of its own.
    pub fn try_clone(&self, alloc: Global) -> Result<Window, AllocError> {
        let mut moments = Vec::with_capacity(alloc, self.moments.len())?;
        for files in &self.moments {
            moments.push(files.try_clone()?)?;
        }
        Ok(Window {
            moments,
            made: self.made,
        })
    }

    /// A sync begins it anew, with the files then. So many changes were made since the boot.
    pub fn begin_anew(&mut self, made: u64, files: &FileTable) -> Result<(), AllocError>
        ensures { OnOk result ((self.new.moments.items ≡ files.now ∷ []) × (self.new.made ≡ made)) }
    {
        let files = files.try_clone()?;
        self.moments.clear();
        self.moments.push(files)?;
        self.made = made;
        Ok(())
    }

    /// Adds the files, where a change made others of them: so many were made since the boot.
    pub fn note(&mut self, made: u64, files: &FileTable) -> Result<(), AllocError>
        ensures same { made ≡ self.old.made → self.new.moments.items ≡ self.old.moments.items }
        ensures more { made ≢ self.old.made → OnOk result (self.new.moments.items ≡ self.old.moments.items ++ files.now ∷ []) }
        ensures made { OnOk result (self.new.made ≡ made) }
    {
        if made != self.made {
            self.moments.push(files.try_clone()?)?;
            self.made = made;
        }
        Ok(())
    }

    /// How many changes were made since the boot, by the last moment.
    pub fn made(&self) -> u64
        ensures { result ≡ self.now.made }
    {
        self.made
    }

    /// How many changes there are. The moments are 0 to this.
    pub fn changes(&self) -> usize
        ensures { result ≡ vec_len self.now.moments - 1 }
    {
        self.moments.len().saturating_sub(1)
    }

    /// How many moments there are.
    pub fn moments(&self) -> usize
        ensures { result ≡ vec_len self.now.moments }
    {
        self.moments.len()
    }

    /// The files at a moment, if there is one.
    pub fn files_at(&self, moment: usize) -> Option<&FileTable> {
        self.moments.get(moment)
    }

    /// The bytes of the file of a number at a moment, if it lives then.
    fn living_at(&self, number: u64, moment: usize) -> Option<&[u8]>
        ensures some { IfSome result (λ bytes. living_in self.now.moments.items number moment ≡ Some bytes.now) }
        ensures none { IfNone result (living_in self.now.moments.items number moment ≡ None) }
    {
        let files = self.moments.get(moment)?;
        let place = files.place(number)?;
        Some(files.bytes(place))
    }

    /// The bytes that the file of a number had last, up to a moment; none before it was made.
    pub fn bytes_at(&self, number: u64, moment: usize) -> &[u8]
        ensures { result.now ≡ bytes_in self.now.moments.items number moment }
    {
        for back in 0..=moment {
            if let Some(bytes) = self.living_at(number, moment.saturating_sub(back)) {
                return bytes;
            }
        }
        &[]
    }

    /// The first moment at which the file of a number lives.
    pub fn made_at(&self, number: u64) -> usize
        ensures { (t : ℕ) → t < vec_len self.now.moments → is_some (living_in self.now.moments.items number t) ≡ true → (result ≤ t) × (is_some (living_in self.now.moments.items number result) ≡ true) }
    {
        for moment in 0..self.moments.len() {
            if self.living_at(number, moment).is_some() {
                return moment;
            }
        }
        self.changes()
    }

    /// Whether the change after a moment takes all bytes of the file of a number.
    pub fn is_emptied(&self, number: u64, moment: usize) -> bool
        requires { moment + 1 < vec_len self.now.moments }
        ensures { result ≡ empties (living_in self.now.moments.items number moment) (living_in self.now.moments.items number (moment + 1)) }
    {
        let Some(before) = self.living_at(number, moment) else {
            return false;
        };
        let Some(after) = self.living_at(number, moment + 1) else {
            return false;
        };
        !before.is_empty() && after.is_empty()
    }

    /// Whether the change after a moment makes the file of a number longer, and this cell of it ends after its old end.
    pub fn is_lengthened(&self, number: u64, moment: usize, cell: usize) -> bool
        requires { moment + 1 < vec_len self.now.moments }
        ensures { result ≡ lengthens (living_in self.now.moments.items number moment) (living_in self.now.moments.items number (moment + 1)) cell }
    {
        let Some(before) = self.living_at(number, moment) else {
            return false;
        };
        let Some(after) = self.living_at(number, moment + 1) else {
            return false;
        };
        let (old, new) = (before.len(), after.len());
        old < new && cell_of(old) <= cell && cell <= cell_of(new - 1)
    }
}

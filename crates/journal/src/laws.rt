//! Laws of what a disk holds.
ghost use Rattle.std.specs.Prelude.{◌≡◌, ◌<◌, ◌⊎◌, List, ℕ, length, slice_index};
ghost use Rattle.disk_model.specs.declared.change.NamedFile.{NamedFile};
ghost use Rattle.disk_model.specs.Held.{IsHeld};
ghost use Rattle.journal.specs.declared.fault.DiskFault.{DiskFault};
ghost use Rattle.journal.specs.Faults.{IsFault};

/// A law: a disk of bytes holds files or has one fault, and never both.
pub fn one_outcome()
    ensures some { (disk : List ℕ) → length disk ≡ 2097152 → ((i : ℕ) → slice_index disk i < 256)
        → ((files : List NamedFile) × IsHeld disk files) ⊎ ((fault : DiskFault) × IsFault disk fault) }
    ensures held_is_sound { (disk : List ℕ) (files : List NamedFile) (fault : DiskFault) → IsHeld disk files → IsFault disk fault → ⊥ }
    ensures one_fault { (disk : List ℕ) (fault other : DiskFault) → IsFault disk fault → IsFault disk other → fault ≡ other }
{}

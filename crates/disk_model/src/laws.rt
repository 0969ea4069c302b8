//! Laws over all runs of a disk.
ghost use Rattle.std.specs.Prelude.{List, [], ◌++◌, ℕ, Some, ◌≡◌, ◌≤◌, ◌<◌, ◌↔◌, length, take, slice_index};
ghost use Rattle.disk_model.specs.declared.change.Change.{Change};
ghost use Rattle.disk_model.specs.declared.change.NamedFile.{NamedFile};
ghost use Rattle.disk_model.specs.declared.change.Piece.{Piece};
ghost use Rattle.disk_model.specs.Files.{FilesHoldBytes, Follow, IsFormed, IsMade, MayCome, changed, files_after};
ghost use Rattle.disk_model.specs.Held.{IsHeldTo, IsHeld, selected_half, start_of, end_of};
ghost use Rattle.disk_model.specs.Rebuild.{CanBeRebuilt};
ghost use Rattle.disk_model.specs.Storage.{Device, Storage, completed, piece_at, sent, with_completion};
ghost use Rattle.disk_model.specs.Runs.{Move, IsOrderly, changes_in_moves, run_after, first_run};
ghost use Rattle.disk_model.specs.Crash.{IsCrashOf};

/// A law, of crashes. Take any run from a disk that holds files, with changes that are possible where they come, and crash it at
/// any moment. The disk that is left holds the files after a prefix of those changes, which has each committed one.
pub fn crashes()
    ensures { (disk : List ℕ) (gate : ℕ) (files : List NamedFile) → IsHeldTo disk gate files
        → (moves : List Move) → Follow files (changes_in_moves moves)
        → (left : List ℕ) → IsCrashOf (run_after files (first_run disk gate) moves).storage.device left
        → (k : ℕ) × ((run_after files (first_run disk gate) moves).storage.committed ≤ k) × (k ≤ length (changes_in_moves moves))
        × IsHeld left (files_after files (take k (changes_in_moves moves))) }
{}

/// A law: a crash in the middle of a move leaves no disk that a crash after the move could not leave. The middle is after a write's
/// completion, before the next stage is submitted; or between the pieces of a stage, which are submitted one by one.
pub fn moves_leave_no_other_disks()
    ensures completion { (st : Storage) (at : ℕ) (p : Piece) (left : List ℕ) → piece_at st.device.in_flight at ≡ Some p
        → IsCrashOf (with_completion st.device at p) left → IsCrashOf (completed st at).device left }
    ensures submission { (v : Device) (first others : List Piece) (left : List ℕ)
        → IsCrashOf (sent v first) left → IsCrashOf (sent v (first ++ others)) left }
{}

/// A law of any run, whatever its disk holds and whatever changes come. At most all changes are committed. A group is on its way
/// exactly while a write is in flight or has failed; with it more changes are committed, at most all.
pub fn runs_are_orderly()
    ensures { (disk : List ℕ) (gate : ℕ) (files : List NamedFile) (moves : List Move)
        → IsOrderly (run_after files (first_run disk gate) moves) }
{}

/// A law: a disk of zeros holds the empty list of files; its first gate that is not open is at 64.
pub fn zeros_hold_nothing()
    ensures { (disk : List ℕ) → length disk ≡ 2097152 → ((i : ℕ) → slice_index disk i ≡ 0) → IsHeldTo disk 64 [] }
{}

/// A law: files that possible changes make are few and short, and a checkpoint of them makes them again and always fits.
pub fn checkpoints_fit()
    ensures { (files : List NamedFile) → IsMade files → CanBeRebuilt files }
{}

/// A law: where possible changes made the files, and one more change is possible, they and it made the files after it.
pub fn made_files_change()
    ensures { (files : List NamedFile) (change : Change) → IsMade files → IsFormed change → MayCome files change → IsMade (changed files change) }
{}

/// A law: files that possible changes make hold bytes: each byte of a name and of a file is below 256.
pub fn made_files_hold_bytes()
    ensures { (files : List NamedFile) → IsMade files → FilesHoldBytes files }
{}

/// A law: some changes and then others do what all of them do. All are possible exactly where the first are, and the others after
/// them. So files that possible changes made stay such files after more possible changes.
pub fn changes_come_in_turn()
    ensures files { (files : List NamedFile) (first later : List Change)
        → files_after files (first ++ later) ≡ files_after (files_after files first) later }
    ensures possible { (files : List NamedFile) (first later : List Change)
        → Follow files (first ++ later) ↔ (Follow files first × Follow (files_after files first) later) }
    ensures made { (files : List NamedFile) (later : List Change) → IsMade files → Follow files later
        → IsMade (files_after files later) }
{}

/// A law: possible changes made the files that a disk holds.
pub fn held_files_are_made()
    ensures { (disk : List ℕ) (gate : ℕ) (files : List NamedFile) → IsHeldTo disk gate files → IsMade files }
{}

/// A law: a disk holds at most one list of files, up to at most one gate.
pub fn held_once()
    ensures { (disk : List ℕ) (gate other : ℕ) (files others : List NamedFile) → IsHeldTo disk gate files → IsHeldTo disk other others → (files ≡ others) × (gate ≡ other) }
{}

/// A law: where a disk holds files, its first gate that is not open lies in the half that its byte 0 selects.
pub fn gates_lie_within()
    ensures { (disk : List ℕ) (gate : ℕ) (files : List NamedFile) → IsHeldTo disk gate files
        → (start_of (selected_half (slice_index disk 0)) ≤ gate) × (gate < end_of (selected_half (slice_index disk 0))) }
{}

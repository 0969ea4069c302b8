//! What stands on the disk, a write-ahead log in two halves: changes of files, records, groups and checkpoints. `docs/DISK.md` has
//! the bytes; read `specs/Held` and then `specs/Runs`. The law `crashes` is what all is for: a crash keeps a prefix of the changes,
//! with every committed one in it.
#![tactic(auto)]

mod change;
mod laws;
mod limits;

pub use change::{Change, NamedFile, Piece};
pub use laws::{
    changes_come_in_turn, checkpoints_fit, crashes, gates_lie_within, held_files_are_made,
    held_once, made_files_change, made_files_hold_bytes, moves_leave_no_other_disks,
    runs_are_orderly, zeros_hold_nothing,
};
pub use limits::{LONGEST_FILE, LONGEST_FILE_WRITE, LONGEST_NAME, MOST_FILES};

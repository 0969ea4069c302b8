//! Commits that a file of the host holds before they count. Read `DiskFile` first, a file that is written at places and synced, and
//! then `commit_stage`: it writes what is in flight, syncs, and only then has the core complete it.
#![tactic(auto)]

mod completions;
mod core_call;
mod disk_file;
mod file_notes;
mod host_file;
mod report;
mod stage;
mod staged_core;
mod storing;

pub use completions::Completions;
pub use core_call::CoreCall;
pub use disk_file::{DiskFile, FileCall, HostRefused};
pub use file_notes::FileNotes;
pub use host_file::{HostCalls, HostFile, PlacedFile};
pub use stage::commit_stage;
pub use staged_core::StagedCore;
pub use storing::store;

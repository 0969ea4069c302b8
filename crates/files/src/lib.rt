//! The files of a kernel in memory, into which changes fold. `FileList` knows a file by its place, as the records of a disk do.
//! `FileTable` adds a number that is never used again, as descriptors need. Each change does exactly what `disk_model` says, and
//! where memory runs out it does nothing.
#![tactic(auto)]

mod list;
mod table;

pub use list::{FileList, part_of};
pub use table::FileTable;

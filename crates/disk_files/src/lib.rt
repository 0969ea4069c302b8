//! Files on disks that are files of the host: `cat_file` copies one out, `put_file` one in, and `print_differences` compares two disks.
//! A file is put as one group of changes, by the stages of a durable run, so that a disk is never left in between.
//!
//! Read `begin_put` first. Proved of the group that it begins: its changes are possible in order, by them the file of the name has the
//! given bytes, every other file stays as it is, and no change is left for later.
#![tactic(auto)]

mod begun;
mod comparing;
mod edit;
mod names;
mod putting;
mod reading;

pub use comparing::print_differences;
pub use putting::put_file;
pub use reading::{cat_file, files_on};

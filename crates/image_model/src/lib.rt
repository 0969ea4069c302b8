//! The definition of an image's file: the fields of its headers, the twelve checks in their order, and the program that it names.
//! Read `specs/Checks` first, then `ElfFault`. The crate `elf32` is the code that keeps to it.
#![tactic(auto)]

mod fault;
mod header;

pub use fault::ElfFault;
pub use header::{FileHeader, ProgramHeader};

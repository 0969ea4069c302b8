//! Reads ELF32 files as images of programs, and writes them. Read `parse` and `write` first, which are of files that hold images;
//! `image_model` defines what such a file means. `round_trips` proves that what is written is read again, and `sound_files` which
//! files are read. `image_of` reads executables as stock linkers write them: with sections, other alignments, and program headers of
//! other kinds. `specs/LinkChecks` and `specs/LinkedPrograms` define which it refuses, and what it takes of the others.
#![tactic(auto)]

mod checks;
mod header;
mod laws;
mod link_checks;
mod link_fault;
mod linking;
mod little_endian;
mod parsing;
mod segments;
mod writing;

pub use image_model::ElfFault;
pub use laws::{round_trips, sound_files};
pub use link_checks::MOST_LINKED_BYTES;
pub use link_fault::LinkFault;
pub use linking::image_of;
pub use machine_model::Image;
pub use parsing::parse;
pub use writing::write;

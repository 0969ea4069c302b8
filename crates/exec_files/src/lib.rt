//! Programs in files of the host, of whatever kind: an image, an executable of a stock linker, or a source of the assembler. Read
//! `program_of` first. `Places` say what stands at an address: a line of the source, or a function and a line of the file that it was compiled
//! of. Only safety is proved.
#![tactic(auto)]

mod code_lines;
mod cursor;
mod functions;
mod loading;
mod parts;
mod program;
mod sections;
mod unit_headers;

pub use loading::{load_places, program_of, refused};
pub use parts::{Part, PartName, WordText};
pub use program::{LoadedProgram, Names, PlaceText, Places};

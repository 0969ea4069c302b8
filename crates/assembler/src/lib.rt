//! An assembler: a source's lines to statements, each with its place, and these to an image and a listing. Read `assemble` first: its
//! comment has the order of faults. The laws join its definitions to the instruction table, and say that what it assembles may be
//! loaded.
#![tactic(auto)]

mod assembly;
mod fault;
mod filling;
mod labels;
mod laws;
mod layout;
mod listing;

pub use assembly::assemble;
pub use fault::{AsmFault, Cause};
pub use labels::Spot;
pub use laws::{
    assembled_is_listed, images_are_by_lines, loads_are_right, one_outcome, parts_add_up,
    word_meanings,
};
pub use layout::Position;
pub use listing::{Listing, ListingRow};

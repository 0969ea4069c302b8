//! A law of sources: what becomes of one that assembles, from its text to the machine that is loaded from its file.
//!
//! Read `sources_are_loaded`: the machine fetches the very words that the source's listing has.
#![tactic(auto)]

ghost use Rattle.std.specs.Prelude.{List, ℕ};
ghost use Rattle.machine_model.specs.Images.{Program};
ghost use Rattle.assembler.specs.Assembly.{Assembles};
ghost use Rattle.assembler.specs.declared.listing.ListingRow.{ListingRow};
ghost use Rattle.source_laws.specs.Loaded.{IsLoadedAsListed};

use assembler::{assembled_is_listed, images_are_by_lines};
use elf32::round_trips;
use machine::segments_are_loaded;

/// A law of every source that assembles. The file that is written of its image names this image and no other, and reading it is
/// refused for want of memory alone. In the first state of the image each listed word is fetched at its row's address. So are the
/// words of each instruction in text, one after the other from its address on, and they mean what it stands for.
///
/// `assembler::assemble` ensures `Assembles` of what it gives, and `elf32::write` that it writes this file. `elf32::parse` ensures
/// that what it reads is what the file names, and `machine::Machine::load` that what it loads is this first state.
pub fn sources_are_loaded()
    ensures { (source : List ℕ) (image : Program) (listing : List ListingRow) → Assembles source image listing
        → IsLoadedAsListed source image listing }
{
    assembled_is_listed();
    images_are_by_lines();
    round_trips();
    segments_are_loaded();
}

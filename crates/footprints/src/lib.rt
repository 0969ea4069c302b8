//! The footprint of each event of a run, which is the carriers that it reads and those that it writes; and the cone of an event, the
//! events on which it rests.
//!
//! Read `Footprints` first. The numbers that it answers are those of the events in the cone. Noting takes no memory where there is
//! room.
#![tactic(auto)]

mod footprints;
mod laws;
mod wanted;

pub use footprints::Footprints;
pub use kernel_model::Carrier;
pub use laws::footprints_grow;

//! The simulated disk, whose writes are submitted first and complete later, in any order. Read `SimDisk` first. A crash leaves any
//! bytes where a write is in flight or has failed, and the completed ones elsewhere. Two laws say that `crash` makes each such disk
//! of bytes, and no other.
#![tactic(auto)]

mod copying;
mod disk;
mod laws;
mod ranges;
mod refusal;
mod shared_bytes;

pub use copying::copies_of;
pub use disk::{SIZE, SimDisk};
pub use laws::{crashes_are_fills, fills_are_crashes};
pub use refusal::DiskRefusal;

//! Records of the disk: its two halves, the bytes of a record's body, the changes of a checkpoint, and recovery. `docs/DISK.md` has
//! the format; read `recover` first. Unless memory runs out it gives the files that the disk holds, or its first fault. The law
//! `one_outcome` says that every disk has one of the two, and never both.
#![tactic(auto)]

mod disk;
mod fault;
mod halves;
mod laws;
mod reading;
mod rebuilding;
mod recovery;
mod writing;

pub use disk::{open, recover};
pub use disk_model::Change;
pub use fault::DiskFault;
pub use halves::{first_gate, half_end, half_of, selector_of};
pub use laws::one_outcome;
pub use rebuilding::rebuild;
pub use writing::body_of;

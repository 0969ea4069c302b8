//! The core of the bench: processes, files and a disk, one event at a time. Read `Core` first, and `Core::boot`, `Core::apply` and
//! `Core::lend` in it. Its calls promise what `kernel_laws::headline` says of whole runs.
#![tactic(auto)]

mod applier;
mod boot;
mod causal_past;
mod copying;
mod cores;
mod drain;
mod halt;
mod keeping;
mod known;
mod standing;
mod sums;
mod views;

pub use applier::{Applier, apply_each};
pub use boot::BootFault;
pub use cores::Core;
pub use disk_model::Piece;
pub use journal::DiskFault;
pub use kernel_laws::{cones, counts_never_fall, drains_are_events, interleavings, runs_go_on};
pub use kernel_model::{Answer, Event, Outcome, Refused, Standing};
pub use kernel_step::{
    ConeFault, Done, Footprints, KernelTables, Loan, Machine, Program, Rejected,
};
pub use known::known_loans_stay;
pub use simdisk::SimDisk;

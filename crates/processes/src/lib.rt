//! The table of processes: what the kernel keeps of each process beside its machine, which is its descriptors, its children left to
//! collect, and how it has ended. Read `ProcTable` first: each change is that of the definitions. A fork takes no memory where
//! `reserve` made room.
#![tactic(auto)]

mod descriptors;
mod entry;
mod table;

pub use descriptors::Descriptors;
pub use kernel_model::{Descriptor, Slot};
pub use table::{EndedChild, MOST_PROCESSES, ProcTable};

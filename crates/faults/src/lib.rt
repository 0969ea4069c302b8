//! Why the program `bench` ends early, whatever its command: what is refused, of which file, and why. A fault carries them from where it
//! happens, so that nothing is read again to tell it. Read `Fault` and `ForPeople` first, and then the table, `Refusal::row`. Only safety is
//! proved.
#![tactic(auto)]

mod exploration;
mod fault;
mod fill;
mod reason;
mod refusal;
mod whole_line;

pub use exploration::ExplorationFault;
pub use fault::{Fault, ForPeople, at_path};
pub use fill::Fill;
pub use refusal::{Refusal, Role};
pub use whole_line::write_line;

//! A session with gdb over a reader and a writer. One thread reads; another answers, and between the slices of a run looks at what
//! came in. Read `converse` first, then `Session`, which is a packet in and packets out. Only safety is proved.
#![tactic(auto)]

mod conversation;
mod going;
mod history;
mod inbox;
mod keeper;
mod messages;
mod monitor;
mod session;
mod threading;

pub use keeper::Keeper;
pub use session::Session;
pub use threading::converse;

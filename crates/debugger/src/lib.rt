//! A program's machine that goes forwards and back along a trace: its system calls take the replies of the trace in order. Read
//! `Debugger` first. Each rewind comes to the state that the machine had at that count, and costs at most 1,023 instructions.
#![tactic(auto)]

mod access;
mod backward;
mod breakpoints;
mod coasting;
mod debugger;
mod fault;
mod halt;
mod hits;
mod kept;
mod next_access;
mod place;
mod running;
mod stops;
mod watching;

pub use access::{Access, AccessKind, access_at};
pub use debugger::{Debugger, MOST_INSTRUCTIONS};
pub use fault::DebugFault;
pub use machine::{Cause, Image, Machine, Reply};
pub use stops::{Stepped, Stopped};
pub use watching::{Watch, WatchKind};

//! The call or the trap at which a machine stands, or by which an event entered the kernel, as texts with the bytes of what is written and
//! of names; and on what a process waits. Read `call_text` first. Only safety is proved.
#![tactic(auto)]

mod calls_at;
mod waits;

pub use calls_at::{call_at, call_text, entered_text, style_of, text_at};
pub use waits::{Awaited, awaited_at, could_end};

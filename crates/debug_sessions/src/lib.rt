//! The commands `debug` and `gdb`: a program is debugged with a trace, or with a kernel that answers its calls.
//!
//! Read `debug_file` and `answer_gdb` first. Only safety is proved of them; what they read and print is tested.
#![tactic(auto)]

mod debugging;
mod fault;
mod gdb;

pub use debugging::{debug_file, debug_live};
pub use gdb::answer_gdb;

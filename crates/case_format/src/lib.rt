//! Cases as they stand in files: what a case sets up and runs, as values, and what came of a run beside what is wanted.
//!
//! Read `case_files` first: it says how a file is parted into cases, and reads all of it or refuses it. Then come the notations:
//! `kernel_calls` of programs that call the kernel, and `sessions` of runs by the command line. `arguments`, `bare` and `check_text`
//! serve those who have another notation, or no case in a file.
#![tactic(auto)]

mod case_files;
mod command_lines;
mod comparing;
mod hex_parts;
mod kernel_calls;
mod lines;
mod notation;
mod ran;
mod sessions;

pub use case_files::{Case, Choice};
pub use command_lines::arguments;
pub use comparing::check_text;
pub use kernel_calls::{CallsCase, IMAGE_NAME};
pub use lines::bare;
pub use ran::Ran;
pub use sessions::{NamedBytes, Run, Step, check_missing, session_steps};

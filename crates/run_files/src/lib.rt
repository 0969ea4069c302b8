//! What commands run, of files of the host. `subject_in` reads programs of any kind, or a script, for all commands but `run`, whose core
//! `boot` makes of images, and which has its disk kept and prints lines about processes. Read these two first. Only safety is proved.
#![tactic(auto)]

mod folders;
mod inputs;
mod process_lines;
mod setup;
mod subject;

pub use folders::make_folder;
pub use inputs::{Input, program_in};
pub use process_lines::print_processes;
pub use setup::{Booted, boot, boot_on, keep_disk, of_disk};
pub use subject::{Subject, of_subject, subject_in};

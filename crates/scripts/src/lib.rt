//! Scripts: programs to be booted, and what is done with them line by line.
//!
//! Read `script` first: a script is read whole, by its set-up lines (`setup`) and its `steps`. Then read `playing`, whose player
//! does the steps and tells a `Visitor` what happens. `Setup::read` makes a `Launch`, which boots without the host's files; `replaying` has
//! a script played, and prints what each line gives. Of a core that is booted it is proved that it has no history, and beside that only safety.
#![tactic(auto)]

mod cone;
mod disk_with;
mod file_lines;
mod last_boot;
mod launch;
mod playing;
mod printing;
mod replaying;
mod script;
mod setup;
mod setup_lines;
mod steps;
mod tapes;
mod texts;
mod words;

pub use cone::{cone_events, cone_numbers, replay_cone};
pub use file_lines::write_files;
pub use host_files::is_script;
pub use last_boot::LastBoot;
pub use launch::{Launch, LaunchProgram, boot_fault};
pub use playing::{LineAnswer, Visitor, play_all};
pub use printing::{bytes_text, print_reply};
pub use replaying::replay;
pub use script::Script;
pub use setup::Setup;
pub use setup_lines::write_launch;
pub use steps::{Action, Question, Step, process_of};
pub use tapes::{Tape, TapeList};
pub use texts::{AnswerText, EventText};
pub use words::{Terminal, is_file_name};

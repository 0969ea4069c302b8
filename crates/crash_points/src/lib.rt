//! A crash of a run: when it came, what the run had promised by then, and what the crash left.
//!
//! A run goes its `Course`, step by step as `Playing`. Crashes are tried on a `Mirror` of its disk, and boots made on a `SpareDisk`. What crashes
//! leave a `Taker` takes, until it says `Stop`: files, with the `Promise` and the `CrashPlace`, and what is `Told` of them. Beside safety it is
//! proved what a `Promise` holds, and by two laws which bytes of a disk decide its files.
#![tactic(auto)]

mod course;
mod digests;
mod laws;
mod mirror;
mod point;
mod promise;
mod putting;
mod recovered;
mod spare;
mod stop;
mod taker;
mod told;

pub use course::{Course, Playing, RunEnd, play, play_some, play_to_end};
pub use digests::{digest_of, digest_of_files, digest_of_window};
pub use laws::{crashes_elsewhere_leave_the_files, files_stand_before_the_gate};
pub use mirror::{Crashed, Mirror};
pub use point::{CrashPlace, CrashPoint, Telling};
pub use promise::Promise;
pub use spare::SpareDisk;
pub use stop::Stop;
pub use taker::Taker;
pub use told::{ListedChanges, Told};

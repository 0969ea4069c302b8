//! Tests of cores: cases in files, and runs that crash or whose writes fail.
//!
//! Read `cases` first: it runs the cases of a file, each line compared with what stands there beside it. `crashes` crashes a writer
//! and a program that removes and renames its files, and compares what is left with a plain fold of the changes. `failures` does so
//! after each write of a group has failed. `watching` makes a call once more that is refused for want of memory. Each function
//! gives a line that says what was tried, or an error that says what came out otherwise. `program_cases` too looks at cores by
//! `TestCore`.
#![tactic(auto)]

mod cases;
mod changers;
mod cores;
mod crashes;
mod failures;
mod plain_files;
mod rounds;
mod seen;
mod watching;

pub use cases::check_file;
pub use cores::{TestCore, recover};
pub use crashes::{crash_renamer, crash_writer};
pub use failures::fail_talker;

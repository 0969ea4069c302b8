//! Runs of the program `bench`, each compared with what is wanted.
//!
//! Read `check_file` first: it runs the cases of a file of `.calls` or `.sessions`, which `case_format` reads. Of each case of `.calls`
//! the runs are gone through once more, event by event, each beside the run of its cone alone (`check_cones`). What no case can say
//! is a function each. Outputs fail (`faulty_output`), a disk's file has links and rights (`kept_disk`), and standard error is looked
//! at write by write (`whole_lines`). Each gives a line that says what was tried. What comes out otherwise is refused, with a text
//! that says how. The program itself is a parameter (`program`).
#![tactic(auto)]

mod case_files;
mod cone_runs;
mod cone_told;
mod cone_visible;
mod cones;
mod faulty_output;
mod kept_disk;
mod playing;
mod program;
mod running;
mod whole_lines;

pub use case_files::check_file;
pub use faulty_output::{check_endless_run, check_faulty_output};
pub use kept_disk::check_kept_disk;
pub use program::{Input, Output, Program};
pub use whole_lines::check_whole_lines;

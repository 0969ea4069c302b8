//! The cases of a file, in the notation that its name ends with: `.calls` for programs that call the kernel, `.sessions` for runs
//! of the program by its command line. `case_format` says how a file is parted into cases, and how one is chosen.
use crate::playing::{play_calls, play_session};
use crate::program::Program;
use anyhow::Error;
use case_format::Choice;
use std::fs::{self, File};
use std::rt::Files;

/// Runs the lines of a case, in the notation that the name of its file ends with.
fn check_case<R: Files<File = File> + AllocGlobal>(
    rt: &R,
    program: Program<'_>,
    file: &str,
    lines: &str,
) -> Result<(), Error>
    requires { IsAlwaysCallable program.now }
{
    if file.ends_with(".calls") {
        play_calls(rt, program, lines)
    } else {
        play_session(rt, program, lines)
    }
}

/// Runs the chosen cases of a file, each of them whatever came of those before, and gives the line that is printed where all pass.
/// For each that fails standard error has a line: the word that names it, and why.
pub fn check_file<R: Files<File = File> + AllocGlobal + Eprint>(
    rt: &R,
    program: Program<'_>,
    choice: Choice<'_>,
) -> Result<String, Error>
    requires { IsAlwaysCallable program.now }
{
    let file = choice.file;
    let text = fs::read_to_string(rt, file)?;
    let mut failed = 0usize;
    for case in choice.cases(rt, text.as_str())? {
        if let Err(error) = check_case(rt, program, file, case.lines) {
            let title = case.title;
            eprintln!(rt; "{file}:{title}: {error}")?;
            failed = failed.saturating_add(1);
        }
    }
    choice.outcome(rt.alloc(), failed)
}

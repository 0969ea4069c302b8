//! Tests standard error: each line goes out whole, by one write.
use crate::program::{Input, Output, Program};
use crate::running::ENDS;
use anyhow::{Error, ensure};
use case_format::arguments;
use std::alloc::Global;
use std::fs::{self, File};
use std::rt::Files;

/// Runs the program with these words, parted by blanks. It has to write to standard error so many times, each time whole lines.
fn check_writes(alloc: Global, program: Program<'_>, line: &str, writes: usize) -> Result<(), Error>
    requires { IsAlwaysCallable program.now }
{
    let words = arguments(alloc, line)?;
    let mut out = Output::new(alloc);
    let mut err = Output::new(alloc);
    let _status = program(&words, &mut Input::new(alloc, b"")?, &mut out, &mut err);
    ensure!(err.parts == 0, "{line}: a part of a line was written");
    ensure!(err.writes == writes, "{line}: {0} writes", err.writes);
    Ok(())
}

/// Command lines, and how many lines each has on standard error: faults of each kind, a faulty command line, and the lines of a run's
/// processes.
const WRITES: [(&str, usize); 7] = [
    ("replay there-is-no-such-file", 1),
    ("list ends.s", 1),
    ("asm ends.s", 1),
    ("run --workers 0 ends", 1),
    ("asm ends.s ends", 0),
    ("run ends ends ends", 3),
    ("run --fail 1 ends", 1),
];

/// Each line goes out by one write.
pub fn check_whole_lines<R: Files<File = File> + AllocGlobal>(
    rt: &R,
    program: Program<'_>,
) -> Result<String, Error>
    requires { IsAlwaysCallable program.now }
{
    fs::write(rt, "ends.s", ENDS)?;
    for (line, writes) in WRITES {
        check_writes(rt.alloc(), program, line, writes)?;
    }
    for name in ["ends.s", "ends"] {
        fs::remove_file(rt, name)?;
    }
    Ok(String::from_str(rt.alloc(), "standard error is written a whole line at once")?)
}

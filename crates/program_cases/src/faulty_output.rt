//! Tests outputs that take few writes, and inputs that cannot be read. What the program printed goes out at once. Its status says
//! where a write or a read failed, and whether memory ran out there.
use crate::program::{Input, Output, Program};
use crate::running::check_status;
use anyhow::{Error, ensure};
use case_format::arguments;
use std::alloc::Global;
use std::fs::{self, File};
use std::io::ErrorKind;
use std::rt::Files;

/// A script of eight lines of output.
const SCRIPT: &[u8] =
    b"program 0 00100073\nturn 1 0\nturn 1 0\nshown 0\ntrace 1\ncut\nturn 1 5\nenter 1\nshown 1\n";

/// What is said where the output fails.
const FAILED: &str = "bench: input or output failed\n";

/// What a command for people says where a stream fails, and the host's reason is not known any more.
pub const STREAMS: &str =
    "bench: standard input could not be read as text, or standard output not be written\n";

/// What is said where memory runs out.
const OUT_OF_MEMORY: &str = "bench: out of memory\n";

/// How a run ended, and what it said.
pub type End<'a> = (u8, &'a str);

/// Compares how a run ended with what is wanted. Its output is full, and what it took is flushed.
fn compare_end(
    ended: u8,
    out: &Output,
    err: &Output,
    (status, said): End<'_>,
) -> Result<(), Error> {
    let room = out.room;
    ensure!(ended == status, "room for {room} writes: status {ended}");
    ensure!(out.writes == room, "room for {room} writes: fewer are made");
    ensure!(out.flushed == room, "room for {room} writes: no flush");
    ensure!(
        err.held.as_slice() == said.as_bytes(),
        "room for {room} writes: another line"
    );
    Ok(())
}

/// Runs the program with these words, parted by blanks, on this input. It has to fill the output, and to end so.
fn check_run(
    alloc: Global,
    program: Program<'_>,
    line: &str,
    mut input: Input,
    mut out: Output,
    end: End<'_>,
) -> Result<(), Error>
    requires { IsAlwaysCallable program.now }
{
    let words = arguments(alloc, line)?;
    let mut err = Output::new(alloc);
    let ended = program(&words, &mut input, &mut out, &mut err);
    compare_end(ended, &out, &err, end)
}

/// As `check_run`, on the script.
fn check_output(
    alloc: Global,
    program: Program<'_>,
    line: &str,
    out: Output,
    end: End<'_>,
) -> Result<(), Error>
    requires { IsAlwaysCallable program.now }
{
    check_run(alloc, program, line, Input::new(alloc, SCRIPT)?, out, end)
}

/// As `check_run`, on the script, with an output that takes no write.
pub fn check_unwritable(
    alloc: Global,
    program: Program<'_>,
    line: &str,
    end: End<'_>,
) -> Result<(), Error>
    requires { IsAlwaysCallable program.now }
{
    let out = Output::with_room(alloc, 0, ErrorKind::InvalidData);
    check_output(alloc, program, line, out, end)
}

/// As `check_run`, on an input that cannot be read.
fn check_input(
    alloc: Global,
    program: Program<'_>,
    line: &str,
    failure: ErrorKind,
    end: End<'_>,
) -> Result<(), Error>
    requires { IsAlwaysCallable program.now }
{
    let out = Output::with_room(alloc, 0, failure);
    check_run(
        alloc,
        program,
        line,
        Input::failing(alloc, failure),
        out,
        end,
    )
}

/// One write is enough for all output, of a script and of help. Where no write is taken, the status is 6, or 5 where memory runs
/// out. The same holds where the input cannot be read. Nothing is said where nobody reads the output any more.
pub fn check_faulty_output(alloc: Global, program: Program<'_>) -> Result<String, Error>
    requires { IsAlwaysCallable program.now }
{
    for (failure, end) in [
        (ErrorKind::InvalidData, (6, FAILED)),
        (ErrorKind::BrokenPipe, (6, "")),
        (ErrorKind::OutOfMemory, (5, OUT_OF_MEMORY)),
    ] {
        for line in ["", "--help"] {
            let one = Output::with_room(alloc, 1, failure);
            check_output(alloc, program, line, one, (0, ""))?;
            let none = Output::with_room(alloc, 0, failure);
            check_output(alloc, program, line, none, end)?;
        }
        check_input(alloc, program, "", failure, end)?;
    }
    Ok(String::from_str(alloc, "outputs that take one write or none")?)
}

/// A program that writes a byte which rests on a change, and then never ends. Its run ends only since that byte goes out while the
/// program runs, and cannot be written. Where gdb debugs it, a read that fails is no end of the input. It reads the source `endless.s`.
pub fn check_endless_run<R: Files<File = File> + AllocGlobal>(
    rt: &R,
    program: Program<'_>,
) -> Result<String, Error>
    requires { IsAlwaysCallable program.now }
{
    let alloc = rt.alloc();
    check_status(alloc, program, "asm endless.s endless", 0)?;
    check_unwritable(alloc, program, "run endless", (6, FAILED))?;
    check_input(
        alloc,
        program,
        "gdb endless",
        ErrorKind::InvalidData,
        (6, STREAMS),
    )?;
    fs::remove_file(rt, "endless")?;
    Ok(String::from_str(alloc, "a run without end whose output fails")?)
}

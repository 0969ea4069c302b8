//! Plays a case of `.calls` or `.sessions`, and compares what comes of each step with what is wanted.
use crate::cones::check_cones;
use crate::program::Program;
use crate::running::run;
use anyhow::Error;
use case_format::{CallsCase, IMAGE_NAME, Ran, Run, Step, check_missing, session_steps};
use std::fs::{self, File};
use std::io;
use std::rt::Files;

/// Runs a case's script, and compares the cones of its events with its runs.
fn run_script<R: Files<File = File> + AllocGlobal>(
    rt: &R,
    program: Program<'_>,
    script: &[u8],
) -> Result<Ran, Error>
    requires { IsAlwaysCallable program.now }
{
    let ran = run(rt.alloc(), program, "", script)?;
    check_cones(rt, str::from_utf8(script)?)?;
    Ok(ran)
}

/// Runs a case's script, beside its image's file, if it has one.
fn run_calls<R: Files<File = File> + AllocGlobal>(
    rt: &R,
    program: Program<'_>,
    case: &CallsCase,
) -> Result<Ran, Error>
    requires { IsAlwaysCallable program.now }
{
    if case.image().is_empty() {
        return run_script(rt, program, case.script());
    }
    fs::write(rt, IMAGE_NAME, case.image())?;
    let ran = run_script(rt, program, case.script())?;
    fs::remove_file(rt, IMAGE_NAME)?;
    Ok(ran)
}

/// Runs a case of programs that call the kernel.
pub fn play_calls<R: Files<File = File> + AllocGlobal>(
    rt: &R,
    program: Program<'_>,
    lines: &str,
) -> Result<(), Error>
    requires { IsAlwaysCallable program.now }
{
    let case = CallsCase::read(rt.alloc(), lines)?;
    let ran = run_calls(rt, program, &case)?;
    case.check(rt.alloc(), &ran)
}

/// Runs the program, and writes what it prints to a file, if that is wanted.
fn play_run<R: Files<File = File> + AllocGlobal>(
    rt: &R,
    program: Program<'_>,
    wanted: &Run,
) -> Result<(), Error>
    requires { IsAlwaysCallable program.now }
{
    let ran = run(rt.alloc(), program, wanted.words(), wanted.input())?;
    if let Some(name) = wanted.kept() {
        fs::write(rt, name, ran.out.as_slice())?;
    }
    wanted.check(&ran)
}

/// Removes a file, or a folder in which nothing is left.
fn remove<R: Files>(rt: &R, name: &str) -> io::Result<()> {
    match fs::remove_file(rt, name) {
        Ok(()) => Ok(()),
        Err(_) => fs::remove_dir(rt, name),
    }
}

fn play_step<R: Files<File = File> + AllocGlobal>(
    rt: &R,
    program: Program<'_>,
    step: &Step,
) -> Result<(), Error>
    requires { IsAlwaysCallable program.now }
{
    match step {
        Step::Run(wanted) => play_run(rt, program, wanted),
        Step::Lines(file) | Step::Bytes(file) => {
            Ok(fs::write(rt, file.name.as_str(), file.bytes.as_slice())?)
        }
        Step::Remove(name) => Ok(remove(rt, name.as_str())?),
        Step::Holds(file) => file.check(&fs::read(rt, file.name.as_str())?),
        Step::Missing(name) => check_missing(fs::read(rt, name.as_str()).is_err()),
    }
}

/// Does the steps of a case by the command line.
pub fn play_session<R: Files<File = File> + AllocGlobal>(
    rt: &R,
    program: Program<'_>,
    lines: &str,
) -> Result<(), Error>
    requires { IsAlwaysCallable program.now }
{
    let steps = session_steps(rt.alloc(), lines)?;
    for step in &steps {
        play_step(rt, program, step)?;
    }
    Ok(())
}

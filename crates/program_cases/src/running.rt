//! Runs the whole program, over text in memory.
use crate::program::{Input, Output, Program};
use anyhow::{Error, ensure};
use case_format::{Ran, arguments};
use std::alloc::{AllocError, Global};

/// A source of a program that ends.
pub const ENDS: &str = "_start: li a7, 1\necall\n";

/// Runs the program with these words, parted by blanks, on an input.
pub fn run(
    alloc: Global,
    program: Program<'_>,
    words: &str,
    input: &[u8],
) -> Result<Ran, AllocError>
    requires { IsAlwaysCallable program.now }
{
    let list = arguments(alloc, words)?;
    let mut out = Output::new(alloc);
    let mut err = Output::new(alloc);
    let status = program(&list, &mut Input::new(alloc, input)?, &mut out, &mut err);
    Ok(Ran {
        out: out.held,
        err: err.held,
        status,
    })
}

/// Runs the program with these words, parted by blanks, without input; it has to end with this status.
pub fn check_status(
    alloc: Global,
    program: Program<'_>,
    words: &str,
    status: u8,
) -> Result<(), Error>
    requires { IsAlwaysCallable program.now }
{
    let ran = run(alloc, program, words, b"")?;
    let ended = ran.status;
    ensure!(ended == status, "{words}: status {ended}");
    Ok(())
}

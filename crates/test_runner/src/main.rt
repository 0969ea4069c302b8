//! Runs the trials that its words name, one after the other, and prints what each comes to. Read `words` first.
//!
//! Cases and computations are compared with what is wanted, measurements are not. A trial that fails, and a word that names
//! nothing, stop no other. Standard error says which they are, and the program ends with status 1.
#![tactic(auto)]

mod lost_arguments;
mod usage;
mod words;

use anyhow::{Error, ensure};
use program_cases::{Input, Output, Program};
use std::env;
use std::fs::File;
use std::rt::Files;
use std::sync::Wait;
use std::thread::Threads;
use std::time::Clock;

/// Runs the trials of these words, of which the first is the test program's name. Without others it prints the words that there are.
fn run<R: AllocGlobal + Clock + Eprint + Files<File = File> + Print + Threads + Wait + Sync>(
    rt: &R,
    program: Program<'_>,
    words: &[String],
) -> Result<(), Error>
    requires { IsAlwaysCallable program.now }
{
    if words.len() < 2 {
        println!(rt; "{}", usage::LINES)?;
    }
    let mut failed = 0usize;
    for word in words.iter().skip(1) {
        match words::report(rt, program, word.as_str()) {
            Ok(lines) => println!(rt; "{lines}")?,
            Err(error) => {
                eprintln!(rt; "{word}: {error}")?;
                failed = failed.saturating_add(1);
            }
        }
    }
    ensure!(failed == 0, "{failed} failed");
    Ok(())
}

fn main(rt: HostRuntime) -> Result<(), Error> {
    let words: Vec<String> = env::args(&rt)?.collect(rt.alloc())?;
    let program = |words: &[String], input: &mut Input, out: &mut Output, err: &mut Output| {
        monitor::bench(&rt, words, input, out, err)
    };
    run(&rt, &program, &words)
}

//! `report`: does the trial that a word names, and gives its lines.
use crate::lost_arguments::check_lost_arguments;
use crate::usage::LINES;
use anyhow::{Error, bail};
use case_format::Choice;
use program_cases::Program;
use std::fs::File;
use std::rt::Files;
use std::sync::Wait;
use std::thread::Threads;
use std::time::Clock;

/// Does the trial of a word that names no file, and gives its lines.
fn named<R: AllocGlobal + Clock + Files<File = File> + Threads + Wait + Sync>(
    rt: &R,
    program: Program<'_>,
    word: &str,
) -> Result<String, Error>
    requires { IsAlwaysCallable program.now }
{
    match word {
        "faulty-output" => program_cases::check_faulty_output(rt.alloc(), program),
        "endless-run" => program_cases::check_endless_run(rt, program),
        "lost-arguments" => check_lost_arguments(rt.alloc()),
        "kept-disk" => program_cases::check_kept_disk(rt, program),
        "whole-lines" => program_cases::check_whole_lines(rt, program),
        "writer-crashes" => core_cases::crash_writer(rt),
        "renamer-crashes" => core_cases::crash_renamer(rt),
        "writer-failures" => core_cases::fail_talker(rt),
        "growths" => part_cases::check_growths(rt.alloc()),
        "workers" => worker_cases::play_cases(rt),
        "written-code" => part_cases::check_written_code(rt.alloc()),
        "random-programs" => part_cases::check_random_programs(rt.alloc()),
        "costs-writes" => costs::write_lines(rt),
        "help" => Ok(String::from_str(rt.alloc(), LINES)?),
        _ => bail!("no such trial: {word}; the word help prints all"),
    }
}

/// Does the trial that a word names, and gives its lines, the last without a line feed. A word is the name of a file, by what it
/// ends with, or such a name and a case's title, or it names a computation or a measurement.
pub fn report<R: AllocGlobal + Clock + Eprint + Files<File = File> + Threads + Wait + Sync>(
    rt: &R,
    program: Program<'_>,
    word: &str,
) -> Result<String, Error>
    requires { IsAlwaysCallable program.now }
{
    let choice = Choice::of(word);
    if choice.file.ends_with(".calls") || choice.file.ends_with(".sessions") {
        program_cases::check_file(rt, program, choice)
    } else if choice.file.ends_with(".cores") {
        core_cases::check_file(rt, choice)
    } else if word.ends_with(".image") {
        part_cases::check_image(rt, word)
    } else {
        named(rt, program, word)
    }
}

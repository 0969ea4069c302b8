//! `bench`, the whole program: the tasks of the first hour, and all others.
use crate::page_files::page_programs;
use crate::picture_files::picture_programs;
use command_line::{Arguments, Task};
use debug_sessions::{answer_gdb, debug_file, debug_live};
use faults::Fault;
use first_commands::{asked_by, end, end_task, perform_first};
use run_commands::{LogPaths, diff_files, execute, run_images};
use search_commands::{explore_programs, try_crashes};
use std::fs::File;
use std::io::{BufWriter, Read, Write};
use std::rt::Files;
use std::sync::Wait;
use std::thread::Threads;

/// Does the task, and gives the exit status where all went well.
fn perform<
    R: Files<File = File> + AllocGlobal + Threads + Wait + Sync,
    I: Read + Send,
    O: Write,
    E: Write,
>(rt: &R, asked: &Arguments<'_>, input: &mut I, out: &mut O, err: &mut E) -> Result<u8, Fault> {
    let done = match &asked.task {
        Task::Picture(options) => picture_programs(rt, options, input, out, err),
        Task::Page(options) => page_programs(rt, options, input, out, err),
        Task::Explore(options) => return explore_programs(rt, options, input, out, err),
        Task::Crashes(options) => return try_crashes(rt, options, input, out, err),
        Task::Debug {
            image,
            trace,
            source,
        } => debug_file(rt, image, *trace, *source, input, out),
        Task::DebugLive(options) => debug_live(rt, options, input, out),
        Task::Gdb(options) => answer_gdb(rt, options, input, out),
        Task::Diff {
            first,
            second,
            source,
        } => {
            let paths = LogPaths {
                first: *first,
                second: *second,
                source: *source,
            };
            diff_files(rt, paths, out)
        }
        Task::Run(options) => return run_images(rt, options, asked.explain, input, out, err),
        Task::Exec(options) => return execute(rt, options, input, out, err),
        task => return perform_first(rt, task, input, out, err),
    };
    done?;
    Ok(0)
}

/// Does what the words ask for, or writes why they ask for nothing. Gives the exit status.
fn obey<
    R: Files<File = File> + AllocGlobal + Threads + Wait + Sync,
    I: Read + Send,
    O: Write,
    E: Write,
>(rt: &R, words: &[String], input: &mut I, out: &mut O, err: &mut E) -> u8 {
    let asked = match asked_by(rt.alloc(), words, out, err) {
        Ok(asked) => asked,
        Err(status) => return status,
    };
    let done = perform(rt, &asked, input, out, err);
    end_task(&asked, done, out, err)
}

/// The whole program: does what the words ask for, the program's name aside, and gives the exit status. Without words it replays
/// the script on the input. What it prints goes to `out` through a buffer. The buffer is flushed before anything is written to
/// `err`, and before the status is given. One line on `err` says why the program ended early.
pub fn bench<
    R: Files<File = File> + AllocGlobal + Threads + Wait + Sync,
    I: Read + Send,
    O: Write,
    E: Write,
>(rt: &R, words: &[String], input: &mut I, out: &mut O, err: &mut E) -> u8 {
    match BufWriter::new(rt.alloc(), out) {
        Ok(mut out) => {
            let status = obey(rt, words, input, &mut out, err);
            // What could not go out is not tried again after the line that says so.
            let _ = out.into_parts();
            status
        }
        Err(error) => end(Fault::from(error), err),
    }
}

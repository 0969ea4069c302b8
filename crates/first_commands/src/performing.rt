//! The tasks of the first hour, and `bench_small`, the program that has no others.
use crate::disks::use_disk;
use crate::program::{asked_by, end, end_task, usage_status};
use command_line::Task;
use faults::Fault;
use host_files::{assemble_file, check_file, image_file, list_file, symbols_file};
use script_files::{replay_cone_file, replay_file, replay_input};
use std::alloc::Global;
use std::fs::File;
use std::io::{BufWriter, Read, Write};
use std::rt::Files;

/// The refusal of a command that only the whole program has.
fn lacking(alloc: Global, command: &str) -> Result<(), Fault> {
    let text = format!(in alloc;
        "the small program has no {command}: ./bench --build proves the whole one"
    )?;
    Err(Fault::told(text, usage_status(command)))
}

/// Does a task of the first hour, and gives the exit status where all went well. Refuses a task that only the whole program has.
pub fn perform_first<R: Files<File = File> + AllocGlobal, I: Read, O: Write, E: Write>(
    rt: &R,
    task: &Task<'_>,
    input: &mut I,
    out: &mut O,
    err: &mut E,
) -> Result<u8, Fault> {
    let done = match task {
        Task::ReplayInput => replay_input(rt, input, out),
        Task::Replay(path, None) => replay_file(rt, path, out),
        Task::Replay(path, Some(event)) => replay_cone_file(rt, path, *event, out),
        Task::Assemble(source, image) => assemble_file(rt, source, image, out),
        Task::Check(path) => check_file(rt, path, out),
        Task::Image(linked, image) => image_file(rt, linked, image, out),
        Task::Symbols(source, symbols) => symbols_file(rt, source, symbols, out),
        Task::List(path) => list_file(rt, path, out),
        Task::Disk(task) => return use_disk(rt, *task, out, err),
        Task::Picture(_) => lacking(rt.alloc(), "picture"),
        Task::Page(_) => lacking(rt.alloc(), "page"),
        Task::Crashes(_) => lacking(rt.alloc(), "crashes"),
        Task::Explore(_) => lacking(rt.alloc(), "explore"),
        Task::Diff { .. } => lacking(rt.alloc(), "diff"),
        Task::Debug { .. } | Task::DebugLive(_) => lacking(rt.alloc(), "debug"),
        Task::Gdb(_) => lacking(rt.alloc(), "gdb"),
        Task::Run(_) => lacking(rt.alloc(), "run"),
        Task::Exec(_) => lacking(rt.alloc(), "exec"),
    };
    done?;
    Ok(0)
}

/// Does what the words ask for, or writes why they ask for nothing. Gives the exit status.
fn obey<R: Files<File = File> + AllocGlobal, I: Read, O: Write, E: Write>(
    rt: &R,
    words: &[String],
    input: &mut I,
    out: &mut O,
    err: &mut E,
) -> u8 {
    let asked = match asked_by(rt.alloc(), words, out, err) {
        Ok(asked) => asked,
        Err(status) => return status,
    };
    let done = perform_first(rt, &asked.task, input, out, err);
    end_task(&asked, done, out, err)
}

/// The small program: does what the words ask for, the program's name aside, and gives the exit status. It is the whole program without
/// the commands that are refused here.
pub fn bench_small<R: Files<File = File> + AllocGlobal, I: Read, O: Write, E: Write>(
    rt: &R,
    words: &[String],
    input: &mut I,
    out: &mut O,
    err: &mut E,
) -> u8 {
    match BufWriter::new(rt.alloc(), out) {
        Ok(mut out) => {
            let status = obey(rt, words, input, &mut out, err);
            // What could not go out is not tried again after the line that says so.
            let _ = out.into_parts();
            status
        }
        Err(error) => end(Fault::from(error), err),
    }
}

//! What a program does before its task and after it, whatever its tasks: `asked_by` reads the command line, and `end_task` gives the exit
//! status.
use clap::Error;
use clap::error::ErrorKind;
use command_line::{Arguments, DiskTask, Task, parse};
use faults::{Fault, ForPeople, Refusal, write_line};
use std::alloc::Global;
use std::io::Write;
use std::rt::Env;
use std::{env, io};

/// The exit status where `exec` refuses its command line or a file, or is cut short: its programs have statuses of their own.
const EXEC_REFUSED: u8 = 125;

/// The arguments, the program's name aside.
pub fn arguments<R: Env + AllocGlobal>(rt: &R) -> io::Result<Vec<String>> {
    let mut words: Vec<String> = env::args(rt)?.collect(rt.alloc())?;
    if !words.is_empty() {
        words.remove(0);
    }
    Ok(words)
}

/// The status at a faulty command line of a command.
pub(crate) fn usage_status(command: &str) -> u8 {
    match command {
        "exec" => EXEC_REFUSED,
        _ => 1,
    }
}

/// The name of the command among the words; empty, if none is there.
fn command_in(words: &[String]) -> &str {
    for word in words {
        if !word.starts_with('-') {
            return word.as_str();
        }
    }
    ""
}

/// The lines that a fault has on standard error.
#[derive(Clone, Copy)]
enum Lines {
    /// The line of its status.
    Status,
    /// That line, and one with the file, the place and the cure.
    Both,
    /// The last of these alone, of a command that is made for people.
    Person,
}

/// Whether the line of a task that fails is that of its status, since programs read it. The others are made for people.
fn has_status_line(task: &Task<'_>) -> bool {
    matches!(
        task,
        Task::ReplayInput
            | Task::Replay(..)
            | Task::Assemble { .. }
            | Task::List(_)
            | Task::Run(_)
            | Task::Debug { .. }
            | Task::Disk(DiskTask::List(_))
    )
}

/// The lines of a fault of a task.
fn lines_of(asked: &Arguments<'_>, fault: &Fault) -> Lines {
    let is_for_people = match fault {
        Fault::OutOfMemory => false,
        // A check has printed each fault of the source, with its place and its cure.
        Fault::Refused {
            refusal: Refusal::Source { .. },
            ..
        } if matches!(asked.task, Task::Check(_)) => false,
        Fault::Refused {
            refusal: Refusal::Told { .. },
            ..
        } => true,
        _ => !has_status_line(&asked.task),
    };
    match (is_for_people, asked.explain) {
        (true, _) => Lines::Person,
        (false, true) => Lines::Both,
        (false, false) => Lines::Status,
    }
}

/// Writes these lines of a fault. Where one cannot be written either, the status still tells.
fn tell<E: Write>(fault: &Fault, lines: Lines, err: &mut E) {
    if !matches!(lines, Lines::Person) {
        let _ = write_line(err, format_args!("{fault}"));
    }
    if !matches!(lines, Lines::Status) {
        let _ = write_line(err, ForPeople(fault));
    }
}

/// The end by a fault that no task has: writes its line, unless it only says that nobody reads the output. Gives its status.
pub fn end<E: Write>(fault: Fault, err: &mut E) -> u8 {
    if !fault.is_of_closed(false) {
        tell(&fault, Lines::Status, err);
    }
    fault.status()
}

fn print_help<O: Write>(help: &Error, out: &mut O) -> Result<(), Fault> {
    write!(out, "{help}")?;
    out.flush()?;
    Ok(())
}

/// The end at a faulty command line, or at help that was asked for.
fn end_usage<O: Write, E: Write>(words: &[String], error: &Error, out: &mut O, err: &mut E) -> u8 {
    if error.kind() == ErrorKind::OutOfMemory {
        return end(Fault::OutOfMemory, err);
    }
    if error.use_stderr() {
        let _ = write!(err, "{error}");
        return usage_status(command_in(words));
    }
    match print_help(error, out) {
        Ok(()) => 0,
        Err(fault) => end(fault, err),
    }
}

/// The end where the host did not give the arguments: status 5 where memory ran out, 1 where one of them is no text.
pub fn end_without_arguments<E: Write>(error: &io::Error, err: &mut E) -> u8 {
    let fault = match error.kind() {
        io::ErrorKind::OutOfMemory => Fault::OutOfMemory,
        _ => Fault::from(Refusal::Argument),
    };
    end(fault, err)
}

/// What the words ask for. Words that ask for nothing, or for help, have their answer here, and their exit status is the error.
pub fn asked_by<'a, O: Write, E: Write>(
    alloc: Global,
    words: &'a [String],
    out: &mut O,
    err: &mut E,
) -> Result<Arguments<'a>, u8> {
    match parse(alloc, words) {
        Ok(asked) => Ok(asked),
        Err(error) => Err(end_usage(words, &error, out, err)),
    }
}

/// The end of a task: flushes what it printed, before anything is written to `err`. Where it ended early, one line says why, unless it is
/// that nobody reads the output any more. Gives the exit status.
pub fn end_task<O: Write, E: Write>(
    asked: &Arguments<'_>,
    done: Result<u8, Fault>,
    out: &mut O,
    err: &mut E,
) -> u8 {
    let flushed = out.flush();
    let is_closed = matches!(&flushed, Err(error) if error.kind() == io::ErrorKind::BrokenPipe);
    let fault = match (done, flushed) {
        (Ok(status), Ok(())) => return status,
        (Err(fault), _) => fault,
        (Ok(_), Err(error)) => Fault::from(error),
    };
    if !fault.is_of_closed(is_closed) {
        tell(&fault, lines_of(asked, &fault), err);
    }
    match asked.task {
        Task::Exec(_) => EXEC_REFUSED,
        _ => fault.status(),
    }
}

//! `parse`: reads the words of the command line as a task.
use crate::rows::{Row, row_named, table_rows};
use crate::rules::{Broken, first_broken};
use crate::task::{Task, task_of};
use clap::error::ErrorKind;
use clap::{Arg, ArgAction, ArgMatches, Command, Error};
use std::alloc::{AllocError, Global};

/// Which bench it is, as the file VERSION at the root says.
const VERSION: &str = "0.1.0";

/// What the words of a command line ask for.
#[derive(Drop)]
pub struct Arguments<'a> {
    pub task: Task<'a>,
    /// Whether a refusal, and a process that trapped, are to have a line more that says why.
    pub explain: bool,
}

/// An option of every command. It may stand before the command too, and in a help just before `--help`, whose place is 999.
fn explain<'a>(alloc: Global) -> Arg<'a> {
    Arg::new(alloc, "explain")
        .long("explain")
        .help("say of a refusal, or a trap, which file it is and why")
        .action(ArgAction::SetTrue)
        .global(true)
        .display_order(998)
}

/// The program, with its commands. Its usage begins with its name, so that it can be pasted.
fn program<'a>(alloc: Global, rows: &[Row]) -> Result<Command<'a>, AllocError> {
    let mut commands = Vec::new(alloc);
    for row in rows {
        commands.push(row.command(alloc)?)?;
    }
    Command::new(alloc, "bench")
        .about(
            "A RISC-V bench on an externally synchronous kernel; without a command, the script on standard input is replayed",
        )
        .version(VERSION)
        .override_usage("bench < SCRIPT\n       bench <COMMAND>")
        .no_binary_name(true)
        .subcommand_required(true)
        .bin_name("bench")?
        .arg(explain(alloc))?
        .subcommands(commands)
}

/// Why words that keep the rules ask for nothing.
fn words_refused(command: &str) -> &'static str {
    match command {
        "disk" => "these words are none of the forms of this command",
        "run" | "debug" => "there are more than 8 images",
        _ => "there are more than 8 programs",
    }
}

fn asked_of<'a>(
    alloc: Global,
    row: &Row,
    matches: &ArgMatches<'a>,
) -> Result<Arguments<'a>, Error> {
    let broken = match first_broken(row, matches) {
        Some(broken) => broken,
        None => {
            let explain = matches.get_flag("explain");
            match task_of(alloc, row.name, matches)? {
                Some(task) => return Ok(Arguments { task, explain }),
                None => Broken::Words(words_refused(row.name)),
            }
        }
    };
    let message = format!(in alloc; "{broken}")?;
    let mut command = row.command(alloc)?;
    Err(command.error(ErrorKind::ValueValidation, message.as_str())?)
}

fn commands_with(alloc: Global, rows: &[Row], option: &str) -> Result<String, AllocError> {
    let mut names = String::new(alloc);
    for row in rows {
        if row.argument(option).is_some() {
            names.push_str(if names.is_empty() { "" } else { ", " })?;
            names.push_str(row.name)?;
        }
    }
    Ok(names)
}

/// The message in the text of a refusal by the library. Its tip is which commands have the option that this one has not, or the library's,
/// unless that is that the option may be a value.
fn message_of(alloc: Global, rows: &[Row], text: &str) -> Result<String, AllocError> {
    let (message, rest) = text.split_once("\n\n").unwrap_or((text, ""));
    let message = message.strip_prefix("error: ").unwrap_or(message);
    let (tip, _usage) = rest.split_once("\n\n").unwrap_or((rest, ""));
    let option = message.split('\'').nth(1).unwrap_or("");
    let commands = commands_with(alloc, rows, option)?;
    if !commands.is_empty() && message.starts_with("unexpected ") {
        format!(in alloc; "{message}\n\n  tip: '{option}' is an option of {commands}")
    } else if tip.starts_with("  tip: ") && !tip.starts_with("  tip: to pass ") {
        format!(in alloc; "{message}\n\n{tip}")
    } else {
        String::from_str(alloc, message)
    }
}

/// A refusal by the library in the words of this program, with the usage of its command.
fn reworded(
    alloc: Global,
    rows: &[Row],
    words: &[String],
    error: Error,
) -> Result<Error, AllocError> {
    let first = words.iter().find(|word| word.as_str() != "--explain");
    let row = first.and_then(|word| row_named(rows, word.as_str()));
    match (row, error.kind()) {
        (Some(row), ErrorKind::InvalidValue | ErrorKind::UnknownArgument) => {
            let text = format!(in alloc; "{error}")?;
            let message = message_of(alloc, rows, text.as_str())?;
            let mut command = row.command(alloc)?.arg(explain(alloc))?;
            command.error(error.kind(), message.as_str())
        }
        _ => Ok(error),
    }
}

/// The task that the words ask for, the program's name aside. Without words it is to replay the script on standard input. An error
/// prints as what is wrong and the usage of its command, or as the help that was asked for.
pub fn parse<'a>(alloc: Global, words: &'a [String]) -> Result<Arguments<'a>, Error> {
    if words.is_empty() {
        return Ok(Arguments {
            task: Task::ReplayInput,
            explain: false,
        });
    }
    let rows = table_rows(alloc)?;
    let mut program = program(alloc, rows.as_slice())?;
    let matches = match program.try_get_matches_from_mut(words) {
        Ok(matches) => matches,
        Err(error) => return Err(reworded(alloc, rows.as_slice(), words, error)?),
    };
    if let Some((name, matches)) = matches.subcommand()
        && let Some(row) = row_named(rows.as_slice(), name)
    {
        return asked_of(alloc, row, matches);
    }
    Err(program.error(ErrorKind::InvalidSubcommand, "no such command")?)
}

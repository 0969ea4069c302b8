//! `command_of`: reads a command that a person gives by gdb's `monitor`.
use input_reading::decimal;

/// The line that lists the commands.
pub const COMMANDS: &str = "monitor count, calls, trace, files, until N, keep\n";

/// A command that a person gives.
#[derive(Clone, Copy)]
pub enum Command {
    /// How far the program came.
    Count,
    /// The calls that it made.
    Calls,
    /// The replies that the calls took, as a trace.
    Trace,
    /// The files on the disk.
    Files,
    /// To have the next run on stop at a count.
    Until(u64),
    /// To keep the disk in its file.
    Keep,
    /// What is no command.
    Other,
}

/// The command of a line.
pub fn command_of(line: &[u8]) -> Command {
    let Ok(line) = str::from_utf8(line) else {
        return Command::Other;
    };
    match line.trim_ascii() {
        "count" => Command::Count,
        "calls" => Command::Calls,
        "trace" => Command::Trace,
        "files" => Command::Files,
        "keep" => Command::Keep,
        line => match line
            .strip_prefix("until ")
            .and_then(|word| decimal(word.trim_ascii()))
        {
            Some(count) => Command::Until(count),
            None => Command::Other,
        },
    }
}

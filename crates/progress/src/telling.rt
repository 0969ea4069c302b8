//! `Progress`: tells how far work has come, at most once a second.
use faults::write_line;
use input_reading::decimal;
use std::io::Write;
use std::rt::Files;
use std::{fmt, fs};

/// Where the host says for how many seconds it is up, and after a point their hundredths.
const UPTIME: &str = "/proc/uptime";

/// For how many seconds the host is up. None where it does not say.
fn seconds_up<R: Files + AllocGlobal>(rt: &R) -> Option<u64> {
    let text = fs::read_to_string(rt, UPTIME).ok()?;
    let (seconds, _hundredths) = text.as_str().split_once('.')?;
    decimal(seconds)
}

/// How far work has come.
#[derive(Clone, Copy)]
pub struct ProgressCount {
    /// What is counted, as `states`.
    pub what: &'static str,
    /// How many are done.
    pub done: u64,
    /// How many are still to be done, as far as that is known, and in which words.
    pub left: u64,
    pub to_do: &'static str,
}

/// The line that is told.
#[derive(Drop)]
struct Line {
    count: ProgressCount,
    a_second: u64,
}

impl fmt::Display for Line {
    fn fmt<W: fmt::Write>(&self, f: &mut fmt::Formatter<W>) -> fmt::Result {
        let ProgressCount {
            what,
            done,
            left,
            to_do,
        } = self.count;
        let a_second = self.a_second;
        write!(
            f,
            "bench: {done} {what}, {a_second} a second, {left} {to_do}"
        )
    }
}

/// Tells how far work has come, if that is wanted.
#[derive(Drop)]
pub struct Progress<'a, E> {
    err: &'a mut E,
    is_wanted: bool,
    /// The second in which it began, and the one in which it was told last.
    begun: u64,
    told: u64,
}

impl<'a, E: Write> Progress<'a, E> {
    /// Before the work. It is told to `err`, if it is wanted.
    pub fn new<R: Files + AllocGlobal>(rt: &R, err: &'a mut E, is_wanted: bool) -> Progress<'a, E> {
        let begun = if is_wanted {
            seconds_up(rt).unwrap_or(0)
        } else {
            0
        };
        Progress {
            err,
            is_wanted,
            begun,
            told: begun,
        }
    }

    /// Whether it is wanted, and another second has begun. It is then to be told.
    pub fn is_due<R: Files + AllocGlobal>(&mut self, rt: &R) -> bool {
        if !self.is_wanted {
            return false;
        }
        let now = seconds_up(rt).unwrap_or(0);
        let is_due = now > self.told;
        if is_due {
            self.told = now;
        }
        is_due
    }

    /// Tells it now. What cannot be written is left out here: the end of the output tells of it.
    pub fn tell(&mut self, count: ProgressCount) {
        let a_second = count.done / self.told.saturating_sub(self.begun).max(1);
        let _ = write_line(self.err, Line { count, a_second });
    }
}

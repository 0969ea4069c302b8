//! The texts of events and of answers, as scripts and `replay` write them.
use kernel::{Answer, Event};
use machine_model::Stop;
use std::fmt;

/// An event, as the line of a script that applies it.
#[derive(Drop)]
pub struct EventText(pub Event);

impl fmt::Display for EventText {
    fn fmt<W: fmt::Write>(&self, f: &mut fmt::Formatter<W>) -> fmt::Result {
        match self.0 {
            Event::Turn { pid, n } => write!(f, "turn {pid} {n}"),
            Event::Enter { pid } => write!(f, "enter {pid}"),
            Event::Cut => f.write_str("cut"),
            Event::Complete { at } => write!(f, "complete {at}"),
            Event::Fail { at } => write!(f, "fail {at}"),
        }
    }
}

/// Where a Turn stopped, as it is printed.
#[derive(Drop)]
struct StopText(Stop);

impl fmt::Display for StopText {
    fn fmt<W: fmt::Write>(&self, f: &mut fmt::Formatter<W>) -> fmt::Result {
        match self.0 {
            Stop::Limit => f.write_str("limit"),
            Stop::Call => f.write_str("call"),
            Stop::Trap(cause) => {
                let number = cause.number();
                write!(f, "trap {number}")
            }
        }
    }
}

fn write_ran<W: fmt::Write>(f: &mut fmt::Formatter<W>, count: u32, stop: Stop) -> fmt::Result {
    let stop = StopText(stop);
    write!(f, "ran {count} {stop}")
}

fn write_cut<W: fmt::Write>(f: &mut fmt::Formatter<W>, changes: u64, writes: u64) -> fmt::Result {
    write!(f, "cut {changes} changes {writes} writes")
}

fn write_completed<W: fmt::Write>(f: &mut fmt::Formatter<W>, committed: u64) -> fmt::Result {
    write!(f, "completed, {committed} committed")
}

/// An answer, as it is printed.
#[derive(Drop)]
pub struct AnswerText(pub Answer);

impl fmt::Display for AnswerText {
    fn fmt<W: fmt::Write>(&self, f: &mut fmt::Formatter<W>) -> fmt::Result {
        match self.0 {
            Answer::Ran { count, stop } | Answer::Settled { count, stop, .. } => {
                write_ran(f, count, stop)
            }
            Answer::Entered => f.write_str("entered"),
            Answer::Waits => f.write_str("waits"),
            Answer::Ended => f.write_str("ended"),
            Answer::Cut { changes, writes } => write_cut(f, changes, writes),
            Answer::Completed { committed } => write_completed(f, committed),
            Answer::Failed => f.write_str("failed"),
        }
    }
}

//! Two logs, side by side.
use crate::difference::{Difference, Side};
use crate::line::Line;
use crate::reading::Log;
use crate::registers::Registers;
use std::alloc::Global;
use std::io;
use std::io::BufRead;

/// What came of a comparison.
#[derive(Clone, Copy)]
pub enum Compared {
    /// This one of the logs has no instruction.
    NoLog(Side),
    /// The logs are equal, of so many instructions.
    Equal(u64),
    Different(Difference),
}

/// The log that could not be read, and why.
pub type Unread = (Side, io::Error);

/// The next instruction of a log.
fn next_of<R: BufRead + Drop>(side: Side, log: &mut Log<R>) -> Result<Option<Line>, Unread> {
    match log.next() {
        Ok(line) => Ok(line),
        Err(error) => Err((side, error)),
    }
}

/// Compares two logs, up to the first instruction that differs: another address or word, or something else that it wrote.
pub fn compare<A: BufRead + Drop, B: BufRead + Drop>(
    alloc: Global,
    first: A,
    second: B,
) -> Result<Compared, Unread> {
    let mut first = Log::new(alloc, first);
    let mut second = Log::new(alloc, second);
    let mut registers = Registers::new();
    for number in 1..u64::MAX {
        let a = next_of(Side::First, &mut first)?;
        let b = next_of(Side::Second, &mut second)?;
        if number == 1 && a.is_none() {
            return Ok(Compared::NoLog(Side::First));
        }
        if number == 1 && b.is_none() {
            return Ok(Compared::NoLog(Side::Second));
        }
        if a != b {
            return Ok(Compared::Different(Difference {
                number,
                first: a,
                second: b,
                registers,
            }));
        }
        match a {
            Some(line) => registers.note(line.written),
            None => return Ok(Compared::Equal(number - 1)),
        }
    }
    Ok(Compared::Equal(u64::MAX))
}

//! The file of a part of an exploration, line by line: a text of what it is of, of the states from which the part went on, or which it
//! left, and of its outcomes. `part_reading` reads it.
use crate::outcome::Outcome;
use crate::summed::Summed;
use state_search::{Found, Key, Part};
use std::io::Write;
use std::{fmt, io};

/// The first line.
pub const FORM: &str = "bench explore part 2";

/// The last line but one, where the part left no state.
pub const COMPLETE: &str = "complete";

/// What a part is of. The parts of one exploration differ in the number of the part alone.
#[derive(Clone, Copy)]
pub struct PartHead {
    /// The sum of the set-up lines, where the images have been read.
    pub programs: Key,
    /// The most instructions to the next call.
    pub instructions: u64,
    /// No further level is searched where more states were found.
    pub states: u64,
    /// Nor one to whose states so many calls lead.
    pub calls: u64,
    pub part: Part,
}

/// A key as 32 hexadecimal digits.
#[derive(Clone, Copy)]
pub struct KeyText(pub Key);

impl fmt::Display for KeyText {
    fn fmt<W: fmt::Write>(&self, f: &mut fmt::Formatter<W>) -> fmt::Result {
        let Key { high, low } = self.0;
        write!(f, "{high:016x}{low:016x}")
    }
}

/// The processes whose calls lead somewhere, parted by commas, or `-` for none.
#[derive(Clone, Copy)]
struct WayText<'a>(&'a [u32]);

impl fmt::Display for WayText<'_> {
    fn fmt<W: fmt::Write>(&self, f: &mut fmt::Formatter<W>) -> fmt::Result {
        let [first, rest @ ..] = self.0 else {
            return f.write_str("-");
        };
        write!(f, "{first}")?;
        for pid in rest {
            write!(f, ",{pid}")?;
        }
        Ok(())
    }
}

pub fn write_head<O: Write>(head: PartHead, out: &mut O) -> io::Result<()> {
    let (programs, part) = (KeyText(head.programs), head.part);
    writeln!(out, "{}", FORM)?;
    writeln!(
        out,
        "programs {programs} limit {0} most-states {1} most-calls {2} part {3} of {4}",
        head.instructions, head.states, head.calls, part.number, part.of
    )
}

/// A state from which the part went on: its key, how many calls lead there, and by how many the search went on from it.
pub fn write_state<O: Write>(found: &Found<Vec<u32>>, calls: usize, out: &mut O) -> io::Result<()> {
    let (key, moves) = (KeyText(found.key), found.moves);
    writeln!(out, "state {key} {moves} {calls}")
}

/// An outcome that is new, with the calls that lead there.
pub fn write_outcome<O: Write>(outcome: &Outcome, out: &mut O) -> io::Result<()> {
    let (way, text) = (WayText(outcome.calls.as_slice()), outcome.text.as_str());
    writeln!(out, "outcome {way} {text}")
}

/// The end: the states that were left when the search was cut after so many calls, or that it is complete; and the sum of all lines before
/// the last.
pub fn write_end<O: Write>(
    left: &[Found<Vec<u32>>],
    calls: u64,
    out: &mut Summed<'_, O>,
) -> io::Result<()> {
    for found in left {
        let (key, moves) = (KeyText(found.key), found.moves);
        writeln!(out, "left {key} {moves}")?;
    }
    if left.is_empty() {
        writeln!(out, "{}", COMPLETE)?;
    } else {
        writeln!(out, "cut {calls}")?;
    }
    let sum = KeyText(out.sum()?);
    writeln!(out, "sum {sum}")
}

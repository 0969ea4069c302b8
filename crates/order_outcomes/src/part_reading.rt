//! Reads the file of a part of an exploration. A file with the right sum that is of another form is no file that a part wrote.
use crate::outcome::{Outcome, is_outcome, runs_on_in};
use crate::part_fault::PartFault;
use crate::part_file::{COMPLETE, FORM, PartHead};
use input_reading::{decimal, decimal_word, hex_number};
use state_search::{Key, Part, StateDigest};
use std::alloc::Global;

/// The most parts of a search.
const MOST_PARTS: u64 = 9999;

/// A state of a part. Of one key the nearest is the first.
#[derive(Clone, Copy, PartialEq, Eq, PartialOrd, Ord)]
pub struct PartState {
    pub high: u64,
    pub low: u64,
    /// How many calls lead there.
    pub moves: u64,
    /// Whether the part left it.
    pub is_left: bool,
    /// By how many calls the search went on from it.
    pub calls: u64,
}

/// What the file of a part holds.
#[derive(Drop)]
pub struct PartFile {
    pub head: PartHead,
    pub states: Vec<PartState>,
    pub outcomes: Vec<Outcome>,
}

/// The key that 32 hexadecimal digits spell.
fn key_of(digits: &str) -> Option<Key> {
    let (high, low) = digits.split_at_checked(16)?;
    if low.len() != 16 {
        return None;
    }
    Some(Key {
        high: hex_number(high)?,
        low: hex_number(low)?,
    })
}

fn part_of(number: &str, of: &str) -> Option<Part> {
    let (number, of) = (decimal(number)?, decimal(of)?);
    if number >= 1 && number <= of && of <= MOST_PARTS {
        Some(Part { number, of })
    } else {
        None
    }
}

/// What the second line says.
fn head_of(line: &str) -> Option<PartHead> {
    let (programs, line) = line.strip_prefix("programs ")?.split_once(" limit ")?;
    let (instructions, line) = line.split_once(" most-states ")?;
    let (states, line) = line.split_once(" most-calls ")?;
    let (calls, line) = line.split_once(" part ")?;
    let (number, of) = line.split_once(" of ")?;
    Some(PartHead {
        programs: key_of(programs)?,
        instructions: decimal(instructions)?,
        states: decimal(states)?,
        calls: decimal(calls)?,
        part: part_of(number, of)?,
    })
}

/// The state of a line `state KEY MOVES CALLS` or `left KEY MOVES`.
fn state_of(line: &str) -> Option<PartState> {
    let (kind, line) = line.split_once(' ')?;
    let (key, line) = line.split_once(' ')?;
    let (moves, calls) = match kind {
        "state" => line.split_once(' ')?,
        "left" => (line, "0"),
        _ => return None,
    };
    let Key { high, low } = key_of(key)?;
    Some(PartState {
        high,
        low,
        moves: decimal(moves)?,
        is_left: kind == "left",
        calls: decimal(calls)?,
    })
}

/// The way and the text of an outcome's line.
fn outcome_in(line: &str) -> Option<(&str, &str)> {
    let (way, text) = line.strip_prefix("outcome ")?.split_once(' ')?;
    let is_way = way == "-" || way.split(',').all(|word| decimal_word(word).is_some());
    if is_way && is_outcome(text) {
        Some((way, text))
    } else {
        None
    }
}

/// Whether a line says how the search ended.
fn is_end(line: &str) -> bool {
    line == COMPLETE || line.strip_prefix("cut ").and_then(decimal).is_some()
}

impl PartFile {
    /// Adds what a line after the second has.
    fn read(&mut self, alloc: Global, line: &str) -> Result<(), PartFault> {
        if let Some(state) = state_of(line) {
            self.states.push(state)?;
        } else if let Some((way, text)) = outcome_in(line) {
            self.outcomes.push(Outcome {
                text: String::from_str(alloc, text)?,
                calls: way.split(',').filter_map(decimal_word).collect(alloc)?,
                runs_on: runs_on_in(text),
            })?;
        } else if !is_end(line) {
            return Err(PartFault::Damaged);
        }
        Ok(())
    }

    /// Reads the lines before that of the sum.
    fn of_lines(alloc: Global, text: &str) -> Result<PartFile, PartFault> {
        let mut lines = text.split('\n').skip(1);
        let Some(head) = lines.next().and_then(head_of) else {
            return Err(PartFault::Damaged);
        };
        let mut file = PartFile {
            head,
            states: Vec::new(alloc),
            outcomes: Vec::new(alloc),
        };
        for line in lines {
            file.read(alloc, line)?;
        }
        Ok(file)
    }

    /// Reads the file of a part. It is refused where its first line is not that of such files, and where its sum is wrong.
    pub fn parse(alloc: Global, bytes: &[u8]) -> Result<PartFile, PartFault> {
        let text = str::from_utf8(bytes).unwrap_or("");
        match text.split_once('\n') {
            Some((first, _rest)) if first == FORM => {}
            _ => return Err(PartFault::NoPart),
        }
        match summed_in(text) {
            Some(lines) => PartFile::of_lines(alloc, lines),
            None => Err(PartFault::Damaged),
        }
    }
}

/// The lines before the last, if that has the sum of theirs, and an end.
fn summed_in(text: &str) -> Option<&str> {
    let (lines, last) = text.strip_suffix('\n')?.rsplit_once('\n')?;
    let mut digest = StateDigest::new();
    digest.text(lines.as_bytes());
    digest.text(b"\n");
    if key_of(last.strip_prefix("sum ")?)? == digest.key() {
        Some(lines)
    } else {
        None
    }
}

//! Reads what the words after a command name: numbers, addresses, labels, lines and locations.
use crate::aids::Aids;
use crate::command::CommandFault;
use crate::showing::MOST_SHOWN;
use debug_info::SourceLines;
use input_reading::{decimal, hex_number, hex_word, hexadecimal, register_named};
use timeline::Location;

/// The bytes of a location that no number and no label measures.
const WORD_BYTES: u32 = 4;

/// An address that a word names.
#[derive(Clone, Copy)]
pub struct NamedPlace {
    pub at: u32,
    /// The bytes from there up to the next label of data. 0 where no label of data is named.
    pub room: u32,
    /// Whether a label of data is named.
    pub in_data: bool,
}

pub fn number_of(word: &str) -> Result<u64, CommandFault> {
    let number = match word.strip_prefix("0x") {
        Some(digits) => hex_number(digits),
        None => decimal(word),
    };
    number.ok_or(CommandFault::Number)
}

/// A number, or one where there is none.
pub fn number_or_one(word: &str) -> Result<u64, CommandFault> {
    if word.is_empty() {
        Ok(1)
    } else {
        number_of(word)
    }
}

/// The number of bytes that a word says.
pub fn count_of(word: &str) -> Result<u32, CommandFault> {
    match number_of(word) {
        Ok(count) if 1 <= count && count <= u64::from(MOST_SHOWN) => Ok(count as u32),
        _ => Err(CommandFault::Count),
    }
}

/// The address that a word says in digits.
pub fn address_in_digits(word: &str) -> Option<u32> {
    match word.strip_prefix("0x") {
        Some(digits) => hex_word(digits),
        None => hexadecimal(word),
    }
}

/// The place at a label, or so many bytes after it.
fn place_at_label(lines: &SourceLines, name: &str, offset: u32) -> Option<NamedPlace> {
    let label = lines.label(name)?;
    Some(NamedPlace {
        at: label.at.checked_add(offset)?,
        room: label.room.saturating_sub(offset),
        in_data: label.in_data,
    })
}

/// The place of a word LABEL or LABEL+N.
fn labelled_place(lines: &SourceLines, word: &str) -> Option<NamedPlace> {
    match word.split_once('+') {
        Some((name, number)) => {
            let offset = number_of(number).ok()?;
            place_at_label(lines, name, u32::try_from(offset).ok()?)
        }
        None => place_at_label(lines, word, 0),
    }
}

/// The place of a word that is an address or names one.
pub fn place_of(word: &str, aids: &Aids) -> Result<NamedPlace, CommandFault> {
    if let Some(at) = address_in_digits(word) {
        return Ok(NamedPlace {
            at,
            room: 0,
            in_data: false,
        });
    }
    let place = match aids.lines() {
        Some(lines) => labelled_place(lines, word),
        None => None,
    };
    place.ok_or(CommandFault::Address)
}

/// The register or the bytes that a word names, with the number of bytes after it, if there is one.
pub fn location_of(words: &str, aids: &Aids) -> Result<Location, CommandFault> {
    let (word, number) = words.split_once(' ').unwrap_or((words, ""));
    let number = number.trim_ascii();
    if number.is_empty() {
        if let Some(register) = register_named(word) {
            return Ok(Location::Register(register));
        }
    }
    let place = place_of(word, aids)?;
    let length = if !number.is_empty() {
        count_of(number)?
    } else if place.room > 0 {
        place.room.min(MOST_SHOWN)
    } else {
        WORD_BYTES
    };
    Ok(Location::Bytes {
        at: place.at,
        length,
    })
}

/// Whether a name is that of a path's file, or the path.
fn is_file(name: &str, path: &str) -> bool {
    match path.rsplit_once('/') {
        Some((_, last)) => name == last || name == path,
        None => name == path,
    }
}

/// The number of a line, of a word LINE or FILE:LINE. None where the word has neither form.
fn line_number(word: &str, aids: &Aids) -> Result<Option<usize>, CommandFault> {
    let digits = match (word.rsplit_once(':'), aids.path()) {
        (Some((name, digits)), Some(path)) => {
            if !is_file(name, path) {
                return Err(CommandFault::File);
            }
            digits
        }
        _ => word,
    };
    Ok(decimal(digits).map(|number| number.min(u64::from(u32::MAX)) as usize))
}

/// The address at which a breakpoint is set: an address, a label of text, or the first word of a line or of the next one with a word.
pub fn break_place(word: &str, aids: &Aids) -> Result<u32, CommandFault> {
    if let Ok(place) = place_of(word, aids) {
        return if place.in_data {
            Err(CommandFault::Data)
        } else {
            Ok(place.at)
        };
    }
    let (Some(number), Some(lines)) = (line_number(word, aids)?, aids.lines()) else {
        return Err(CommandFault::Address);
    };
    match lines.word_from(number) {
        Some((_, at)) => Ok(at),
        None => Err(CommandFault::Line),
    }
}

/// The line around which lines are printed: that of a word LINE, FILE:LINE or LABEL; None where there is no word.
pub fn listed_line(word: &str, aids: &Aids) -> Result<Option<usize>, CommandFault> {
    if word.is_empty() {
        return Ok(None);
    }
    let number = line_number(word, aids)?;
    let Some(lines) = aids.lines() else {
        return Ok(None);
    };
    match number.or(lines.line_of_label(word)) {
        Some(number) if lines.line(number).is_some() => Ok(Some(number)),
        _ => Err(CommandFault::Line),
    }
}

//! `Why`: what is wrong, as it was found where a fault happened.
use std::alloc::{AllocError, Global};
use std::io;

/// The most characters of a line that are told.
const MOST_TOLD: usize = 80;

/// What is said of a line that ends with CR LF, and of one that begins with a byte order mark, as of those of a source.
const ENDS_WITH_CR: &str =
    "lines have to end with LF (this one ends with CR LF): tr -d '\\r' <OLD >NEW, or the editor's setting";

const BEGINS_WITH_MARK: &str =
    "the file begins with a byte order mark (ef bb bf): tail -c +4 OLD >NEW, or the editor's setting";

/// What is wrong.
#[derive(Debug, Drop)]
pub enum Why {
    /// What the host's system says.
    System(io::Error),
    /// A text that says it.
    Said(String),
}

/// The first characters of a line in quotes. A character that would not show is written by its number.
fn quoted(alloc: Global, line: &str) -> Result<String, AllocError> {
    let mut text = String::from_str(alloc, "'")?;
    for c in line.chars().take(MOST_TOLD) {
        if c.is_control() {
            write!(text, "\\u{{{:x}}}", u32::from(c))?;
        } else {
            text.push(c)?;
        }
    }
    text.push_str(if line.chars().nth(MOST_TOLD).is_some() {
        "..'"
    } else {
        "'"
    })?;
    Ok(text)
}

/// What is said of a line that is refused: the line in quotes, and what is wrong with how it ends or begins, or else with its words.
pub fn said_of_line(alloc: Global, line: &str, wrong: &str) -> Result<String, AllocError> {
    if line.ends_with('\r') {
        return String::from_str(alloc, ENDS_WITH_CR);
    }
    if line.starts_with('\u{feff}') {
        return String::from_str(alloc, BEGINS_WITH_MARK);
    }
    let text = quoted(alloc, line)?;
    format!(in alloc; "{text} {wrong}")
}

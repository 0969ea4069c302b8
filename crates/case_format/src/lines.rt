//! Parts a line of a case into words, or into two parts, and joins texts to lines.
use anyhow::{Error, anyhow};
use std::alloc::{AllocError, Global};

/// Why a text is refused: what is wrong, and the text.
pub fn refused(why: &str, text: &str) -> Error {
    anyhow!("{why}{text}")
}

/// Adds texts, one after the other.
pub fn push_texts(out: &mut String, texts: &[&str]) -> Result<(), Error> {
    for text in texts {
        out.push_str(text)?;
    }
    Ok(())
}

/// Adds a line, with its end.
pub fn push_line(out: &mut String, line: &str) -> Result<(), Error> {
    push_texts(out, &[line, "\n"])
}

/// A line without its comment and the blanks round it.
pub fn bare(line: &str) -> &str {
    let (text, _comment) = line.split_once('#').unwrap_or((line, ""));
    text.trim()
}

/// The words of a line.
pub fn words_of<'a>(alloc: Global, line: &'a str) -> Result<Vec<&'a str>, AllocError> {
    line.split_whitespace().collect(alloc)
}

/// The two parts of a text, before and after a mark. Where the mark is not there, `why` is the error.
pub fn two_parts<'a>(text: &'a str, mark: &str, why: &str) -> Result<(&'a str, &'a str), Error> {
    match text.split_once(mark) {
        Some(parts) => Ok(parts),
        None => Err(refused(why, text)),
    }
}

//! Parts a command line into words, as a program is given them.
use std::alloc::{AllocError, Global};

/// The words of a command line, which are parted by blanks.
pub fn arguments(alloc: Global, line: &str) -> Result<Vec<String>, AllocError> {
    let mut words = Vec::new(alloc);
    for word in line.split_whitespace() {
        words.push(String::from_str(alloc, word)?)?;
    }
    Ok(words)
}

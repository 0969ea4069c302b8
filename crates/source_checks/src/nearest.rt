//! The nearest of some words.
use std::alloc::{AllocError, Global};
use strsim::osa_distance;

/// How far a name is from a word: twice the letters that are changed, added, left out or swapped, and one more where its length is
/// another.
fn distance(alloc: Global, word: &str, name: &str) -> Result<usize, AllocError> {
    let letters = osa_distance(alloc, word, name)?;
    let other_length = usize::from(word.len() != name.len());
    Ok(letters.saturating_mul(2).saturating_add(other_length))
}

/// The first of the nearest names, if it is at most a third of the word off, or one letter.
pub fn near<'a>(
    alloc: Global,
    word: &str,
    names: &[&'a str],
) -> Result<Option<&'a str>, AllocError> {
    let mut nearest = None;
    let mut least = usize::MAX;
    for name in names {
        let far = distance(alloc, word, name)?;
        if far < least {
            least = far;
            nearest = Some(*name);
        }
    }
    if least / 2 <= (word.len() / 3).max(1) {
        Ok(nearest)
    } else {
        Ok(None)
    }
}

//! A line as it is shown, with a caret under a place in it.
use std::alloc::{AllocError, Global};
use unicode_width::UnicodeWidthChar;

/// The most characters of a line that are shown. Of a longer one those before the place are shown, and some after it.
const MOST_SHOWN: usize = 120;

/// How many characters before the place are shown of a line that is longer.
const MOST_BEFORE: usize = 80;

/// What stands for the characters of a longer line that are not shown.
const CUT: &str = "..";

/// Whether a character would not show, or would turn the text after it round.
fn is_hidden(c: char) -> bool {
    c.is_control()
        || matches!(c, '\u{200b}'..='\u{200f}' | '\u{202a}'..='\u{202e}' | '\u{2066}'..='\u{2069}' | '\u{feff}')
}

/// Adds a character as it is shown. One that would not show is written with a backslash.
pub fn push_char(text: &mut String, c: char) -> Result<(), AllocError> {
    match c {
        '\t' => text.push(c),
        '\r' => text.push_str("\\r"),
        c if is_hidden(c) => {
            let code = u32::from(c);
            write!(text, "\\u{{{code:x}}}")
        }
        c => text.push(c),
    }
}

/// Adds what stands under a text: a tab under a tab, and a blank for each column that another character takes.
fn push_below(below: &mut String, text: &str) -> Result<(), AllocError> {
    for c in text.chars() {
        if c == '\t' {
            below.push('\t')?;
        } else {
            for _ in 0..c.width().unwrap_or(1) {
                below.push(' ')?;
            }
        }
    }
    Ok(())
}

/// A line as it is shown, and what stands below it up to the caret.
#[derive(Drop)]
pub struct Pointed {
    pub line: String,
    pub below: String,
}

/// The characters of a line of so many that are shown, where so many stand before the place: from the first number up to the second.
fn window(before: usize, count: usize) -> (usize, usize) {
    if count <= MOST_SHOWN {
        return (0, count);
    }
    let first = before.saturating_sub(MOST_BEFORE);
    (first, count.min(first.saturating_add(MOST_SHOWN)))
}

/// A text as it is shown, without so many of its first characters.
fn shown(alloc: Global, text: &str, first: usize, count: usize) -> Result<String, AllocError> {
    let mut shown = String::new(alloc);
    for c in text.chars().skip(first).take(count) {
        push_char(&mut shown, c)?;
    }
    Ok(shown)
}

/// A line with the place of a byte in it, which counts from 1.
pub fn point(alloc: Global, line: &str, column: usize) -> Result<Pointed, AllocError> {
    let (before, after) = line
        .split_at_checked(column.saturating_sub(1))
        .unwrap_or((line, ""));
    let count_before = before.chars().count();
    let count = count_before.saturating_add(after.chars().count());
    let (first, end) = window(count_before, count);
    let mut text = String::new(alloc);
    if first > 0 {
        text.push_str(CUT)?;
    }
    text.push_str(shown(alloc, before, first, MOST_SHOWN)?.as_str())?;
    let mut below = String::new(alloc);
    push_below(&mut below, text.as_str())?;
    text.push_str(shown(alloc, after, 0, end.saturating_sub(count_before))?.as_str())?;
    if end < count {
        text.push_str(CUT)?;
    }
    Ok(Pointed { line: text, below })
}

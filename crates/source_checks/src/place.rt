//! The place of a fault, read as a person would read it.

/// The character that some editors write at the start of a file.
pub const BYTE_ORDER_MARK: char = '\u{feff}';

/// Whether a word begins with this character.
pub fn begins_word(c: char) -> bool {
    c.is_ascii_alphabetic() || c == '_' || c == '.'
}

fn ends_word(c: char) -> bool {
    !begins_word(c) && !c.is_ascii_digit()
}

/// How many bytes of letters, digits, `_` and `.` come first.
fn word_len(text: &str) -> usize {
    text.find(ends_word).unwrap_or(text.len())
}

/// A string with its quotes, or what there is of it.
fn string_len(text: &str) -> usize {
    let mut escaping = false;
    for (at, c) in text.char_indices().skip(1) {
        if c == '"' && !escaping {
            return at.saturating_add(1);
        }
        escaping = c == '\\' && !escaping;
    }
    text.len()
}

/// How many bytes the first word, number, string or character takes.
fn first_len(text: &str) -> usize {
    if let Some(after) = text.strip_prefix('-') {
        return word_len(after).saturating_add(1);
    }
    match text.chars().next() {
        None => 0,
        Some('"') => string_len(text),
        Some(c) => word_len(text).max(c.len_utf8()),
    }
}

/// The first word, number, string or character of a text, and what follows it.
pub fn first_of(text: &str) -> (&str, &str) {
    text.split_at_checked(first_len(text)).unwrap_or((text, ""))
}

/// A text without its comment. A `#` in a string begins none.
pub fn without_comment(line: &str) -> &str {
    let mut rest = line;
    for _ in 0..line.len() {
        if rest.is_empty() || rest.starts_with('#') {
            break;
        }
        rest = first_of(rest).1;
    }
    let len = line.len().saturating_sub(rest.len());
    line.get(..len).unwrap_or(line)
}

/// A line without the blanks at its start, and the mark that a file may begin with.
pub fn without_indent(line: &str) -> &str {
    line.trim_start_matches(BYTE_ORDER_MARK).trim_start()
}

/// The name of the label with which a line begins, if it has one, and its statement.
pub fn label_of(line: &str) -> (Option<&str>, &str) {
    let line = without_indent(line);
    let (name, rest) = first_of(line);
    match rest.strip_prefix(':') {
        Some(rest) if name.starts_with(begins_word) => (Some(name), rest.trim_start()),
        _ => (None, line),
    }
}

/// The name of a statement, if one begins a text, and what follows it.
pub fn name_of(text: &str) -> (&str, &str) {
    if text.starts_with(begins_word) {
        first_of(text)
    } else {
        ("", text)
    }
}

/// The place of a fault in its line.
#[derive(Clone, Copy)]
pub struct Place<'a> {
    pub line: &'a str,
    /// The line without its comment.
    pub code: &'a str,
    /// The mnemonic or directive, if the line has one; else empty.
    pub name: &'a str,
    /// The code after the name.
    pub after: &'a str,
    /// The code between the name and the place. None if the place is not after the name.
    pub operands: Option<&'a str>,
    /// The line from the place on.
    pub rest: &'a str,
    /// The word, number or character at the place. Empty at the line's end, and where a comment begins.
    pub found: &'a str,
}

/// The place in a line, by its column, which counts bytes from 1.
pub fn place_in(line: &str, column: usize) -> Place<'_> {
    let (before, rest) = line
        .split_at_checked(column.saturating_sub(1))
        .unwrap_or((line, ""));
    let code = without_comment(line);
    let (name, after) = name_of(label_of(code).1);
    let start = code.len().saturating_sub(after.len());
    let (found, _) = first_of(rest);
    Place {
        line,
        code,
        name,
        after,
        operands: code.get(start..before.len().min(code.len())),
        rest,
        found: if found == "#" { "" } else { found },
    }
}

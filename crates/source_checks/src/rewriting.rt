//! A line of another assembler, as it is written here.
use crate::foreign::{Cure, cure_of};
use crate::place::Place;
use crate::statements::{has_form, tokens_of};
use asm_text::TokenKind;
use std::alloc::{AllocError, Global};

/// The low and the high part of a number of two bytes, or of two words.
fn halves_of(number: i64, are_words: bool) -> (u64, u64) {
    let number = number.cast_unsigned();
    if are_words {
        (number % 4294967296, number / 4294967296)
    } else {
        (number % 256, number / 256 % 256)
    }
}

/// Adds each of some numbers as two, the low part first.
fn push_halves(
    alloc: Global,
    text: &mut String,
    operands: &str,
    are_words: bool,
) -> Result<(), AllocError> {
    let line = match tokens_of(alloc, operands)? {
        Ok(line) => line,
        Err(_) => return Ok(()),
    };
    for token in line.tokens.as_slice() {
        match &token.kind {
            // (no statement has such a sign)
            TokenKind::Number(number) if !are_words && (*number < -32768 || *number > 65535) => {
                text.push('?')?;
            }
            TokenKind::Number(number) => {
                let (low, high) = halves_of(*number, are_words);
                write!(text, " {low}, {high}")?;
            }
            TokenKind::Comma => text.push(',')?,
            _ => {}
        }
    }
    Ok(())
}

/// Adds the statement that does the work of one with these operands, if there is one. It may have no form.
fn push_statement(
    alloc: Global,
    text: &mut String,
    cure: Cure,
    operands: &str,
) -> Result<(), AllocError> {
    match cure {
        Cure::Word(word, _) => write!(text, "{word}{operands}"),
        Cure::Alone(word) => text.push_str(word),
        Cure::Section if operands.trim_start().starts_with(".text") => text.push_str(".text"),
        Cure::Section => text.push_str(".data"),
        Cure::ZeroEnded => match operands.strip_suffix('"') {
            Some(open) if !open.ends_with('\\') => write!(text, ".ascii{open}\\0\""),
            _ => Ok(()),
        },
        Cure::Halves => {
            text.push_str(".byte")?;
            push_halves(alloc, text, operands, false)
        }
        Cure::Doubles => {
            text.push_str(".word")?;
            push_halves(alloc, text, operands, true)
        }
        Cure::Nothing(_) | Cure::Said(_) => Ok(()),
    }
}

/// The number of the character that an escape of C stands for.
fn escaped_number(escape: char) -> Option<u32> {
    Some(match escape {
        '0' => 0,
        'a' => 7,
        'b' => 8,
        't' => 9,
        'n' => 10,
        'v' => 11,
        'f' => 12,
        'r' => 13,
        '\\' | '\'' | '"' => u32::from(escape),
        _ => return None,
    })
}

/// A character in single quotes with which a text begins, and its number. None if the quotes hold anything else.
pub fn quoted_number(text: &str) -> Option<(&str, u32)> {
    let inside = text.strip_prefix('\'')?;
    let (number, len) = match inside.strip_prefix('\\') {
        Some(after) => (escaped_number(after.chars().next()?)?, 4usize),
        None => {
            let c = inside.chars().next()?;
            (u32::from(c), c.len_utf8().saturating_add(2))
        }
    };
    let quoted = text.get(..len)?;
    (quoted.len() > 2 && quoted.ends_with('\'')).then_some((quoted, number))
}

/// Adds some code with a number for each character in single quotes.
fn push_unquoted(text: &mut String, code: &str) -> Result<(), AllocError> {
    let mut rest = code;
    for _ in 0..code.len() {
        let (before, from) = rest
            .split_at_checked(rest.find('\'').unwrap_or(rest.len()))
            .unwrap_or((rest, ""));
        let Some((quoted, number)) = quoted_number(from) else {
            break;
        };
        write!(text, "{before}{number}")?;
        rest = from.get(quoted.len()..).unwrap_or("");
    }
    text.push_str(rest)
}

/// What does the work of the statement at a place.
fn cure_at(place: &Place<'_>) -> Option<Cure> {
    match place.name {
        ".text" => Some(Cure::Alone(".text")),
        ".data" => Some(Cure::Alone(".data")),
        name => cure_of(name),
    }
}

/// Adds the code of a line as it is written here. Adds nothing if that is not known.
fn push_code(
    alloc: Global,
    text: &mut String,
    place: &Place<'_>,
    code: &str,
) -> Result<(), AllocError> {
    let Some(cure) = cure_at(place) else {
        return if place.found == "'" {
            push_unquoted(text, code)
        } else {
            Ok(())
        };
    };
    let mut statement = String::new(alloc);
    let operands = place.after.trim_ascii_end();
    push_statement(alloc, &mut statement, cure, operands)?;
    let statement = statement.as_str();
    if statement.is_empty() {
        return Ok(());
    }
    let gone = operands.len().saturating_add(place.name.len());
    text.push_str(code.get(..code.len().saturating_sub(gone)).unwrap_or(""))?;
    text.push_str(statement)
}

/// The line of a place as it is written here, if that is known.
pub fn rewritten(alloc: Global, place: &Place<'_>) -> Result<Option<String>, AllocError> {
    let code = place.code.trim_ascii_end();
    let mut text = String::new(alloc);
    push_code(alloc, &mut text, place, code)?;
    if text.as_str().is_empty() {
        return Ok(None);
    }
    text.push_str(place.line.get(code.len()..).unwrap_or("").trim_ascii_end())?;
    if has_form(alloc, text.as_str())? {
        Ok(Some(text))
    } else {
        Ok(None)
    }
}

//! The token with which some bytes begin.
ghost use Rattle.std.specs.Prelude.{◌≡◌, ◌<◌, ◌≤◌, ◌+◌, IfOk, IfSome, false, length};
ghost use Rattle.asm_text.specs.Scan.{word_of, number_of, string_of, contents_from, mark_of, token_at};

use crate::number::number_value;
use crate::quoted::contents;
use crate::runs::{begins_word, run_len, word_len};
use crate::token::TokenKind;
use std::alloc::{AllocError, Global};

/// The most bytes that a word has.
const MOST: usize = 64;

/// A word of this many bytes.
fn word_of(len: usize) -> Option<(TokenKind, usize)>
    ensures value { result ≡ word_of len }
    ensures bound { IfSome result (λ f. f.1 ≡ len) }
{
    if len <= MOST {
        Some((TokenKind::Word, len))
    } else {
        None
    }
}

fn number_of(text: &[u8]) -> Option<(TokenKind, usize)>
    ensures { result ≡ number_of text.now }
{
    let value = number_value(text)?;
    Some((TokenKind::Number(value), text.len()))
}

/// The string whose opening quote stands before these bytes.
fn string_of(alloc: Global, bytes: &[u8]) -> Result<Option<(TokenKind, usize)>, AllocError>
    ensures value { IfOk result (λ found. found ≡ string_of (contents_from false bytes.now)) }
    ensures bound { IfOk result (λ found. IfSome found (λ f. (0 < f.1) × (f.1 ≤ 1 + length bytes.now))) }
{
    let Some((bytes, len)) = contents(alloc, bytes)? else {
        return Ok(None);
    };
    Ok(Some((TokenKind::Text(bytes), 1 + len)))
}

/// The token of one byte.
fn mark_of(after_word: bool, byte: u8) -> Option<TokenKind>
    ensures { result ≡ mark_of after_word byte }
{
    match byte {
        b',' => Some(TokenKind::Comma),
        b':' => Some(TokenKind::Colon),
        b'(' => Some(TokenKind::Open),
        b')' => Some(TokenKind::Close),
        b'+' if after_word => Some(TokenKind::Plus),
        b'-' if after_word => Some(TokenKind::Minus),
        _ => None,
    }
}

/// The kind of the token that comes first, and how many bytes it takes. `after_word`: a word ends directly before.
pub fn token_at(
    alloc: Global,
    after_word: bool,
    bytes: &[u8],
) -> Result<Option<(TokenKind, usize)>, AllocError>
    ensures value { IfOk result (λ found. found ≡ token_at after_word bytes.now) }
    ensures bound { IfOk result (λ found. IfSome found (λ f. (0 < f.1) × (f.1 ≤ length bytes.now))) }
{
    let [first, rest @ ..] = bytes else {
        return Ok(None);
    };
    if begins_word(*first) {
        return Ok(word_of(word_len(bytes)));
    }
    if first.is_ascii_digit() || (*first == b'-' && !after_word) {
        return Ok(number_of(&bytes[..run_len(bytes)]));
    }
    if *first == b'"' {
        return string_of(alloc, rest);
    }
    match mark_of(after_word, *first) {
        Some(kind) => Ok(Some((kind, 1))),
        None => Ok(None),
    }
}

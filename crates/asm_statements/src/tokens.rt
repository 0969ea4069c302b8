//! What the tokens of a line are.
ghost use Rattle.std.specs.Prelude.{◌≡◌};
ghost use Rattle.asm_text.specs.declared.token.TokenKind.TheVariants.{Comma, Colon, Open, Close, Plus, Minus};
ghost use Rattle.asm_statements.specs.Tokens.{text_at, is_mark, literal_of, number_of, is_string, is_name, is_label, register_at};

use crate::literal::Literal;
use crate::names::register_named;
use asm_text::{Token, TokenKind};
use formats::Reg;

/// The one word with a `.` inside, which is a mnemonic.
const FENCE_I: &[u8] = b"fence.i";

/// The bytes of the source from one place up to another. Empty where the source has no such places.
pub fn text_at(source: &[u8], start: usize, end: usize) -> &[u8]
    ensures { result.now ≡ text_at source.now start end }
{
    if start <= end && end <= source.len() {
        &source[start..end]
    } else {
        &[]
    }
}

pub fn is_comma(kind: &TokenKind) -> bool
    ensures { result ≡ is_mark Comma kind.now }
{
    matches!(kind, TokenKind::Comma)
}

pub fn is_colon(kind: &TokenKind) -> bool
    ensures { result ≡ is_mark Colon kind.now }
{
    matches!(kind, TokenKind::Colon)
}

/// Whether it is `(`.
pub fn is_open(kind: &TokenKind) -> bool
    ensures { result ≡ is_mark Open kind.now }
{
    matches!(kind, TokenKind::Open)
}

/// Whether it is `)`.
pub fn is_close(kind: &TokenKind) -> bool
    ensures { result ≡ is_mark Close kind.now }
{
    matches!(kind, TokenKind::Close)
}

pub fn is_plus(kind: &TokenKind) -> bool
    ensures { result ≡ is_mark Plus kind.now }
{
    matches!(kind, TokenKind::Plus)
}

pub fn is_minus(kind: &TokenKind) -> bool
    ensures { result ≡ is_mark Minus kind.now }
{
    matches!(kind, TokenKind::Minus)
}

fn literal_of(number: i64) -> Option<Literal>
    ensures { result ≡ literal_of number }
{
    if number >= -2147483648 && number <= 4294967295 {
        Some(Literal::new(number))
    } else {
        None
    }
}

/// The number that a token is, if it is one.
pub fn number_of(kind: &TokenKind) -> Option<Literal>
    ensures { result ≡ number_of kind.now }
{
    match kind {
        TokenKind::Number(number) => literal_of(*number),
        _ => None,
    }
}

pub fn is_string(kind: &TokenKind) -> bool
    ensures { result ≡ is_string kind.now }
{
    matches!(kind, TokenKind::Text(_))
}

/// Whether a word may be a label's name: it is no directive's name, and not `fence.i`.
fn is_name(word: &[u8]) -> bool
    ensures { result ≡ is_name word.now }
{
    match word {
        [] => false,
        [first, ..] => *first != b'.' && word != FENCE_I,
    }
}

pub fn is_label(source: &[u8], token: &Token) -> bool
    ensures { result ≡ is_label source.now token.now }
{
    token.kind.is_word() && is_name(text_at(source, token.start, token.end))
}

/// The register that a token names, if it names one.
pub fn register_at(source: &[u8], token: &Token) -> Option<Reg>
    ensures { result ≡ register_at source.now token.now }
{
    if token.kind.is_word() {
        register_named(text_at(source, token.start, token.end))
    } else {
        None
    }
}

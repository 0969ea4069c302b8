//! Tokens, and the lines in which they stand.
ghost use Rattle.std.specs.Prelude.{◌≡◌, ◌≤◌, length, slice_range};
ghost use Rattle.asm_text.specs.Text.{is_word};

use byte_list::Bytes;
use std::marker::Model;

/// What a token is.
#[derive(Drop)]
pub enum TokenKind {
    /// A mnemonic, a register, a label or a directive: a letter, `_` or `.`, then letters, digits and `_`, at most 64 bytes.
    /// `fence.i` is one word too, where no letter, digit or `_` follows it.
    Word,
    /// A number from -2^31 to 2^32 - 1: decimal, or hexadecimal after `0x`, with `-` directly before it where it is negative.
    /// Directly after a word `-` is `Minus`, and no part of a number.
    Number(i64),
    /// A string in double quotes: its bytes, with the escapes replaced.
    Text(Bytes),
    /// `,`
    Comma,
    /// `:`
    Colon,
    /// `(`
    Open,
    /// `)`
    Close,
    /// `+`, which stands directly after a word.
    Plus,
    /// `-` directly after a word.
    Minus,
}

impl TokenKind {
    /// Whether it is a word.
    pub fn is_word(&self) -> bool
        ensures { result ≡ is_word self.now }
    {
        match self {
            TokenKind::Word => true,
            _ => false,
        }
    }
}

/// A token: what it is, and where it stands.
pub struct Token {
    pub kind: TokenKind,
    /// The place of its first byte in the source, from 0.
    pub start: usize,
    /// The place after its last byte.
    pub end: usize,
}

impl Drop for Token {
    fn drop(self) {
        let Token {
            kind: _kind,
            start: _,
            end: _,
        } = self;
    }
}

impl Token {
    /// The bytes of the source that are the token.
    pub fn text<'a>(&self, source: &'a str) -> &'a [u8]
        requires ordered { self.now.start ≤ self.now.end }
        requires within { self.now.end ≤ length source.now }
        ensures { result.now ≡ slice_range source.now self.now.start self.now.end }
    {
        &source.as_bytes()[self.start..self.end]
    }
}

/// The tokens of a line. A contract sees them as a list.
pub struct Tokens {
    tokens: Vec<Token>,
}

impl Drop for Tokens {
    fn drop(self) {
        let Tokens { tokens: _tokens } = self;
    }
}

impl Model for Tokens {
    ghost use Rattle.std.specs.Prelude.{List};
    ghost use Rattle.asm_text.specs.declared.token.Token.{Token};

    ghost Value = { List Token };

    ghost view = { λ t. t.tokens.items };
}

impl Tokens {
    /// The tokens of a vector. Takes no memory.
    pub fn new(tokens: Vec<Token>) -> Tokens
        ensures { result ≡ tokens.items }
    {
        Tokens { tokens }
    }

    /// The tokens in the order of the source.
    pub fn as_slice(&self) -> &[Token]
        ensures { result.now ≡ self.now }
    {
        self.tokens.as_slice()
    }
}

/// A line of the source.
pub struct Line {
    /// Its number, from 1.
    pub number: usize,
    /// The place of its first byte in the source, from 0.
    pub start: usize,
    /// The place after its last byte, its comment included: that of its LF, or the end of the source.
    pub end: usize,
    /// Its tokens.
    pub tokens: Tokens,
}

impl Drop for Line {
    fn drop(self) {
        let Line {
            number: _,
            start: _,
            end: _,
            tokens: _tokens,
        } = self;
    }
}

//! The tokens of a line.
ghost use Rattle.std.specs.Prelude.{◌≡◌, ◌+◌, ◌<◌, ◌^◌, ◌&&◌, ◌==◌, length, MatchResult};
ghost use Rattle.std.specs.Bool.{MatchBool};
ghost use Rattle.asm_text.specs.Text.{IsEndOrComment, IsLine, IsLineFault};
ghost use Rattle.asm_text.specs.Faults.{Stands};

use crate::fault::{Cause, TextFault};
use crate::runs::blank_len;
use crate::scan::token_at;
use crate::token::{Line, Token, Tokens};
use std::alloc::Global;

/// Whether a word still ends here after so many blanks.
fn still_after(word: bool, blanks: usize) -> bool
    ensures { result ≡ (word && (blanks == 0)) }
{
    word && blanks == 0
}

/// Whether nothing or a comment is the rest of the line.
fn is_over(rest: &[u8]) -> bool
    ensures { MatchBool result (IsEndOrComment rest.now) (IsEndOrComment rest.now → ⊥) }
{
    match rest {
        [] => true,
        [first, ..] => *first == b'#',
    }
}

/// The line of these bytes, the first of which is byte `start` of the source.
pub fn line_at(alloc: Global, number: usize, start: usize, bytes: &[u8]) -> Result<Line, TextFault>
    requires { start + length bytes.now < 2 ^ 63 }
    ensures { MatchResult result
        (λ l. IsLine number start bytes.now l)
        (λ f. Stands (λ line column. (line ≡ number) × IsLineFault start bytes.now column) f) }
{
    let mut tokens = Vec::new(alloc);
    let mut at = start;
    let mut rest = bytes;
    let mut after_word = false;
    loop {
        let blanks = blank_len(rest);
        let (_, here) = rest.split_at(blanks);
        at += blanks;
        let directly = still_after(after_word, blanks);
        if is_over(here) {
            return Ok(Line {
                number,
                start,
                end: start + bytes.len(),
                tokens: Tokens::new(tokens),
            });
        }
        let Some((kind, len)) = token_at(alloc, directly, here)? else {
            return Err(TextFault {
                why: Cause::Syntax,
                line: number,
                column: at - start + 1,
            });
        };
        let (_, after) = here.split_at(len);
        after_word = kind.is_word();
        tokens.push(Token {
            kind,
            start: at,
            end: at + len,
        })?;
        at += len;
        rest = after;
    }
}

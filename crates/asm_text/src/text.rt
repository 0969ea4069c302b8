//! The lines of a source.
ghost use Rattle.std.specs.Prelude.{MatchResult, IfOk, All};
ghost use Rattle.asm_text.specs.Text.{IsText, FirstFault, HasSlices};
ghost use Rattle.asm_text.specs.Faults.{Stands};

use crate::fault::TextFault;
use crate::line::line_at;
use crate::runs::line_len;
use crate::token::Line;
use std::alloc::Global;

/// All lines of a source with their tokens, also those with none. n line feeds make n + 1 lines, of which the last may be empty. A
/// comment runs from `#` to the end of its line and may hold any bytes.
///
/// A syntax fault stands at the first byte that begins no token. A faulty string counts from its opening quote, a faulty number
/// from its first byte or its `-`. A word of over 64 bytes counts from its first byte. The order of tokens is not checked here.
pub fn lines(alloc: Global, source: &str) -> Result<Vec<Line>, TextFault>
    // Exactly the source's lines and tokens, or its first fault.
    ensures exact { MatchResult result (λ ls. IsText source.now ls.items) (λ f. Stands (FirstFault source.now) f) }
    // What follows for each line: it lies in the source, its tokens in it, and each token's bytes have its form.
    ensures slices { IfOk result (λ ls. All (HasSlices source.now) ls.items) }
{
    let mut lines = Vec::new(alloc);
    let mut start = 0;
    let mut rest = source.as_bytes();
    loop {
        let (line, after) = rest.split_at(line_len(rest));
        let read = line_at(alloc, lines.len() + 1, start, line)?;
        lines.push(read)?;
        let [_, next @ ..] = after else {
            return Ok(lines);
        };
        start += line.len() + 1;
        rest = next;
    }
}

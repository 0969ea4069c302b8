//! Text to a writer.
ghost use Rattle.std.specs.Prelude.{◌≡◌, ◌<◌, ◌≤◌, ◌↔◌, IsTrue, IfOk, IfErr, OnOk, drop, length, slice_range};
ghost use Rattle.std.specs.Io.KnownBytes.{Appends};
ghost use Rattle.console.specs.Sinks.{Calls, GoesOut, IsRefused, IsInterrupted};

use crate::sink::Sink;
use std::io::{self, ErrorKind, Write};
use thiserror::Error;

/// The writer failed, or took nothing.
#[derive(Clone, Copy, Debug, PartialEq, Eq, Error)]
#[error("the text went out up to byte {upto}")]
pub struct PumpFault {
    /// Where in the text the bytes begin that did not go out.
    pub upto: usize,
}

fn is_interrupted(answer: &io::Result<usize>) -> bool
    ensures { IsTrue result ↔ IsInterrupted answer.now }
{
    match answer {
        Ok(_) => false,
        Err(error) => error.kind() == ErrorKind::Interrupted,
    }
}

/// Offers bytes, and again while the call is interrupted, as `Write::write_all` does.
fn offer_again<S: Sink>(sink: &mut S, bytes: &[u8]) -> io::Result<usize>
    ensures count { IfOk result (λ count. count ≤ length bytes.now) }
    ensures called { Calls S.answers bytes.now sink.old result sink.new }
{
    for _ in 0..u64::MAX {
        let answer = sink.offer(bytes);
        if !is_interrupted(&answer) {
            return answer;
        }
    }
    sink.offer(bytes)
}

/// Offers a text to a sink from byte `from` on, each time the rest that was not yet taken, and gives the text's length. An
/// interrupted call is made again. The fault comes only where the last call failed, or took nothing of the bytes that it was
/// offered.
pub fn pump_into<S: Sink>(sink: &mut S, text: &[u8], from: usize) -> Result<usize, PumpFault>
    requires { from ≤ length text.now }
    ensures all { IfOk result (λ end. end ≡ length text.now) }
    ensures out { IfOk result (GoesOut S.answers text.now sink.old from sink.new) }
    ensures fault { IfErr result (λ fault. IsRefused S.answers text.now sink.old from sink.new fault.upto) }
{
    let mut upto = from;
    while upto < text.len() {
        match offer_again(sink, &text[upto..]) {
            Ok(0) | Err(_) => return Err(PumpFault { upto }),
            Ok(count) => upto += count,
        }
    }
    Ok(upto)
}

/// Writes a text from byte `from` on, in as many calls of `write` as it takes, and gives the text's length. It is `pump_into`, with
/// clauses that name what the writer holds. An interrupted call is made again. The fault comes where the writer answers an error or
/// takes nothing, and nothing is written after it.
#[tactic(auto, using(crate::proofs::Going::all_goes, crate::proofs::Going::part_goes, crate::proofs::Going::part_ascends))]
pub fn pump<W: Write>(writer: &mut W, text: &[u8], from: usize) -> Result<usize, PumpFault>
    requires { from ≤ length text.now }
    ensures all { IfOk result (λ end. end ≡ length text.now) }
    ensures out { OnOk result (Appends (W.contents writer.old) (W.contents writer.new) (drop from text.now)) }
    ensures within { IfErr result (λ fault. (from ≤ fault.upto) × (fault.upto < length text.now)) }
    ensures part { IfErr result (λ fault. Appends (W.contents writer.old) (W.contents writer.new) (slice_range text.now from fault.upto)) }
{
    pump_into(writer, text, from)
}

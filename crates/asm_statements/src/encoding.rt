//! The words of instructions.
ghost use Rattle.std.specs.Prelude.{◌≡◌};
ghost use Rattle.asm_statements.specs.Expansion.{word_of};

use formats::{Instr, encode};

/// The word of an instruction, as `formats::encode` gives it.
#[tactic(auto, using(crate::proofs::Encodings::word_is))]
pub fn word(instr: &Instr) -> u32
    ensures { result ≡ word_of instr.now }
{
    encode(instr)
}

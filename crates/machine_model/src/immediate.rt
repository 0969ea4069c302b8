//! The words of immediates.
ghost use Rattle.std.specs.Prelude.{◌≡◌};
ghost use Rattle.machine_model.specs.Arithmetic.{as_word};

use formats::Immediate;

/// The word that an immediate spells in two's complement.
#[inline]
pub fn word_of_immediate(imm: Immediate) -> u32
    ensures { result ≡ as_word imm }
{
    imm.value().cast_unsigned()
}

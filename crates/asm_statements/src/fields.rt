//! Numbers that fit the fields of an instruction, and the parts of a word.
ghost use Rattle.std.specs.Prelude.{◌≡◌};
ghost use Rattle.asm_statements.specs.Expansion.{immediate_of, offset_of, amount_of, modulo_word, low_part, high_part};

use formats::{BranchOffset, Immediate, JumpOffset, ShiftAmount, Upper};

/// -2048 to 2047, else none.
#[tactic(auto, unfolding(crate::specs::Expansion::immediate_of))]
pub fn immediate(value: i64) -> Option<Immediate>
    ensures { result ≡ immediate_of value }
{
    if value >= -2048 && value <= 2047 {
        Some(Immediate::new(value as i32))
    } else {
        None
    }
}

/// A multiple of 4 from -4096 to 4092, else none.
#[tactic(auto, unfolding(crate::specs::Expansion::offset_of))]
pub fn branch_offset(value: i64) -> Option<BranchOffset>
    ensures { result ≡ offset_of 4096 value }
{
    if value >= -4096 && value <= 4092 && value.cast_unsigned() % 4 == 0 {
        Some(BranchOffset::new(value as i32))
    } else {
        None
    }
}

/// A multiple of 4 from -1048576 to 1048572, else none.
#[tactic(auto, unfolding(crate::specs::Expansion::offset_of))]
pub fn jump_offset(value: i64) -> Option<JumpOffset>
    ensures { result ≡ offset_of 1048576 value }
{
    if value >= -1048576 && value <= 1048572 && value.cast_unsigned() % 4 == 0 {
        Some(JumpOffset::new(value as i32))
    } else {
        None
    }
}

/// 0 to 0xFFFFF, not yet shifted; else none.
#[tactic(auto, unfolding(crate::specs::Expansion::amount_of))]
pub fn upper(value: i64) -> Option<Upper>
    ensures { result ≡ amount_of 1048576 value }
{
    if value >= 0 && value <= 1048575 {
        Some(Upper::new(value as u32))
    } else {
        None
    }
}

/// 0 to 31, else none.
#[tactic(auto, unfolding(crate::specs::Expansion::amount_of))]
pub fn amount(value: i64) -> Option<ShiftAmount>
    ensures { result ≡ amount_of 32 value }
{
    if value >= 0 && value <= 31 {
        Some(ShiftAmount::new(value as u8))
    } else {
        None
    }
}

/// A number modulo 2^32.
#[tactic(auto, unfolding(crate::specs::Expansion::modulo_word))]
pub fn modulo_word(value: i64) -> u32
    ensures { result ≡ modulo_word value }
{
    (value.cast_unsigned() % 4294967296) as u32
}

/// A word's low twelve bits, with their sign.
#[tactic(auto, unfolding(crate::specs::Expansion::low_part))]
pub fn low_part(word: u32) -> Immediate
    ensures { result ≡ low_part word }
{
    let low = (word % 4096) as i32;
    if low < 2048 {
        Immediate::new(low)
    } else {
        Immediate::new(low - 4096)
    }
}

/// The upper twenty bits of a word less its low part.
#[tactic(auto, unfolding(crate::specs::Expansion::high_part, crate::specs::Expansion::low_part, crate::specs::Expansion::modulo_word))]
pub fn high_part(word: u32) -> Upper
    ensures { result ≡ high_part word }
{
    let rounded = (u64::from(word) + 2048) / 4096;
    Upper::new((rounded % 1048576) as u32)
}

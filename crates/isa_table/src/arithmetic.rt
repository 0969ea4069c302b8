//! The operations on words that take more than one of Rust's operators.
ghost use Rattle.std.specs.Prelude.{◌≡◌, pos, ◌*ℤ◌, ◌*◌, ◌/◌, ◌^◌, ◌<◌};
ghost use Rattle.std.specs.Int.{cast_unsigned, w64};
ghost use Rattle.memory_model.specs.Access.{size};
ghost use Rattle.machine_model.specs.Arithmetic as model;
ghost use Rattle.machine_model.specs.Effects as effects;

use machine_model::Width;

/// Adds an offset to an address modulo 2^32.
#[inline]
pub fn moved(address: u32, offset: i32) -> u32
    ensures { result ≡ effects.moved address offset }
{
    address.wrapping_add(offset.cast_unsigned())
}

/// A shift to the right that fills with the sign.
#[inline]
pub fn shifted_right_signed(a: u32, amount: u32) -> u32
    requires { amount < 32 }
    ensures { result ≡ model.shifted_right_signed a amount }
{
    (a.cast_signed() >> amount).cast_unsigned()
}

/// Whether one signed number is below another.
#[inline]
pub fn is_less_signed(a: u32, b: u32) -> bool
    ensures { result ≡ model.is_less_signed a b }
{
    a.cast_signed() < b.cast_signed()
}

/// The product of two signed numbers.
#[inline]
fn signed_product(a: i32, b: i32) -> i64
    ensures { result ≡ a *ℤ b }
{
    i64::from(a) * i64::from(b)
}

/// The product of a signed and an unsigned number.
#[inline]
fn mixed_product(a: i32, b: u32) -> i64
    ensures { result ≡ a *ℤ pos b }
{
    i64::from(a) * i64::from(b)
}

/// The high word of a product.
#[inline]
fn high_word(product: i64) -> u32
    ensures { result ≡ cast_unsigned w64 product / 2 ^ 32 }
{
    (product.cast_unsigned() >> 32) as u32
}

/// The high word of the product of two signed numbers.
#[inline]
pub fn high_product_signed(a: u32, b: u32) -> u32
    ensures { result ≡ model.high_product_signed a b }
{
    high_word(signed_product(a.cast_signed(), b.cast_signed()))
}

/// The high word of the product of a signed and an unsigned number.
#[inline]
pub fn high_product_mixed(a: u32, b: u32) -> u32
    ensures { result ≡ model.high_product_mixed a b }
{
    high_word(mixed_product(a.cast_signed(), b))
}

/// The high word of the product of two unsigned numbers.
#[inline]
pub fn high_product(a: u32, b: u32) -> u32
    ensures { result ≡ model.high_product a b }
{
    ((u64::from(a) * u64::from(b)) >> 32) as u32
}

/// Rounds toward zero. By 0 all ones, and of -2^31 by -1 the word of -2^31 (ISA chapter 7).
#[inline]
pub fn quotient_signed(a: u32, b: u32) -> u32
    ensures { result ≡ model.quotient_signed a b }
{
    if b == 0 {
        u32::MAX
    } else {
        a.cast_signed()
            .wrapping_div(b.cast_signed())
            .cast_unsigned()
    }
}

/// By 0 all ones (ISA chapter 7).
#[inline]
pub fn quotient(a: u32, b: u32) -> u32
    ensures { result ≡ model.quotient a b }
{
    if b == 0 { u32::MAX } else { a / b }
}

/// Has the dividend's sign. By 0 the dividend, and of -2^31 by -1 it is 0 (ISA chapter 7).
#[inline]
pub fn remainder_signed(a: u32, b: u32) -> u32
    ensures { result ≡ model.remainder_signed a b }
{
    if b == 0 {
        a
    } else {
        a.cast_signed()
            .wrapping_rem(b.cast_signed())
            .cast_unsigned()
    }
}

/// By 0 the dividend (ISA chapter 7).
#[inline]
pub fn remainder(a: u32, b: u32) -> u32
    ensures { result ≡ model.remainder a b }
{
    if b == 0 { a } else { a % b }
}

/// The word of a loaded value, whose highest bit at this width is its sign.
#[inline]
pub fn sign_extended(value: u32, width: Width) -> u32
    ensures { result ≡ model.sign_extended (8 * size width) value }
{
    match width {
        Width::Byte => if value < 0x80 {
            value
        } else {
            value.wrapping_add(0xffff_ff00)
        },
        Width::Half => if value < 0x8000 {
            value
        } else {
            value.wrapping_add(0xffff_0000)
        },
        Width::Word => value,
    }
}

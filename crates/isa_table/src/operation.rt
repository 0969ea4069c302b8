//! What the operations of instructions make of two words, and whether the conditions of branches hold of them.
ghost use Rattle.std.specs.Prelude.{◌≡◌};
ghost use Rattle.machine_model.specs.Operators.{holds_of, value_of};

use crate::arithmetic::{
    high_product, high_product_mixed, high_product_signed, is_less_signed, quotient,
    quotient_signed, remainder, remainder_signed, shifted_right_signed,
};
use formats::{Arithmetic, Condition};

/// The result of an operation on two words. Inlined, so that the loop of an interpreter, whose operation is constant, keeps one arm.
#[inline(always)]
pub fn computed(operation: Arithmetic, a: u32, b: u32) -> u32
    ensures { result ≡ value_of operation a b }
{
    match operation {
        Arithmetic::Add => a.wrapping_add(b),
        Arithmetic::Sub => a.wrapping_sub(b),
        Arithmetic::Sll => a << (b % 32),
        Arithmetic::Slt => u32::from(is_less_signed(a, b)),
        Arithmetic::Sltu => u32::from(a < b),
        Arithmetic::Xor => a ^ b,
        Arithmetic::Srl => a >> (b % 32),
        Arithmetic::Sra => shifted_right_signed(a, b % 32),
        Arithmetic::Or => a | b,
        Arithmetic::And => a & b,
        Arithmetic::Mul => a.wrapping_mul(b),
        Arithmetic::Mulh => high_product_signed(a, b),
        Arithmetic::Mulhsu => high_product_mixed(a, b),
        Arithmetic::Mulhu => high_product(a, b),
        Arithmetic::Div => quotient_signed(a, b),
        Arithmetic::Divu => quotient(a, b),
        Arithmetic::Rem => remainder_signed(a, b),
        Arithmetic::Remu => remainder(a, b),
    }
}

/// Whether a condition holds of two words. Inlined for the same reason as `computed`.
#[inline(always)]
pub fn holds(condition: Condition, a: u32, b: u32) -> bool
    ensures { result ≡ holds_of condition a b }
{
    match condition {
        Condition::Equal => a == b,
        Condition::NotEqual => a != b,
        Condition::Less => is_less_signed(a, b),
        Condition::NotLess => !is_less_signed(a, b),
        Condition::Below => a < b,
        Condition::NotBelow => a >= b,
    }
}

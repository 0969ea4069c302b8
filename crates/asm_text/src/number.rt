//! The value of a number.
ghost use Rattle.std.specs.Prelude.{◌≡◌, ◌≤◌, ◌<◌, ◌^◌, IfSome};
ghost use Rattle.asm_text.specs.Letters.{digits_value, some_digits, magnitude, above_zero, below_zero, number_value};
ghost use Rattle.asm_text.specs.Scan.{bounded};

/// One more than the greatest number.
const LIMIT: u64 = 0x1_0000_0000;

/// The value of digits to a base, of at least one, where it is below 2^32.
fn some_digits(base: u32, digits: &[u8]) -> Option<u64>
    requires least { 2 ≤ base }
    requires most { base ≤ 16 }
    ensures { result ≡ bounded (some_digits base digits.now) }
{
    if digits.is_empty() {
        return None;
    }
    digits_value(base, digits)
}

/// The value of digits to a base, where it is below 2^32.
fn digits_value(base: u32, digits: &[u8]) -> Option<u64>
    requires least { 2 ≤ base }
    requires most { base ≤ 16 }
    ensures { result ≡ bounded (digits_value base 0 digits.now) }
{
    let mut value = 0;
    for byte in digits {
        let digit = char::from(*byte).to_digit(base)?;
        value = u64::from(base) * value + u64::from(digit);
        if value >= LIMIT {
            return None;
        }
    }
    Some(value)
}

/// The value of a number with no sign, where it is below 2^32.
fn magnitude(text: &[u8]) -> Option<u64>
    ensures value { result ≡ bounded (magnitude text.now) }
    ensures bound { IfSome result (λ m. m < 2 ^ 32) }
{
    match text {
        [b'0', b'x', digits @ ..] => some_digits(16, digits),
        _ => some_digits(10, text),
    }
}

fn above_zero(magnitude: u64) -> Option<i64>
    requires { magnitude < 2 ^ 32 }
    ensures { result ≡ above_zero magnitude }
{
    Some(magnitude as i64)
}

/// A number below 0, which is at least -2^31.
fn below_zero(magnitude: u64) -> Option<i64>
    requires { magnitude < 2 ^ 32 }
    ensures { result ≡ below_zero magnitude }
{
    if magnitude <= 0x8000_0000 {
        Some(-(magnitude as i64))
    } else {
        None
    }
}

/// The value of a number with its sign. None where it is malformed, or outside -2^31 to 2^32 - 1.
pub fn number_value(text: &[u8]) -> Option<i64>
    ensures { result ≡ number_value text.now }
{
    match text {
        [b'-', digits @ ..] => below_zero(magnitude(digits)?),
        _ => above_zero(magnitude(text)?),
    }
}

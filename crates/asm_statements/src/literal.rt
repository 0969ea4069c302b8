//! Numbers that a source may name.
ghost use Rattle.std.specs.Prelude.{◌≡◌, ℤ, pos};
ghost use Rattle.asm_statements.specs.Tokens.{IsLiteral};

use std::marker::Model;

/// A number from -2^31 to 2^32 - 1. A contract sees the number.
#[derive(Clone, Copy)]
pub struct Literal {
    value: i64,
}

impl Model for Literal {
    ghost Value = { ℤ };

    ghost view = { λ l. l.value };

    ghost invariant = { λ l. IsLiteral l.value };

    ghost inverse = { λ n. record { value = n } };
}

impl Literal {
    pub fn new(value: i64) -> Literal
        requires { IsLiteral value }
        ensures { result ≡ value }
    {
        Literal { value }
    }

    pub fn zero() -> Literal
        ensures { result ≡ pos 0 }
    {
        Literal { value: 0 }
    }

    pub fn value(self) -> i64
        ensures value { result ≡ self }
        ensures range { IsLiteral result }
    {
        self.value
    }
}

//! The fields of an instruction: a register's number, and the immediates. The type of each keeps it within its field.
ghost use Rattle.std.specs.Prelude.{◌≡◌, ℕ, ℤ, ◌<◌, ◌^◌};
ghost use Rattle.formats.specs.Fields.{IsImmediate, IsBranchOffset, IsJumpOffset};

use std::marker::Model;

/// A register, x0 to x31. A contract sees its number.
#[derive(Clone, Copy, Debug, PartialEq, Eq)]
pub struct Reg {
    number: u8,
}

impl Model for Reg {
    ghost Value = { ℕ };

    ghost view = { λ r. r.number };

    ghost invariant = { λ r. r.number < 32 };

    ghost inverse = { λ n. record { number = n } };
}

impl Reg {
    /// The register of this number, x0 to x31.
    #[inline]
    pub fn new(number: u8) -> Reg
        requires { number < 32 }
        ensures { result ≡ number }
    {
        Reg { number }
    }

    /// The register's number, 0 to 31.
    #[inline]
    pub fn number(self) -> u8
        ensures value { result ≡ self }
        ensures range { result < 32 }
    {
        self.number
    }
}

/// The immediate of an I-type or S-type instruction: -2048 to 2047.
#[derive(Clone, Copy, Debug, PartialEq, Eq)]
pub struct Immediate {
    value: i32,
}

impl Model for Immediate {
    ghost Value = { ℤ };

    ghost view = { λ i. i.value };

    ghost invariant = { λ i. IsImmediate i.value };

    ghost inverse = { λ n. record { value = n } };
}

impl Immediate {
    #[inline]
    pub fn new(value: i32) -> Immediate
        requires { IsImmediate value }
        ensures { result ≡ value }
    {
        Immediate { value }
    }

    #[inline]
    pub fn value(self) -> i32
        ensures value { result ≡ self }
        ensures range { IsImmediate result }
    {
        self.value
    }
}

/// The offset of a branch, in bytes: even, -4096 to 4094.
#[derive(Clone, Copy, Debug, PartialEq, Eq)]
pub struct BranchOffset {
    value: i32,
}

impl Model for BranchOffset {
    ghost Value = { ℤ };

    ghost view = { λ i. i.value };

    ghost invariant = { λ i. IsBranchOffset i.value };

    ghost inverse = { λ n. record { value = n } };
}

impl BranchOffset {
    #[inline]
    pub fn new(value: i32) -> BranchOffset
        requires { IsBranchOffset value }
        ensures { result ≡ value }
    {
        BranchOffset { value }
    }

    #[inline]
    pub fn value(self) -> i32
        ensures value { result ≡ self }
        ensures range { IsBranchOffset result }
    {
        self.value
    }
}

/// The offset of a JAL, in bytes: even, -1048576 to 1048574.
#[derive(Clone, Copy, Debug, PartialEq, Eq)]
pub struct JumpOffset {
    value: i32,
}

impl Model for JumpOffset {
    ghost Value = { ℤ };

    ghost view = { λ i. i.value };

    ghost invariant = { λ i. IsJumpOffset i.value };

    ghost inverse = { λ n. record { value = n } };
}

impl JumpOffset {
    #[inline]
    pub fn new(value: i32) -> JumpOffset
        requires { IsJumpOffset value }
        ensures { result ≡ value }
    {
        JumpOffset { value }
    }

    #[inline]
    pub fn value(self) -> i32
        ensures value { result ≡ self }
        ensures range { IsJumpOffset result }
    {
        self.value
    }
}

/// The upper twenty bits of a word, the immediate of LUI and AUIPC: below 2^20.
#[derive(Clone, Copy, Debug, PartialEq, Eq)]
pub struct Upper {
    value: u32,
}

impl Model for Upper {
    ghost Value = { ℕ };

    ghost view = { λ u. u.value };

    ghost invariant = { λ u. u.value < 2 ^ 20 };

    ghost inverse = { λ n. record { value = n } };
}

impl Upper {
    /// The upper bits as the number in the field, not yet shifted.
    #[inline]
    pub fn new(value: u32) -> Upper
        requires { value < 2 ^ 20 }
        ensures { result ≡ value }
    {
        Upper { value }
    }

    /// The number in the field, not yet shifted.
    #[inline]
    pub fn value(self) -> u32
        ensures value { result ≡ self }
        ensures range { result < 2 ^ 20 }
    {
        self.value
    }
}

/// How far a shift by an immediate goes: below 32.
#[derive(Clone, Copy, Debug, PartialEq, Eq)]
pub struct ShiftAmount {
    value: u8,
}

impl Model for ShiftAmount {
    ghost Value = { ℕ };

    ghost view = { λ s. s.value };

    ghost invariant = { λ s. s.value < 32 };

    ghost inverse = { λ n. record { value = n } };
}

impl ShiftAmount {
    #[inline]
    pub fn new(value: u8) -> ShiftAmount
        requires { value < 32 }
        ensures { result ≡ value }
    {
        ShiftAmount { value }
    }

    #[inline]
    pub fn value(self) -> u8
        ensures value { result ≡ self }
        ensures range { result < 32 }
    {
        self.value
    }
}

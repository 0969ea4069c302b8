//! What tells the instructions of one format apart.
ghost use Rattle.std.specs.Prelude.{◌≡◌};
ghost use Rattle.formats.specs.Operators.{immediate_arithmetic, shift_arithmetic, width_of};

use memory_model::Width;

/// An operation on two words, a and b. An instruction with an immediate shares it with the one on two registers.
#[derive(Clone, Copy)]
pub enum Arithmetic {
    /// The sum.
    Add,
    /// The difference.
    Sub,
    /// a shifted left by the low five bits of b.
    Sll,
    /// 1 if a is less than b, both signed, else 0.
    Slt,
    /// 1 if a is less than b, both unsigned, else 0.
    Sltu,
    /// The exclusive or of the bits.
    Xor,
    /// a shifted right by the low five bits of b, filled with zeros.
    Srl,
    /// a shifted right by the low five bits of b, filled with its sign.
    Sra,
    /// The or of the bits.
    Or,
    /// The and of the bits.
    And,
    /// The low word of the product.
    Mul,
    /// The high word of the product, both signed.
    Mulh,
    /// The high word of the product of a, signed, and b, unsigned.
    Mulhsu,
    /// The high word of the product, both unsigned.
    Mulhu,
    /// a / b, both signed, toward zero; all ones where b is 0.
    Div,
    /// a / b, both unsigned; all ones where b is 0.
    Divu,
    /// The remainder of DIV, with the sign of a; a where b is 0.
    Rem,
    /// The remainder of DIVU; a where b is 0.
    Remu,
}

/// An operation on a register and an immediate.
#[derive(Clone, Copy)]
pub enum ImmediateOperator {
    Addi,
    Slti,
    Sltiu,
    Xori,
    Ori,
    Andi,
}

impl ImmediateOperator {
    /// The same on two words.
    #[inline]
    pub fn arithmetic(self) -> Arithmetic
        ensures { result ≡ immediate_arithmetic self }
    {
        match self {
            ImmediateOperator::Addi => Arithmetic::Add,
            ImmediateOperator::Slti => Arithmetic::Slt,
            ImmediateOperator::Sltiu => Arithmetic::Sltu,
            ImmediateOperator::Xori => Arithmetic::Xor,
            ImmediateOperator::Ori => Arithmetic::Or,
            ImmediateOperator::Andi => Arithmetic::And,
        }
    }
}

/// A shift of a register by an amount.
#[derive(Clone, Copy)]
pub enum ShiftOperator {
    Slli,
    Srli,
    Srai,
}

impl ShiftOperator {
    /// The same on two words.
    #[inline]
    pub fn arithmetic(self) -> Arithmetic
        ensures { result ≡ shift_arithmetic self }
    {
        match self {
            ShiftOperator::Slli => Arithmetic::Sll,
            ShiftOperator::Srli => Arithmetic::Srl,
            ShiftOperator::Srai => Arithmetic::Sra,
        }
    }
}

/// A load, by its width and what it fills a word with.
#[derive(Clone, Copy)]
pub enum LoadOperator {
    /// A byte, sign-extended.
    Lb,
    /// Two bytes, sign-extended.
    Lh,
    /// Four bytes.
    Lw,
    /// A byte, with zeros above.
    Lbu,
    /// Two bytes, with zeros above.
    Lhu,
}

impl LoadOperator {
    /// How many bytes it loads.
    #[inline]
    pub fn width(self) -> Width
        ensures { result ≡ width_of self }
    {
        match self {
            LoadOperator::Lb | LoadOperator::Lbu => Width::Byte,
            LoadOperator::Lh | LoadOperator::Lhu => Width::Half,
            LoadOperator::Lw => Width::Word,
        }
    }
}

/// The condition of a branch on two words, a and b.
#[derive(Clone, Copy)]
pub enum Condition {
    /// a is b.
    Equal,
    /// a is not b.
    NotEqual,
    /// a is less than b, both signed.
    Less,
    /// a is not less than b, both signed.
    NotLess,
    /// a is less than b, both unsigned.
    Below,
    /// a is not less than b, both unsigned.
    NotBelow,
}

//! The names of mnemonics, directives and registers.
ghost use Rattle.std.specs.Prelude.{◌≡◌};
ghost use Rattle.asm_statements.specs.Names.{named, mnemonics, directives, registers, value_named};
ghost use Rattle.std.specs.Str.{bytes_eq};

use crate::mnemonic::{Directive, Link, Mnemonic, PlainOp, UnaryOp, UpperOp};
use formats::{
    Arithmetic, Condition, ImmediateOperator, LoadOperator, Reg, ShiftOperator, each_branch,
    each_immediate, each_load, each_register, each_shift, each_store,
};
use memory_model::Width;

/// The names of the instruction table, each with the form of its operands: what is named so far, the form of the rows that come,
/// the tables after them with their forms, and the rows. After the last table, the names without a row there.
macro_rules! named {
    (
        [$($named:tt)*] $form:ident [$each:ident $next:ident $($rest:tt)*]
        $type:ident: $($name:ident $funct3:literal $funct7:literal $mnemonic:literal,)+
    ) => {
        $each! { named [$($named)* $(($mnemonic, Mnemonic::$form($type::$name)),)+] $next [$($rest)*] }
    };
    (
        [$($named:tt)*] $form:ident []
        $type:ident: $($name:ident $funct3:literal $funct7:literal $mnemonic:literal,)+
    ) => {
        [
            $($named)*
            $(($mnemonic, Mnemonic::$form($type::$name)),)+
            ("bgt", Mnemonic::Swapped(Condition::Less)),
            ("ble", Mnemonic::Swapped(Condition::NotLess)),
            ("bgtu", Mnemonic::Swapped(Condition::Below)),
            ("bleu", Mnemonic::Swapped(Condition::NotBelow)),
            ("beqz", Mnemonic::WithZero(Condition::Equal)),
            ("bnez", Mnemonic::WithZero(Condition::NotEqual)),
            ("bgez", Mnemonic::WithZero(Condition::NotLess)),
            ("bltz", Mnemonic::WithZero(Condition::Less)),
            ("blez", Mnemonic::FromZero(Condition::NotLess)),
            ("bgtz", Mnemonic::FromZero(Condition::Less)),
            ("lui", Mnemonic::Upper(UpperOp::Lui)),
            ("auipc", Mnemonic::Upper(UpperOp::Auipc)),
            ("jal", Mnemonic::Jal),
            ("jalr", Mnemonic::Jalr),
            ("j", Mnemonic::Jump(Link::Zero)),
            ("call", Mnemonic::Jump(Link::Ra)),
            ("jr", Mnemonic::JumpRegister(Link::Zero)),
            ("mv", Mnemonic::Unary(UnaryOp::Mv)),
            ("not", Mnemonic::Unary(UnaryOp::Not)),
            ("neg", Mnemonic::Unary(UnaryOp::Neg)),
            ("seqz", Mnemonic::Unary(UnaryOp::Seqz)),
            ("snez", Mnemonic::Unary(UnaryOp::Snez)),
            ("sltz", Mnemonic::Unary(UnaryOp::Sltz)),
            ("sgtz", Mnemonic::Unary(UnaryOp::Sgtz)),
            ("nop", Mnemonic::Plain(PlainOp::Nop)),
            ("ret", Mnemonic::Plain(PlainOp::Ret)),
            ("fence", Mnemonic::Plain(PlainOp::Fence)),
            ("fence.i", Mnemonic::Plain(PlainOp::FenceI)),
            ("ecall", Mnemonic::Plain(PlainOp::Ecall)),
            ("ebreak", Mnemonic::Plain(PlainOp::Ebreak)),
            ("li", Mnemonic::Li),
            ("la", Mnemonic::La),
        ]
    };
}

/// Every mnemonic by its name. Of `jal` and `jalr` it has the forms with a register to link.
static MNEMONICS: &[(&str, Mnemonic)] = &each_register!(
    named [] Registers
    [each_immediate Immediate each_shift Shift each_load Load each_store Store each_branch Branch]
);

/// Every directive by its name.
static DIRECTIVES: [(&str, Directive); 6] = [
    (".text", Directive::Text),
    (".data", Directive::Data),
    (".word", Directive::Word),
    (".byte", Directive::Byte),
    (".ascii", Directive::Ascii),
    (".space", Directive::Space),
];

/// Every name of a register, with the register's number: the ABI names, `fp` for x8, and the numbered ones.
static REGISTERS: [(&str, u8); 65] = [
    ("zero", 0),
    ("ra", 1),
    ("sp", 2),
    ("gp", 3),
    ("tp", 4),
    ("t0", 5),
    ("t1", 6),
    ("t2", 7),
    ("s0", 8),
    ("s1", 9),
    ("a0", 10),
    ("a1", 11),
    ("a2", 12),
    ("a3", 13),
    ("a4", 14),
    ("a5", 15),
    ("a6", 16),
    ("a7", 17),
    ("s2", 18),
    ("s3", 19),
    ("s4", 20),
    ("s5", 21),
    ("s6", 22),
    ("s7", 23),
    ("s8", 24),
    ("s9", 25),
    ("s10", 26),
    ("s11", 27),
    ("t3", 28),
    ("t4", 29),
    ("t5", 30),
    ("t6", 31),
    ("fp", 8),
    ("x0", 0),
    ("x1", 1),
    ("x2", 2),
    ("x3", 3),
    ("x4", 4),
    ("x5", 5),
    ("x6", 6),
    ("x7", 7),
    ("x8", 8),
    ("x9", 9),
    ("x10", 10),
    ("x11", 11),
    ("x12", 12),
    ("x13", 13),
    ("x14", 14),
    ("x15", 15),
    ("x16", 16),
    ("x17", 17),
    ("x18", 18),
    ("x19", 19),
    ("x20", 20),
    ("x21", 21),
    ("x22", 22),
    ("x23", 23),
    ("x24", 24),
    ("x25", 25),
    ("x26", 26),
    ("x27", 27),
    ("x28", 28),
    ("x29", 29),
    ("x30", 30),
    ("x31", 31),
];

pub fn mnemonic_named(word: &[u8]) -> Option<Mnemonic>
    ensures { result ≡ named mnemonics word.now }
{
    value_named(MNEMONICS, word)
}

pub fn directive_named(word: &[u8]) -> Option<Directive>
    ensures { result ≡ named directives word.now }
{
    value_named(&DIRECTIVES, word)
}

/// The register of this name: an ABI name, `fp` for x8, or `x` and its number.
pub fn register_named(word: &[u8]) -> Option<Reg>
    ensures { result ≡ named registers word.now }
{
    let number = value_named(&REGISTERS, word)?;
    Some(Reg::new(number))
}

/// What a word names among rows of names and values.
fn value_named<T: Copy>(rows: &[(&str, T)], word: &[u8]) -> Option<T>
    ensures { result ≡ value_named rows.now word.now }
{
    for row in rows {
        if is_same(row.0.as_bytes(), word) {
            return Some(row.1);
        }
    }
    None
}

/// Whether two names are the same. Most differ in their first byte.
fn is_same(name: &[u8], word: &[u8]) -> bool
    ensures { result ≡ bytes_eq name.now word.now }
{
    if let [first, ..] = name
        && let [other, ..] = word
        && *first != *other
    {
        return false;
    }
    name == word
}

//! The instruction table: for each format the rows of its operators. `decode`, `encode`, `Display` and the assembler look them up.
ghost use Rattle.std.specs.Prelude.{◌≡◌};
ghost use Rattle.formats.specs.Table.{IsRow, found, register_row, immediate_row, shift_row, load_row, store_row, branch_row};

use crate::operators::{Arithmetic, Condition, ImmediateOperator, LoadOperator, ShiftOperator};
use memory_model::Width;

/// What tells an operator from the others of its format, and its mnemonic. The funct7 is 0 in a format that has none.
#[derive(Clone, Copy)]
pub(crate) struct Row {
    pub(crate) funct3: u32,
    pub(crate) funct7: u32,
    pub(crate) mnemonic: &'static str,
}

/// The operations on two registers. A row is an operator, its funct3, its funct7 and its mnemonic.
#[macro_export]
macro_rules! each_register {
    ($use:ident $($given:tt)*) => {
        $use! {
            $($given)* Arithmetic:
            Add 0b000 0b0000000 "add",
            Sub 0b000 0b0100000 "sub",
            Sll 0b001 0b0000000 "sll",
            Slt 0b010 0b0000000 "slt",
            Sltu 0b011 0b0000000 "sltu",
            Xor 0b100 0b0000000 "xor",
            Srl 0b101 0b0000000 "srl",
            Sra 0b101 0b0100000 "sra",
            Or 0b110 0b0000000 "or",
            And 0b111 0b0000000 "and",
            Mul 0b000 0b0000001 "mul",
            Mulh 0b001 0b0000001 "mulh",
            Mulhsu 0b010 0b0000001 "mulhsu",
            Mulhu 0b011 0b0000001 "mulhu",
            Div 0b100 0b0000001 "div",
            Divu 0b101 0b0000001 "divu",
            Rem 0b110 0b0000001 "rem",
            Remu 0b111 0b0000001 "remu",
        }
    };
}

/// The operations on a register and an immediate.
#[macro_export]
macro_rules! each_immediate {
    ($use:ident $($given:tt)*) => {
        $use! {
            $($given)* ImmediateOperator:
            Addi 0b000 0 "addi",
            Slti 0b010 0 "slti",
            Sltiu 0b011 0 "sltiu",
            Xori 0b100 0 "xori",
            Ori 0b110 0 "ori",
            Andi 0b111 0 "andi",
        }
    };
}

/// The shifts by an amount.
#[macro_export]
macro_rules! each_shift {
    ($use:ident $($given:tt)*) => {
        $use! {
            $($given)* ShiftOperator:
            Slli 0b001 0b0000000 "slli",
            Srli 0b101 0b0000000 "srli",
            Srai 0b101 0b0100000 "srai",
        }
    };
}

/// The loads.
#[macro_export]
macro_rules! each_load {
    ($use:ident $($given:tt)*) => {
        $use! {
            $($given)* LoadOperator:
            Lb 0b000 0 "lb",
            Lh 0b001 0 "lh",
            Lw 0b010 0 "lw",
            Lbu 0b100 0 "lbu",
            Lhu 0b101 0 "lhu",
        }
    };
}

/// The stores.
#[macro_export]
macro_rules! each_store {
    ($use:ident $($given:tt)*) => {
        $use! {
            $($given)* Width:
            Byte 0b000 0 "sb",
            Half 0b001 0 "sh",
            Word 0b010 0 "sw",
        }
    };
}

/// The branches.
#[macro_export]
macro_rules! each_branch {
    ($use:ident $($given:tt)*) => {
        $use! {
            $($given)* Condition:
            Equal 0b000 0 "beq",
            NotEqual 0b001 0 "bne",
            Less 0b100 0 "blt",
            NotLess 0b101 0 "bge",
            Below 0b110 0 "bltu",
            NotBelow 0b111 0 "bgeu",
        }
    };
}

/// The row of an operator.
macro_rules! row {
    ($operator:ident $type:ident: $($name:ident $funct3:literal $funct7:literal $mnemonic:literal,)+) => {
        match $operator {
            $($type::$name => Row {
                funct3: $funct3,
                funct7: $funct7,
                mnemonic: $mnemonic,
            },)+
        }
    };
}

/// The rows, by which `found` tells an operator.
macro_rules! rows {
    ($type:ident: $($name:ident $funct3:literal $funct7:literal $mnemonic:literal,)+) => {
        [$(($funct3, $funct7, $type::$name)),+]
    };
}

pub(crate) static REGISTERS: [(u32, u32, Arithmetic); 18] = each_register!(rows);

pub(crate) static IMMEDIATES: [(u32, u32, ImmediateOperator); 6] = each_immediate!(rows);

pub(crate) static SHIFTS: [(u32, u32, ShiftOperator); 3] = each_shift!(rows);

pub(crate) static LOADS: [(u32, u32, LoadOperator); 5] = each_load!(rows);

pub(crate) static STORES: [(u32, u32, Width); 3] = each_store!(rows);

pub(crate) static BRANCHES: [(u32, u32, Condition); 6] = each_branch!(rows);

/// The operator of a funct3 and a funct7 among rows.
pub(crate) fn found<T: Copy>(rows: &[(u32, u32, T)], funct3: u32, funct7: u32) -> Option<T>
    ensures { result ≡ found rows.now funct3 funct7 }
{
    match rows {
        [] => None,
        [(row_funct3, row_funct7, operator), rest @ ..] => {
            if *row_funct3 == funct3 && *row_funct7 == funct7 {
                Some(*operator)
            } else {
                found(rest, funct3, funct7)
            }
        }
    }
}

pub(crate) fn register_row(operator: Arithmetic) -> Row
    ensures { IsRow result (register_row operator) }
{
    each_register!(row operator)
}

pub(crate) fn immediate_row(operator: ImmediateOperator) -> Row
    ensures { IsRow result (immediate_row operator) }
{
    each_immediate!(row operator)
}

pub(crate) fn shift_row(operator: ShiftOperator) -> Row
    ensures { IsRow result (shift_row operator) }
{
    each_shift!(row operator)
}

pub(crate) fn load_row(operator: LoadOperator) -> Row
    ensures { IsRow result (load_row operator) }
{
    each_load!(row operator)
}

pub(crate) fn store_row(width: Width) -> Row
    ensures { IsRow result (store_row width) }
{
    each_store!(row width)
}

pub(crate) fn branch_row(condition: Condition) -> Row
    ensures { IsRow result (branch_row condition) }
{
    each_branch!(row condition)
}

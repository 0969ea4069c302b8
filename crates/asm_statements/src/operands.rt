//! The operands of an instruction, read by the form of its mnemonic.
ghost use Rattle.std.specs.Prelude.{◌≡◌, if◌then◌else◌, drop, Ok, Err};
ghost use Rattle.asm_statements.specs.Statements.{no_operands, slots_of, chosen, with_comma, bare_label, slot_read, target_read, sum_read, addend_read, after_slot, after_label, operands_read};

use crate::literal::Literal;
use crate::mnemonic::{Link, Mnemonic};
use crate::tokens::{
    is_close, is_comma, is_label, is_minus, is_open, is_plus, number_of, register_at,
};
use asm_text::Token;
use formats::Reg;

/// What a form wants next: a register, a mark, a number, a target or a bare label.
#[derive(Clone, Copy)]
pub enum Slot {
    First,
    Second,
    Third,
    Comma,
    Open,
    Close,
    Number,
    Target,
    Label,
}

/// A value in the place of a number: a number, or a label and how far above or below it. The label's name is the source's bytes
/// from `start` to `end`.
#[derive(Clone, Copy)]
pub enum Value {
    Number(Literal),
    Above {
        start: usize,
        end: usize,
        by: Literal,
    },
    Below {
        start: usize,
        end: usize,
        by: Literal,
    },
}

/// The operands of an instruction: its registers in their order, and the value, with its place in the source. What a form lacks is
/// x0, or 0.
#[derive(Clone, Copy)]
pub struct Operands {
    pub first: Reg,
    pub second: Reg,
    pub third: Reg,
    pub value: Value,
    pub at: usize,
}

/// The operands of a mnemonic, read from all tokens after it. An error is the place of the first token that its form does not have
/// there, or `end` where one is missing.
pub fn read_operands(
    source: &[u8],
    end: usize,
    mnemonic: Mnemonic,
    tokens: &[Token],
) -> Result<Operands, usize>
    ensures { result ≡ operands_read source.now end (slots_of mnemonic) tokens.now no_operands }
{
    let mut operands = no_operands();
    let mut rest = tokens;
    for slot in slots(mnemonic) {
        match rest {
            [] => return Err(end),
            [token, after @ ..] => {
                operands = slot_operand(source, end, *slot, token, after, operands)?;
                rest = after_slot(*slot, token, after);
            }
        }
    }
    match rest {
        [] => Ok(operands),
        [token, ..] => Err(token.start),
    }
}

/// The mnemonic itself, but for `jal` and `jalr` with no comma after their first operand: these link ra.
pub fn chosen(mnemonic: Mnemonic, tokens: &[Token]) -> Mnemonic
    ensures { result ≡ chosen mnemonic tokens.now }
{
    match mnemonic {
        Mnemonic::Jal => {
            if with_comma(tokens) {
                mnemonic
            } else {
                Mnemonic::Jump(Link::Ra)
            }
        }
        Mnemonic::Jalr => {
            if with_comma(tokens) {
                mnemonic
            } else {
                Mnemonic::JumpRegister(Link::Ra)
            }
        }
        _ => mnemonic,
    }
}

/// Whether the second token is a comma.
fn with_comma(tokens: &[Token]) -> bool
    ensures { result ≡ with_comma tokens.now }
{
    match tokens {
        [_, second, ..] => is_comma(&second.kind),
        _ => false,
    }
}

/// What stands after a mnemonic, in order.
fn slots(mnemonic: Mnemonic) -> &'static [Slot]
    ensures { result.now ≡ slots_of mnemonic }
{
    match mnemonic {
        Mnemonic::Registers(_) => &[
            Slot::First,
            Slot::Comma,
            Slot::Second,
            Slot::Comma,
            Slot::Third,
        ],
        Mnemonic::Immediate(_) | Mnemonic::Shift(_) => &[
            Slot::First,
            Slot::Comma,
            Slot::Second,
            Slot::Comma,
            Slot::Number,
        ],
        Mnemonic::Load(_) | Mnemonic::Store(_) | Mnemonic::Jalr => &[
            Slot::First,
            Slot::Comma,
            Slot::Number,
            Slot::Open,
            Slot::Second,
            Slot::Close,
        ],
        Mnemonic::Branch(_) | Mnemonic::Swapped(_) => &[
            Slot::First,
            Slot::Comma,
            Slot::Second,
            Slot::Comma,
            Slot::Target,
        ],
        Mnemonic::WithZero(_) | Mnemonic::FromZero(_) | Mnemonic::Jal => {
            &[Slot::First, Slot::Comma, Slot::Target]
        }
        Mnemonic::Upper(_) | Mnemonic::Li => &[Slot::First, Slot::Comma, Slot::Number],
        Mnemonic::Jump(_) => &[Slot::Target],
        Mnemonic::JumpRegister(_) => &[Slot::First],
        Mnemonic::Unary(_) => &[Slot::First, Slot::Comma, Slot::Second],
        Mnemonic::Plain(_) => &[],
        Mnemonic::La => &[Slot::First, Slot::Comma, Slot::Label],
    }
}

fn no_operands() -> Operands
    ensures { result ≡ no_operands }
{
    Operands {
        first: Reg::new(0),
        second: Reg::new(0),
        third: Reg::new(0),
        value: Value::Number(Literal::zero()),
        at: 0,
    }
}

/// Takes what a token is to a slot into the operands. An error is the place of the wrong token.
fn slot_operand(
    source: &[u8],
    end: usize,
    slot: Slot,
    token: &Token,
    after: &[Token],
    operands: Operands,
) -> Result<Operands, usize>
    ensures { result ≡ slot_read source.now end slot token.now after.now operands }
{
    let mut operands = operands;
    match slot {
        Slot::First => operands.first = register_at(source, token).ok_or(token.start)?,
        Slot::Second => operands.second = register_at(source, token).ok_or(token.start)?,
        Slot::Third => operands.third = register_at(source, token).ok_or(token.start)?,
        Slot::Comma => expect(is_comma(&token.kind), token.start)?,
        Slot::Open => expect(is_open(&token.kind), token.start)?,
        Slot::Close => expect(is_close(&token.kind), token.start)?,
        Slot::Number => {
            let number = number_of(&token.kind).ok_or(token.start)?;
            operands.value = Value::Number(number);
            operands.at = token.start;
        }
        Slot::Label => {
            expect(is_label(source, token), token.start)?;
            operands.value = bare_label(token);
            operands.at = token.start;
        }
        Slot::Target => {
            operands.value = target(source, end, token, after)?;
            operands.at = token.start;
        }
    }
    Ok(operands)
}

/// The tokens after a slot.
fn after_slot<'a>(slot: Slot, token: &Token, after: &'a [Token]) -> &'a [Token]
    ensures { result.now ≡ after_slot slot token.now after.now }
{
    match slot {
        Slot::Target => {
            if token.kind.is_word() {
                after_label(after)
            } else {
                after
            }
        }
        _ => after,
    }
}

/// An error with the place, where the wanted token does not stand there.
fn expect(stands: bool, at: usize) -> Result<(), usize>
    ensures { result ≡ if stands then Ok tt else Err at }
{
    if stands { Ok(()) } else { Err(at) }
}

/// A label with nothing added.
fn bare_label(token: &Token) -> Value
    ensures { result ≡ bare_label token.now }
{
    Value::Above {
        start: token.start,
        end: token.end,
        by: Literal::zero(),
    }
}

/// The target that begins at a token. An error is the place of the wrong token.
fn target(source: &[u8], end: usize, token: &Token, after: &[Token]) -> Result<Value, usize>
    ensures { result ≡ target_read source.now end token.now after.now }
{
    if let Some(number) = number_of(&token.kind) {
        return Ok(Value::Number(number));
    }
    if is_label(source, token) {
        return sum(end, token, after);
    }
    Err(token.start)
}

/// A label with what is added to it or taken from it. An error is the place of the wrong token.
fn sum(end: usize, label: &Token, after: &[Token]) -> Result<Value, usize>
    ensures { result ≡ sum_read end label.now after.now }
{
    let [sign, rest @ ..] = after else {
        return Ok(bare_label(label));
    };
    let start = label.start;
    if is_plus(&sign.kind) {
        let by = addend(end, sign.end, rest)?;
        return Ok(Value::Above {
            start,
            end: label.end,
            by,
        });
    }
    if is_minus(&sign.kind) {
        let by = addend(end, sign.end, rest)?;
        return Ok(Value::Below {
            start,
            end: label.end,
            by,
        });
    }
    Ok(bare_label(label))
}

/// The number directly after a sign that ends at `sign_end`. An error is the place of the wrong token.
fn addend(end: usize, sign_end: usize, after: &[Token]) -> Result<Literal, usize>
    ensures { result ≡ addend_read end sign_end after.now }
{
    match after {
        [] => Err(end),
        [token, ..] => {
            let number = number_of(&token.kind).ok_or(token.start)?;
            if token.start == sign_end {
                Ok(number)
            } else {
                Err(token.start)
            }
        }
    }
}

/// The tokens after a label's name and what is added to it or taken from it.
fn after_label(tokens: &[Token]) -> &[Token]
    ensures { result.now ≡ after_label tokens.now }
{
    match tokens {
        [] => tokens,
        [sign, rest @ ..] => {
            if is_plus(&sign.kind) || is_minus(&sign.kind) {
                after_one(rest)
            } else {
                tokens
            }
        }
    }
}

fn after_one(tokens: &[Token]) -> &[Token]
    ensures { result.now ≡ drop 1 tokens.now }
{
    match tokens {
        [] => tokens,
        [_, rest @ ..] => rest,
    }
}

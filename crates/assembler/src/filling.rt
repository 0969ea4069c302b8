//! Statements to the words of text and the bytes of data.
ghost use Rattle.std.specs.Prelude.{◌≡◌, ◌≢◌, [], ◌∷◌, ◌≤ℤ◌, ◌+ℤ◌, ◌-ℤ◌, pos, Ok, Err, IfOk, IfErr, OnOk};
ghost use Rattle.assembler.specs.Faults.{out_of_memory};
ghost use Rattle.assembler.specs.Layout.{numbers_in, string_in, spot_of, shown, address_of, distance_of, byte_of, added, joined, in_bytes, in_words, in_zeros, words_of_numbers, words_of_expansion, instruction_of, instruction_held, bytes_held, held, all_held};

use crate::fault::{AsmFault, Cause, fault_at};
use crate::labels::{Labels, Spot};
use crate::layout::{Piece, Position, space_bytes, string_in};
use asm_statements::{
    Expansion, Literal, Mnemonic, Operands, Statement, Value, expanded, modulo_word, number_of,
    text_at, word,
};
use asm_text::{Line, Token};
use std::alloc::Global;

/// A word of text, and the line of its statement.
#[derive(Clone, Copy)]
pub struct Cell {
    pub word: u32,
    pub line: usize,
}

/// What the sections hold.
pub struct Output {
    pub cells: Vec<Cell>,
    pub bytes: Vec<u8>,
}

impl Output {
    /// The bytes of data alone.
    pub fn into_bytes(self) -> Vec<u8>
        ensures { result ≡ self.bytes }
    {
        let Output {
            cells: _cells,
            bytes,
        } = self;
        bytes
    }
}

impl Drop for Output {
    fn drop(self) {
        let Output {
            cells: _cells,
            bytes: _bytes,
        } = self;
    }
}

/// What statements come to, one after the other, with data at its base. A fault is the first of them: a label that is not there, or a
/// number that does not fit.
pub fn fill<'a>(
    alloc: Global,
    source: &'a [u8],
    labels: &Labels<'a>,
    data_base: u32,
    pieces: &[Piece],
) -> Result<Output, AsmFault>
    ensures ok { IfOk result (λ o. all_held (record { source = source.now; labels = labels.now; data_base = data_base }) pieces.now ≡ Ok (shown o)) }
    ensures err { IfErr result (λ f. f ≢ out_of_memory
        → all_held (record { source = source.now; labels = labels.now; data_base = data_base }) pieces.now ≡ Err f) }
{
    let mut output = Output {
        cells: Vec::new(alloc),
        bytes: Vec::new(alloc),
    };
    for piece in pieces {
        fill_statement(
            source,
            labels,
            data_base,
            &piece.line,
            piece.position,
            &piece.statement,
            &mut output,
        )?;
    }
    Ok(output)
}

/// Adds what a line's statement at a position holds.
fn fill_statement<'a>(
    source: &'a [u8],
    labels: &Labels<'a>,
    data_base: u32,
    line: &Line,
    position: Position,
    statement: &Statement,
    output: &mut Output,
) -> Result<(), AsmFault>
    ensures ok { OnOk result (added (shown output.old) (held (record { source = source.now; labels = labels.now; data_base = data_base }) line.now
        position statement.now) ≡ Ok (shown output.new)) }
    ensures err { IfErr result (λ f. f ≢ out_of_memory → added (shown output.old) (held (record { source = source.now; labels = labels.now; data_base = data_base }) line.now
        position statement.now) ≡ Err f) }
{
    let tokens = line.tokens.as_slice();
    match statement {
        Statement::Nothing | Statement::Text | Statement::Data => Ok(()),
        Statement::Words => put_numbers(position.in_data, line.number, tokens, output),
        Statement::Bytes => fill_bytes(source, line, output),
        Statement::Ascii => put_string(tokens, output),
        Statement::Space(size, _) => {
            put_space(position.in_data, line.number, space_bytes(*size), output)
        }
        Statement::Instruction(mnemonic, operands) => {
            let number = number_at(source, labels, data_base, position, operands.value);
            fill_instruction(
                source,
                line,
                position.in_data,
                *mnemonic,
                operands,
                number,
                output,
            )
        }
    }
}

/// The value as a number at a position. A label is its distance from there, in bytes.
fn number_at<'a>(
    source: &'a [u8],
    labels: &Labels<'a>,
    data_base: u32,
    position: Position,
    value: Value,
) -> Option<i64>
    ensures { result ≡ distance_of (record { source = source.now; labels = labels.now; data_base = data_base })
        (pos (address_of data_base (spot_of position))) value }
{
    let pc = address(data_base, position.spot());
    distance(source, labels, data_base, pc, value)
}

/// Adds the words of an instruction with its number, if there is one.
fn fill_instruction(
    source: &[u8],
    line: &Line,
    in_data: bool,
    mnemonic: Mnemonic,
    operands: &Operands,
    number: Option<i64>,
    output: &mut Output,
) -> Result<(), AsmFault>
    ensures ok { OnOk result (added (shown output.old) (instruction_held source.now line.now in_data mnemonic operands.now number) ≡ Ok (shown output.new)) }
    ensures err { IfErr result (λ f. f ≢ out_of_memory
        → added (shown output.old) (instruction_held source.now line.now in_data mnemonic operands.now number) ≡ Err f) }
{
    match instruction(source, line, mnemonic, operands, number) {
        Ok(expansion) => put_expansion(in_data, line.number, expansion, output),
        Err(fault) => Err(fault),
    }
}

/// The expansion of an instruction with its number, if there is one.
fn instruction(
    source: &[u8],
    line: &Line,
    mnemonic: Mnemonic,
    operands: &Operands,
    number: Option<i64>,
) -> Result<Expansion, AsmFault>
    ensures { result ≡ instruction_of source.now line.now mnemonic operands.now number }
{
    let Some(number) = number else {
        return Err(fault_at(source, line, Cause::UnknownName, operands.at));
    };
    match expanded(mnemonic, operands, number) {
        Some(expansion) => Ok(expansion),
        None => Err(fault_at(source, line, Cause::Range, operands.at)),
    }
}

/// The address of a place in a section: text begins at 0x00010000.
fn address(data_base: u32, spot: Spot) -> i64
    ensures value { result ≡ pos (address_of data_base spot) }
    ensures low { pos 0 ≤ℤ result }
    ensures high { result ≤ℤ pos 17179934720 }
{
    let offset = i64::from(spot.offset);
    if spot.in_data {
        i64::from(data_base) + offset
    } else {
        65536 + 4 * offset
    }
}

/// The value as a number: a label is its distance from an address. None where there is no such label.
fn distance<'a>(
    source: &'a [u8],
    labels: &Labels<'a>,
    data_base: u32,
    pc: i64,
    value: Value,
) -> Option<i64>
    requires low { pos 0 ≤ℤ pc }
    requires high { pc ≤ℤ pos 17179934720 }
    ensures { result ≡ distance_of (record { source = source.now; labels = labels.now; data_base = data_base }) pc value }
{
    match value {
        Value::Number(number) => Some(number.value()),
        Value::Above { start, end, by } => {
            let spot = labels.get(text_at(source, start, end))?;
            Some(above(address(data_base, spot), by, pc))
        }
        Value::Below { start, end, by } => {
            let spot = labels.get(text_at(source, start, end))?;
            Some(below(address(data_base, spot), by, pc))
        }
    }
}

/// The distance from `pc` to a number above an address.
fn above(address: i64, by: Literal, pc: i64) -> i64
    requires at_low { pos 0 ≤ℤ address }
    requires at_high { address ≤ℤ pos 17179934720 }
    requires low { pos 0 ≤ℤ pc }
    requires high { pc ≤ℤ pos 17179934720 }
    ensures { result ≡ (address +ℤ by) -ℤ pc }
{
    address + by.value() - pc
}

/// The distance from `pc` to a number below an address.
fn below(address: i64, by: Literal, pc: i64) -> i64
    requires at_low { pos 0 ≤ℤ address }
    requires at_high { address ≤ℤ pos 17179934720 }
    requires low { pos 0 ≤ℤ pc }
    requires high { pc ≤ℤ pos 17179934720 }
    ensures { result ≡ (address -ℤ by) -ℤ pc }
{
    address - by.value() - pc
}

fn put_word(in_data: bool, line: usize, word: u32, output: &mut Output) -> Result<(), AsmFault>
    ensures ok { OnOk result (shown output.new ≡ joined (shown output.old) (in_words in_data line (word ∷ []))) }
    ensures err { IfErr result (λ f. f ≡ out_of_memory) }
{
    if in_data {
        output.bytes.extend_from_slice(&word.to_le_bytes())?;
    } else {
        output.cells.push(Cell { word, line })?;
    }
    Ok(())
}

fn put_expansion(
    in_data: bool,
    line: usize,
    expansion: Expansion,
    output: &mut Output,
) -> Result<(), AsmFault>
    ensures ok { OnOk result (shown output.new ≡ joined (shown output.old) (in_words in_data line (words_of_expansion expansion))) }
    ensures err { IfErr result (λ f. f ≡ out_of_memory) }
{
    match expansion {
        Expansion::One(first) => put_word(in_data, line, word(&first), output),
        Expansion::Two(first, second) => {
            put_word(in_data, line, word(&first), output)?;
            put_word(in_data, line, word(&second), output)
        }
    }
}

/// Adds the numbers among tokens, each as a word.
fn put_numbers(
    in_data: bool,
    line: usize,
    tokens: &[Token],
    output: &mut Output,
) -> Result<(), AsmFault>
    ensures ok { OnOk result (shown output.new ≡ joined (shown output.old) (in_words in_data line (words_of_numbers (numbers_in tokens.now)))) }
    ensures err { IfErr result (λ f. f ≡ out_of_memory) }
{
    for token in tokens {
        if let Some(number) = number_of(&token.kind) {
            put_word(in_data, line, modulo_word(number.value()), output)?;
        }
    }
    Ok(())
}

/// Adds the bytes of the first string among tokens to data.
fn put_string(tokens: &[Token], output: &mut Output) -> Result<(), AsmFault>
    ensures ok { OnOk result (shown output.new ≡ joined (shown output.old) (in_bytes (string_in tokens.now))) }
    ensures err { IfErr result (λ f. f ≡ out_of_memory) }
{
    output.bytes.extend_from_slice(string_in(tokens))?;
    Ok(())
}

/// Adds zero bytes, in text as words.
fn put_space(in_data: bool, line: usize, size: u32, output: &mut Output) -> Result<(), AsmFault>
    ensures ok { OnOk result (shown output.new ≡ joined (shown output.old) (in_zeros in_data line size)) }
    ensures err { IfErr result (λ f. f ≡ out_of_memory) }
{
    if in_data {
        let len = output.bytes.len();
        output.bytes.resize(len + size as usize, 0)?;
    } else {
        let len = output.cells.len();
        let cell = Cell { word: 0, line };
        output.cells.resize(len + size as usize / 4, cell)?;
    }
    Ok(())
}

/// Adds the numbers of a line, each as a byte.
fn fill_bytes(source: &[u8], line: &Line, output: &mut Output) -> Result<(), AsmFault>
    ensures ok { OnOk result (added (shown output.old) (bytes_held source.now line.now) ≡ Ok (shown output.new)) }
    ensures err { IfErr result (λ f. f ≢ out_of_memory → added (shown output.old) (bytes_held source.now line.now) ≡ Err f) }
{
    for token in line.tokens.as_slice() {
        if let Some(number) = number_of(&token.kind) {
            match byte(number) {
                Some(byte) => output.bytes.push(byte)?,
                None => return Err(fault_at(source, line, Cause::Range, token.start)),
            }
        }
    }
    Ok(())
}

/// A number as a byte, from -128 to 255.
fn byte(number: Literal) -> Option<u8>
    ensures { result ≡ byte_of number }
{
    let value = number.value();
    if value < -128 || value > 255 {
        return None;
    }
    Some((value.cast_unsigned() % 256) as u8)
}

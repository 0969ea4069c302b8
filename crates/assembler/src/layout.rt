//! Lines to statements, each with its place, and where the labels stand.
ghost use Rattle.std.specs.Prelude.{◌≡◌, ◌≢◌, Ok, Err, IfOk, IfErr, OnOk, length};
ghost use Rattle.assembler.specs.Faults.{out_of_memory};
ghost use Rattle.assembler.specs.Layout.{start_layout, spot_of, counted, with_bytes, advanced, within, after, space_units, string_in, numbers_in, space_checked, label_declared, units_of, parsed, all_placed, laid, space_bytes};

use crate::fault::{AsmFault, Cause, fault_at};
use crate::labels::{Labels, Spot};
use asm_statements::{
    Label, Literal, Statement, number_of, read_statement, split_label, text_at, words_taken,
};
use asm_text::{Line, Token, TokenKind};
use std::alloc::Global;

/// How far the sections have come: the section that statements go to, the words of text and the bytes of data. A number stays at
/// 2^32 - 1, since a section of that length is too large in any case.
#[derive(Clone, Copy)]
pub struct Position {
    pub in_data: bool,
    pub words: u32,
    pub bytes: u32,
}

impl Position {
    /// Before the first line.
    pub fn start() -> Position
        ensures { result ≡ start_layout.position }
    {
        Position {
            in_data: false,
            words: 0,
            bytes: 0,
        }
    }

    /// Where a label stands here.
    pub fn spot(self) -> Spot
        ensures { result ≡ spot_of self }
    {
        Spot {
            in_data: self.in_data,
            offset: if self.in_data { self.bytes } else { self.words },
        }
    }

    fn with_bytes(self, count: u32) -> Position
        ensures { result ≡ with_bytes self count }
    {
        Position {
            in_data: self.in_data,
            words: self.words,
            bytes: self.bytes.saturating_add(count),
        }
    }

    /// Further on in the current section by so many of its words or bytes.
    fn advanced(self, size: u32) -> Position
        ensures { result ≡ advanced self size }
    {
        if self.in_data {
            self.with_bytes(size)
        } else {
            Position {
                in_data: self.in_data,
                words: self.words.saturating_add(size),
                bytes: self.bytes,
            }
        }
    }

    fn within(self, in_data: bool) -> Position
        ensures { result ≡ within self in_data }
    {
        Position {
            in_data,
            words: self.words,
            bytes: self.bytes,
        }
    }

    /// After a statement of a line with these tokens.
    pub fn after(self, statement: &Statement, tokens: &[Token]) -> Position
        ensures { result ≡ after self statement.now tokens.now }
    {
        match statement {
            Statement::Nothing => self,
            Statement::Text => self.within(false),
            Statement::Data => self.within(true),
            Statement::Words => self.advanced(number_units(tokens, self.in_data)),
            Statement::Bytes => self.with_bytes(number_count(tokens)),
            Statement::Ascii => self.with_bytes(string_len(tokens)),
            Statement::Space(size, _) => self.advanced(space_units(*size, self.in_data)),
            Statement::Instruction(mnemonic, operands) => {
                self.advanced(units(words_taken(*mnemonic, operands), self.in_data))
            }
        }
    }
}

/// A line, its statement, and where this stands.
pub struct Piece {
    pub line: Line,
    pub position: Position,
    pub statement: Statement,
}

impl Drop for Piece {
    fn drop(self) {
        let Piece {
            line: _line,
            position: _,
            statement: _,
        } = self;
    }
}

/// The statements of a source in order, its labels, and how long its sections are.
pub struct Layout<'a> {
    pub position: Position,
    pub labels: Labels<'a>,
    pub pieces: Vec<Piece>,
}

impl<'a> Drop for Layout<'a> {
    fn drop(self) {
        let Layout {
            position: _,
            labels: _labels,
            pieces: _pieces,
        } = self;
    }
}

/// The statements of all lines. A fault is the first of them: a statement of a wrong form, a label that was there already, or a
/// `.space` that no section can hold.
pub fn lay_out<'a>(
    alloc: Global,
    source: &'a [u8],
    lines: Vec<Line>,
) -> Result<Layout<'a>, AsmFault>
    ensures ok { IfOk result (λ l. all_placed source.now lines.items start_layout ≡ Ok (laid l)) }
    ensures err { IfErr result (λ f. f ≢ out_of_memory → all_placed source.now lines.items start_layout ≡ Err f) }
{
    let mut position = Position::start();
    let mut labels = Labels::new(alloc);
    let mut pieces = Vec::with_capacity(alloc, lines.len())?;
    for line in lines {
        let statement = parse(source, &line, position, &mut labels)?;
        let next = position.after(&statement, line.tokens.as_slice());
        pieces.push(Piece {
            line,
            position,
            statement,
        })?;
        position = next;
    }
    Ok(Layout {
        position,
        labels,
        pieces,
    })
}

/// Takes the label of a line at a position. Gives the line's statement.
fn parse<'a>(
    source: &'a [u8],
    line: &Line,
    position: Position,
    labels: &mut Labels<'a>,
) -> Result<Statement, AsmFault>
    ensures ok { IfOk result (λ s. parsed source.now line.now position labels.old ≡ Ok (s, labels.new)) }
    ensures err { IfErr result (λ f. f ≢ out_of_memory → parsed source.now line.now position labels.old ≡ Err f) }
{
    let (label, rest) = match split_label(source, line.tokens.as_slice()) {
        Ok(split) => split,
        Err(at) => return Err(fault_at(source, line, Cause::Syntax, at)),
    };
    if let Some(label) = label {
        declare(source, line, label, position, labels)?;
    }
    let statement = match read_statement(source, position.in_data, line.end, rest) {
        Ok(statement) => statement,
        Err(at) => return Err(fault_at(source, line, Cause::Syntax, at)),
    };
    check_space(source, line, position.in_data, &statement)?;
    Ok(statement)
}

fn declare<'a>(
    source: &'a [u8],
    line: &Line,
    label: Label,
    position: Position,
    labels: &mut Labels<'a>,
) -> Result<(), AsmFault>
    ensures ok { OnOk result (label_declared source.now line.now label position labels.old ≡ Ok labels.new) }
    ensures err { IfErr result (λ f. f ≢ out_of_memory
        → label_declared source.now line.now label position labels.old ≡ Err f) }
{
    let name = text_at(source, label.start, label.end);
    if labels.get(name).is_some() {
        return Err(fault_at(source, line, Cause::DoubleLabel, label.start));
    }
    labels.insert(name, position.spot())?;
    Ok(())
}

/// Refuses a `.space` of a negative size, and in text one of no whole words.
fn check_space(
    source: &[u8],
    line: &Line,
    in_data: bool,
    statement: &Statement,
) -> Result<(), AsmFault>
    ensures { result ≡ space_checked source.now line.now in_data statement.now }
{
    let Statement::Space(size, at) = statement else {
        return Ok(());
    };
    let size = size.value();
    if size < 0 || !in_data && size % 4 != 0 {
        return Err(fault_at(source, line, Cause::Range, *at));
    }
    Ok(())
}

/// So many words, in words of text or bytes of data, up to 2^32 - 1.
fn units(words: u32, in_data: bool) -> u32
    ensures { result ≡ counted (units_of words in_data) }
{
    if in_data {
        words.saturating_mul(4)
    } else {
        words
    }
}

/// How many words of text, or bytes of data, the numbers among tokens take as words, up to 2^32 - 1.
fn number_units(tokens: &[Token], in_data: bool) -> u32
    ensures { result ≡ counted (units_of (length (numbers_in tokens.now)) in_data) }
{
    let count = number_count(tokens);
    if in_data {
        count.saturating_mul(4)
    } else {
        count
    }
}

/// So many zero bytes, in words of text or bytes of data.
fn space_units(size: Literal, in_data: bool) -> u32
    ensures { result ≡ counted (space_units size in_data) }
{
    let bytes = space_bytes(size);
    if in_data { bytes } else { bytes / 4 }
}

/// How many bytes the first string among tokens has, up to 2^32 - 1.
fn string_len(tokens: &[Token]) -> u32
    ensures { result ≡ counted (length (string_in tokens.now)) }
{
    let len = string_in(tokens).len();
    len.min(u32::MAX as usize) as u32
}

/// How many bytes a `.space` of a number takes. 0 where it is negative, which `check_space` refuses.
pub fn space_bytes(number: Literal) -> u32
    ensures { result ≡ space_bytes number }
{
    number.value().max(0) as u32
}

/// How many tokens are numbers, up to 2^32 - 1.
fn number_count(tokens: &[Token]) -> u32
    ensures { result ≡ counted (length (numbers_in tokens.now)) }
{
    let mut count: u32 = 0;
    for token in tokens {
        if number_of(&token.kind).is_some() {
            count = count.saturating_add(1);
        }
    }
    count
}

/// The first string among tokens.
pub fn string_in(tokens: &[Token]) -> &[u8]
    ensures { result.now ≡ string_in tokens.now }
{
    for token in tokens {
        if let TokenKind::Text(bytes) = &token.kind {
            return bytes.as_slice();
        }
    }
    &[]
}

//! The labels of a source.
use asm_statements::{Label, Statement, read_statement, split_label, text_at};
use asm_text::Line;
use assembler::Position;
use std::alloc::{AllocError, Global};

/// What stands after a label.
#[derive(Clone, Copy, PartialEq, Eq)]
pub enum Kind {
    /// Nothing, or what is in the other section.
    Nothing,
    /// `.word`
    Words,
    /// Any other statement.
    Bytes,
}

/// A label.
#[derive(Clone, Copy)]
pub struct Symbol<'a> {
    pub name: &'a [u8],
    /// Where its name begins in the source.
    pub start: usize,
    pub in_data: bool,
    /// How far it is from the beginning of its section, in bytes.
    pub offset: u32,
    pub kind: Kind,
    /// How many bytes of data stand from here up to the next label of data that is further on. 0 in text.
    pub room: u32,
}

fn kind_of(statement: &Statement) -> Kind {
    match statement {
        Statement::Nothing | Statement::Text | Statement::Data => Kind::Nothing,
        Statement::Words => Kind::Words,
        Statement::Bytes
        | Statement::Ascii
        | Statement::Space(_, _)
        | Statement::Instruction(_, _) => Kind::Bytes,
    }
}

fn symbol_at<'a>(source: &'a [u8], label: Label, position: Position) -> Symbol<'a> {
    let spot = position.spot();
    Symbol {
        name: text_at(source, label.start, label.end),
        start: label.start,
        in_data: spot.in_data,
        offset: if spot.in_data {
            spot.offset
        } else {
            spot.offset.saturating_mul(4)
        },
        kind: Kind::Nothing,
        room: 0,
    }
}

/// Gives the labels of a section a kind.
fn mark(symbols: &mut [Symbol<'_>], kind: Kind, in_data: bool) {
    for symbol in symbols.iter_mut() {
        if symbol.in_data == in_data {
            symbol.kind = kind;
        }
    }
}

/// Labels in the order of the source.
struct Labels<'a> {
    symbols: Vec<Symbol<'a>>,
    /// How many of them have a statement after them.
    done: usize,
}

impl Drop for Labels<'_> {
    fn drop(self) {
        let Labels {
            symbols: _symbols,
            done: _,
        } = self;
    }
}

impl<'a> Labels<'a> {
    /// Gives the last labels, those of the section where this statement stands, its kind.
    fn meet(&mut self, kind: Kind, in_data: bool) {
        if kind == Kind::Nothing {
            return;
        }
        let symbols = self.symbols.as_mut_slice();
        let from = self.done.min(symbols.len());
        mark(&mut symbols[from..], kind, in_data);
        self.done = self.symbols.len();
    }

    /// Goes over a line of a source that assembles, and gives the position after it.
    fn pass(
        &mut self,
        source: &'a [u8],
        line: &Line,
        position: Position,
    ) -> Result<Position, AllocError> {
        let tokens = line.tokens.as_slice();
        let Ok((label, rest)) = split_label(source, tokens) else {
            return Ok(position);
        };
        if let Some(label) = label {
            self.symbols.push(symbol_at(source, label, position))?;
        }
        let Ok(statement) = read_statement(source, position.in_data, line.end, rest) else {
            return Ok(position);
        };
        self.meet(kind_of(&statement), position.in_data);
        Ok(position.after(&statement, tokens))
    }

    /// The labels, each with its room.
    fn measured(self, data_bytes: u32) -> Vec<Symbol<'a>> {
        let Labels {
            mut symbols,
            done: _,
        } = self;
        measure(symbols.as_mut_slice(), data_bytes);
        symbols
    }
}

/// Measures the room of each label of data, from the last one to the first. Their offsets ascend.
fn measure(symbols: &mut [Symbol<'_>], data_bytes: u32) {
    let mut here = data_bytes;
    let mut next = data_bytes;
    for done in 0..symbols.len() {
        let last = symbols.len() - done - 1;
        let symbol = &mut symbols[last];
        if symbol.in_data {
            if symbol.offset < here {
                next = here;
                here = symbol.offset;
            }
            symbol.room = next.saturating_sub(symbol.offset);
        }
    }
}

/// The labels of a source that assembles, with so many bytes of data.
pub fn symbols_of<'a>(
    alloc: Global,
    source: &'a [u8],
    lines: &[Line],
    data_bytes: u32,
) -> Result<Vec<Symbol<'a>>, AllocError> {
    let mut labels = Labels {
        symbols: Vec::new(alloc),
        done: 0,
    };
    let mut position = Position::start();
    for line in lines {
        position = labels.pass(source, line, position)?;
    }
    Ok(labels.measured(data_bytes))
}

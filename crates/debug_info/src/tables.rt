//! The sections .symtab and .strtab: the labels and their addresses.
use crate::numbers::{length_of, put_half, put_text, put_word};
use crate::symbol::Symbol;
use std::alloc::{AllocError, Global};

/// The numbers of the sections that labels stand in.
pub const TEXT: u16 = 1;

pub const DATA: u16 = 2;

/// The bytes of a symbol.
pub const SYMBOL_BYTES: u32 = 16;

/// A local symbol of no type, or of data.
const PLAIN: u8 = 0;

const OBJECT: u8 = 1;

/// The two sections.
pub struct Tables {
    pub symbols: Vec<u8>,
    pub names: Vec<u8>,
    /// How many symbols there are, with the first, which is none.
    pub count: u32,
}

impl Drop for Tables {
    fn drop(self) {
        let Tables {
            symbols: _symbols,
            names: _names,
            count: _,
        } = self;
    }
}

impl Tables {
    fn put(&mut self, symbol: &Symbol<'_>, start: u32) -> Result<(), AllocError> {
        let (kind, section) = if symbol.in_data {
            (OBJECT, DATA)
        } else {
            (PLAIN, TEXT)
        };
        put_word(&mut self.symbols, length_of(self.names.len()))?;
        put_word(&mut self.symbols, start.saturating_add(symbol.offset))?;
        put_word(&mut self.symbols, symbol.room)?;
        self.symbols.extend_from_slice(&[kind, 0])?;
        put_half(&mut self.symbols, section)?;
        put_text(&mut self.names, symbol.name)?;
        self.count = self.count.saturating_add(1);
        Ok(())
    }
}

/// The tables of labels, with text and data from these addresses on.
pub fn tables_of(
    alloc: Global,
    symbols: &[Symbol<'_>],
    text_start: u32,
    data_start: u32,
) -> Result<Tables, AllocError> {
    let mut tables = Tables {
        symbols: Vec::new(alloc),
        names: Vec::new(alloc),
        count: 1,
    };
    tables.symbols.extend_from_slice(&[0; 16])?;
    tables.names.push(0)?;
    for symbol in symbols {
        let start = if symbol.in_data {
            data_start
        } else {
            text_start
        };
        tables.put(symbol, start)?;
    }
    Ok(tables)
}

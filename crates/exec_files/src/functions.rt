//! The symbols of an executable.
use crate::sections::{
    bytes_to_zero, content, end_of, half_at, section_count, section_numbered, word_at,
};
use std::alloc::{AllocError, Global};

/// How many bytes a symbol has.
const SYMBOL: usize = 16;

/// The kind of a section that has symbols.
const SYMBOL_TABLE: u32 = 2;

/// The kinds of symbols that may name code: none, as an assembler gives labels, and a function.
const NO_KIND: u8 = 0;

const FUNCTION: u8 = 2;

/// A name of code, and where that begins.
pub struct Function {
    pub name: String,
    pub start: u32,
    /// The address after it, at most: that of the next one may come before.
    end: u32,
}

impl Drop for Function {
    fn drop(self) {
        let Function {
            name: _name,
            start: _,
            end: _,
        } = self;
    }
}

/// The text in a section of names that begins at a place.
fn name_at(names: &[u8], at: usize) -> Option<&str> {
    str::from_utf8(bytes_to_zero(names, at)?).ok()
}

/// The name of a symbol that may name code.
fn code_named<'a>(symbol: &[u8], names: &'a [u8]) -> Option<&'a str> {
    let kind = *symbol.get(12)? & 15;
    let is_there = half_at(symbol, 14)? != 0;
    let name = name_at(names, word_at(symbol, 0)? as usize)?;
    let is_named = !name.is_empty() && !name.starts_with('$') && !name.starts_with('.');
    if is_there && is_named && (kind == NO_KIND || kind == FUNCTION) {
        Some(name)
    } else {
        None
    }
}

/// Where what a symbol names begins, and the address after it: by its size, and where it has none by its section. None where it is of
/// no section of the file.
fn range_of(file: &[u8], symbol: &[u8]) -> Option<(u32, u32)> {
    let start = word_at(symbol, 4)?;
    match word_at(symbol, 8)? {
        0 => {
            let section = section_numbered(file, u32::from(half_at(symbol, 14)?))?;
            Some((start, end_of(section)))
        }
        size => Some((start, start.saturating_add(size))),
    }
}

/// The table of symbols of a file, with their names.
fn tables(file: &[u8]) -> Option<(&[u8], &[u8])> {
    for number in 0..section_count(file) {
        let found = section_numbered(file, number)?;
        if found.kind == SYMBOL_TABLE {
            let names = section_numbered(file, found.link)?;
            return Some((content(file, found)?, content(file, names)?));
        }
    }
    None
}

/// The symbols of an executable's file that may name code. None are found where it was stripped of them, or they are damaged.
pub fn functions_of(alloc: Global, file: &[u8]) -> Result<Vec<Function>, AllocError> {
    let mut functions = Vec::new(alloc);
    let Some((symbols, names)) = tables(file) else {
        return Ok(functions);
    };
    for symbol in symbols.chunks_exact(SYMBOL) {
        if let Some(name) = code_named(symbol, names)
            && let Some((start, end)) = range_of(file, symbol)
        {
            let name = String::from_str(alloc, name)?;
            functions.push(Function { name, start, end })?;
        }
    }
    Ok(functions)
}

/// The last function that begins at an address or before it; None where that ends before.
pub fn function_at(functions: &[Function], address: u32) -> Option<&Function> {
    let mut found: Option<&Function> = None;
    for function in functions {
        let is_nearer = match found {
            Some(nearest) => function.start > nearest.start,
            None => true,
        };
        if function.start <= address && is_nearer {
            found = Some(function);
        }
    }
    match found {
        Some(function) if address < function.end => Some(function),
        _ => None,
    }
}

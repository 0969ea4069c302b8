//! Lines, read as the assembler reads them.
use asm_statements::{Label, Statement, read_statement, split_label};
use asm_text::{Cause, Line, lines};
use std::alloc::{AllocError, Global};

/// A line with its tokens. An error is the byte at which it has none.
pub fn tokens_of(alloc: Global, text: &str) -> Result<Result<Line, usize>, AllocError> {
    match lines(alloc, text) {
        Ok(mut lines) => match lines.pop() {
            Some(line) => Ok(Ok(line)),
            None => Ok(Err(0)),
        },
        Err(fault) => match fault.why {
            Cause::OutOfMemory => Err(AllocError),
            Cause::Syntax => Ok(Err(fault.column.saturating_sub(1))),
        },
    }
}

/// The label and the statement of a line. An error is the byte at which it has no form.
pub fn parts_of(
    source: &[u8],
    line: &Line,
    in_data: bool,
) -> Result<(Option<Label>, Statement), usize> {
    let (label, rest) = match split_label(source, line.tokens.as_slice()) {
        Ok(split) => split,
        Err(at) => return Err(at),
    };
    match read_statement(source, in_data, line.end, rest) {
        Ok(statement) => Ok((label, statement)),
        Err(at) => Err(at),
    }
}

/// Whether the assembler has a form for a line, at least in data.
pub fn has_form(alloc: Global, text: &str) -> Result<bool, AllocError> {
    match tokens_of(alloc, text)? {
        Ok(line) => Ok(parts_of(text.as_bytes(), &line, true).is_ok()),
        Err(_) => Ok(false),
    }
}

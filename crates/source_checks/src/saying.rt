//! The one line that is said of a fault.
use crate::place::{Place, place_in};
use crate::source::Source;
use crate::syntax::syntax_advice;
use crate::wanted::form_at;
use assembler::{AsmFault, Cause};
use std::alloc::{AllocError, Global};

/// The label as which a program's begin may have been meant: one that is nearly `_start`, or `main`, or else the first.
fn meant_start<'a>(alloc: Global, source: &Source<'a>) -> Result<Option<&'a str>, AllocError> {
    if source.has("main") {
        return Ok(Some("main"));
    }
    match source.near(alloc, "_start")? {
        Some(near) => Ok(Some(near)),
        None => Ok(source.first()),
    }
}

fn no_start_advice(alloc: Global, source: &Source<'_>) -> Result<String, AllocError> {
    if let Some(line) = source.line_of("_start") {
        return format!(in alloc;
            "the program begins at the label _start, and no word of .text stands after that of line {line}"
        );
    }
    let mut text = String::from_str(
        alloc,
        "the program begins at the label _start, and no line of .text has it",
    )?;
    if let Some(name) = meant_start(alloc, source)? {
        let line = source.line_of(name).unwrap_or(0);
        write!(text, "; is it {name}, at line {line}?")?;
    }
    Ok(text)
}

fn unknown_advice(alloc: Global, source: &Source<'_>, name: &str) -> Result<String, AllocError> {
    match source.near(alloc, name)? {
        Some(near) => format!(in alloc; "no line has the label {name}; is it {near}?"),
        None => format!(in alloc; "no line has the label {name}"),
    }
}

fn double_advice(alloc: Global, source: &Source<'_>, name: &str) -> Result<String, AllocError> {
    let line = source.line_of(name).unwrap_or(0);
    format!(in alloc; "{name} stands at line {line} already; a label stands once")
}

/// The room that a statement has for its number.
fn room_of(name: &str, operands: &str) -> &'static str {
    match name {
        ".byte" => "a byte is -128 to 255",
        ".space" => "a size is 0 or more, in .text a multiple of 4",
        "lui" | "auipc" => "the upper twenty bits are 0 to 0xfffff",
        "slli" | "srli" | "srai" => "a shift goes by 0 to 31",
        "jal" | "j" | "call" => {
            "a jump goes a multiple of 4 bytes, within -1048576 to 1048572: la and jr go anywhere"
        }
        _ if operands.ends_with("target") => {
            "a branch goes a multiple of 4 bytes, within -4096 to 4092: branch over a j"
        }
        _ if operands.ends_with("number(rs1)") => {
            "there is room for -2048 to 2047 beside the register; li or la puts any other address into one"
        }
        _ => "there is room for -2048 to 2047; li puts any number into a register",
    }
}

fn range_advice(alloc: Global, place: &Place<'_>) -> Result<String, AllocError> {
    let room = room_of(place.name, form_at(place).unwrap_or(""));
    format!(in alloc; "{}: {room}", place.name)
}

fn too_large_advice(alloc: Global) -> Result<String, AllocError> {
    String::from_str(
        alloc,
        "a source has at most 1048576 bytes, and text and data have at most 60 pages of 4096 bytes",
    )
}

/// What is said of a fault at a place.
pub fn said_of(
    alloc: Global,
    source: &Source<'_>,
    why: Cause,
    place: &Place<'_>,
) -> Result<String, AllocError> {
    match why {
        Cause::Syntax => syntax_advice(alloc, source, place),
        Cause::UnknownName => unknown_advice(alloc, source, place.found),
        Cause::DoubleLabel => double_advice(alloc, source, place.found),
        Cause::Range => range_advice(alloc, place),
        Cause::NoStart => no_start_advice(alloc, source),
        Cause::TooLarge => too_large_advice(alloc),
        Cause::OutOfMemory => String::from_str(alloc, "memory ran out"),
    }
}

/// The name of a fault, and what is said of it.
pub fn named_advice(
    alloc: Global,
    source: &Source<'_>,
    fault: AsmFault,
) -> Result<String, AllocError> {
    let why = fault.why;
    let place = place_in(source.line(fault.line), fault.column);
    let said = said_of(alloc, source, why, &place)?;
    format!(in alloc; "{why}: {said}")
}

/// One line about a fault of a source: its name, what is written there, and what would cure it.
pub fn advice(alloc: Global, source: &str, fault: AsmFault) -> Result<String, AllocError> {
    named_advice(alloc, &Source::of(alloc, source)?, fault)
}

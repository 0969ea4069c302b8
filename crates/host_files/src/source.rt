//! Assembles a source to a file: an image (`bench asm`), or symbols for gdb (`bench symbols`).
use crate::kind::{FileKind, KindText, kind_of};
use crate::output_file::write_file;
use crate::place::writes_over;
use crate::reading::no_text;
use assembler::{AsmFault, Cause, assemble};
use debug_info::{SymbolFile, symbol_file};
use faults::{Fault, Refusal, at_path};
use input_reading::bytes_in;
use machine_model::{Image, Segment};
use source_checks::advice;
use std::alloc::{AllocError, Global};
use std::io::Write;
use std::rt::Files;

/// The longest source that is assembled, in bytes.
const MOST_SOURCE_BYTES: usize = 1_048_576;

/// What a source is made to: the bytes of a file, and the line that is printed.
struct Assembled {
    file: Vec<u8>,
    line: String,
}

impl Drop for Assembled {
    fn drop(self) {
        let Assembled {
            file: _file,
            line: _line,
        } = self;
    }
}

fn size_of(segment: Option<&Segment>) -> usize {
    match segment {
        Some(segment) => segment.bytes.as_slice().len(),
        None => 0,
    }
}

/// The line with the sizes of text and data, and the entry.
fn line_of(alloc: Global, image: &Image) -> Result<String, Fault> {
    let text = size_of(image.segments().first());
    let data = size_of(image.segments().get(1));
    let entry = image.entry();
    Ok(format!(in alloc; "{text} text bytes, {data} data bytes, entry {entry:08x}")?)
}

/// What a text is, if it is meant as no source.
pub fn other_kind(text: &str) -> Option<FileKind> {
    let kind = kind_of(text.as_bytes());
    let is_source = matches!(kind, FileKind::Source | FileKind::Text | FileKind::Other);
    (!is_source).then_some(kind)
}

/// What is said of the source of a file that is refused: what else the file is, or what cures the fault.
fn said_of(alloc: Global, path: &str, source: &str, fault: AsmFault) -> Result<String, AllocError> {
    match other_kind(source) {
        Some(kind) => format!(in alloc; "{}", KindText { kind, path }),
        None => advice(alloc, source, fault),
    }
}

/// The fault of the source of a file, with what cures it.
pub fn source_fault(alloc: Global, path: &str, source: &str, fault: AsmFault) -> Fault {
    if fault.why == Cause::OutOfMemory {
        return Fault::OutOfMemory;
    }
    let number = fault.why.number();
    let said = said_of(alloc, path, source, fault);
    Fault::saying(Refusal::Source { number, fault }, said).at(alloc, path)
}

fn assemble_source(alloc: Global, path: &str, source: &str) -> Result<Assembled, Fault> {
    let image = match assemble(alloc, source) {
        Ok((image, _listing)) => image,
        Err(fault) => return Err(source_fault(alloc, path, source, fault)),
    };
    Ok(Assembled {
        line: line_of(alloc, &image)?,
        file: elf32::write(alloc, &image)?,
    })
}

/// The bytes of the source in a file. One that is too long is read one byte past the longest, and no further.
pub fn source_in<R: Files + AllocGlobal>(rt: &R, path: &str) -> Result<Vec<u8>, Fault> {
    at_path(rt.alloc(), path, bytes_in(rt, path, MOST_SOURCE_BYTES))
}

/// The bytes of a source's file as text, or of its beginning where it is too long. There the last character may be cut short: then the
/// source's fault is given beside the text before it.
pub fn text_of<'b>(
    alloc: Global,
    path: &str,
    bytes: &'b [u8],
) -> Result<(&'b str, Option<AsmFault>), Fault> {
    match str::from_utf8(bytes) {
        Ok(source) => Ok((source, None)),
        Err(error) if bytes.len() > MOST_SOURCE_BYTES && error.error_len().is_none() => {
            let whole = bytes.get(..error.valid_up_to()).unwrap_or(&[]);
            let source = str::from_utf8(whole).unwrap_or("");
            Ok((source, Some(AsmFault::whole(Cause::TooLarge))))
        }
        Err(error) => Err(no_text(alloc, path, bytes, error.valid_up_to())),
    }
}

/// The text of the bytes of the source at a path.
fn source_of<'b>(alloc: Global, path: &str, bytes: &'b [u8]) -> Result<&'b str, Fault> {
    match text_of(alloc, path, bytes)? {
        (source, None) => Ok(source),
        (source, Some(fault)) => Err(source_fault(alloc, path, source, fault)),
    }
}

/// The text of the source in a file.
pub fn source_text<R: Files + AllocGlobal>(rt: &R, path: &str) -> Result<String, Fault> {
    let bytes = source_in(rt, path)?;
    Ok(String::from_str(rt.alloc(), source_of(rt.alloc(), path, &bytes)?)?)
}

/// Writes to a file what a source was made to, and prints the line. Where both paths lead to one file nothing is written.
fn write_assembled<R: Files + AllocGlobal, O: Write>(
    rt: &R,
    assembled: &Assembled,
    source: &str,
    path: &str,
    out: &mut O,
) -> Result<(), Fault> {
    if writes_over(rt, path, source)? {
        let why = "this path leads to the source itself; name another file";
        return Err(Fault::of_file(rt.alloc(), Refusal::InputOutput, path, why));
    }
    write_file(rt, path, assembled.file.as_slice())?;
    let line = assembled.line.as_str();
    writeln!(out, "{line}")?;
    Ok(())
}

/// Assembles the source in a file, writes its image to another, and prints the sizes of its text and data, and its entry. A source
/// that is too long is read one byte past the longest, and no further.
pub fn assemble_file<R: Files + AllocGlobal, O: Write>(
    rt: &R,
    source: &str,
    image: &str,
    out: &mut O,
) -> Result<(), Fault> {
    let alloc = rt.alloc();
    let bytes = source_in(rt, source)?;
    let assembled = assemble_source(alloc, source, source_of(alloc, source, &bytes)?)?;
    write_assembled(rt, &assembled, source, image, out)
}

fn symbols_of(alloc: Global, source: &str, path: &str) -> Result<Assembled, Fault> {
    let symbols = match symbol_file(alloc, source, path) {
        Ok(symbols) => symbols,
        Err(fault) => return Err(source_fault(alloc, path, source, fault)),
    };
    let (labels, words) = (symbols.labels, symbols.words);
    let SymbolFile {
        bytes,
        labels: _,
        words: _,
    } = symbols;
    Ok(Assembled {
        line: format!(in alloc; "{labels} labels, {words} words of text")?,
        file: bytes,
    })
}

/// Writes what gdb is told of the source in a file to another, and prints how many labels and words of text there are. gdb looks for
/// the source by the same path.
pub fn symbols_file<R: Files + AllocGlobal, O: Write>(
    rt: &R,
    source: &str,
    symbols: &str,
    out: &mut O,
) -> Result<(), Fault> {
    let alloc = rt.alloc();
    let bytes = source_in(rt, source)?;
    let written = symbols_of(alloc, source_of(alloc, source, &bytes)?, source)?;
    write_assembled(rt, &written, source, symbols, out)
}

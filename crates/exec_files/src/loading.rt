//! A program's file, read.
use crate::code_lines::CodeLines;
use crate::functions::functions_of;
use crate::program::{LoadedProgram, Names, Places};
use assembler::assemble;
use debug_info::SourceLines;
use elf32::{ElfFault, MOST_LINKED_BYTES, image_of};
use faults::{Fault, Refusal, at_path};
use host_files::{FileKind, kind_fault, kind_of, source_fault, text_of_file};
use input_reading::bytes_in;
use machine_model::Image;
use std::alloc::{AllocError, Global};
use std::rt::Files;

/// What is said of an executable that has nothing to name an address by.
const NO_NAMES: &str = "it has no symbols, and no lines (DWARF), by which a place is named";

/// A file that is refused, with the exit status 2.
const REFUSED: Refusal = Refusal::Told { status: 2 };

/// The fault of a file that is refused.
pub fn refused(alloc: Global, path: &str, why: &str) -> Fault {
    Fault::of_file(alloc, REFUSED, path, why)
}

/// The image that an executable's file is or makes.
fn linked_image(alloc: Global, path: &str, file: &[u8]) -> Result<Image, Fault> {
    match elf32::parse(alloc, file) {
        Ok(image) => return Ok(image),
        Err(ElfFault::OutOfMemory) => return Err(Fault::OutOfMemory),
        Err(_) => {}
    }
    match image_of(alloc, file) {
        Ok(image) => Ok(image),
        Err(fault) => Err(Fault::from(fault).at(alloc, path)),
    }
}

/// The symbols and the lines of an executable.
fn executable_names(alloc: Global, file: &[u8]) -> Result<Names, AllocError> {
    Ok(Names::Executable {
        functions: functions_of(alloc, file)?,
        lines: CodeLines::of(alloc, file)?,
    })
}

fn load_linked(alloc: Global, path: &str, file: &[u8]) -> Result<(Image, Names), Fault> {
    let image = linked_image(alloc, path, file)?;
    Ok((image, executable_names(alloc, file)?))
}

fn load_source(alloc: Global, path: &str, source: &str) -> Result<(Image, Names), Fault> {
    let image = match assemble(alloc, source) {
        Ok((image, _listing)) => image,
        Err(fault) => return Err(source_fault(alloc, path, source, fault)),
    };
    let text = String::from_str(alloc, source)?;
    match SourceLines::read(alloc, text, &image) {
        Ok(Some(lines)) => Ok((image, Names::Source(lines))),
        Ok(None) => Ok((image, executable_names(alloc, &[])?)),
        Err(_) => Err(Fault::OutOfMemory),
    }
}

/// The image of a program's file, and what is known of it.
fn read(alloc: Global, path: &str, file: &[u8]) -> Result<(Image, Names), Fault> {
    let kind = kind_of(file);
    match kind {
        FileKind::Image | FileKind::Executable => return load_linked(alloc, path, file),
        FileKind::Empty | FileKind::Script => return Err(kind_fault(alloc, REFUSED, path, kind)),
        _ => {}
    }
    let source = text_of_file(alloc, path, file)?;
    if kind == FileKind::Other {
        return Err(kind_fault(alloc, REFUSED, path, kind));
    }
    load_source(alloc, path, source)
}

/// The bytes of a program's file.
fn file_in<R: Files + AllocGlobal>(rt: &R, path: &str) -> Result<Vec<u8>, Fault> {
    at_path(rt.alloc(), path, bytes_in(rt, path, MOST_LINKED_BYTES))
}

/// The program of the bytes of the file at a path. What it is its bytes say: those of an image or of an executable begin with 7F and the
/// letters ELF, and a text that is no script is a source, which is assembled.
pub fn program_of(alloc: Global, path: &str, file: &[u8]) -> Result<LoadedProgram, Fault> {
    let (image, names) = read(alloc, path, file)?;
    let path = String::from_str(alloc, path)?;
    Ok(LoadedProgram {
        image,
        places: Places { path, names },
    })
}

/// What an ELF file names, whether it may be run or not. Refused where it names nothing.
fn names_of_elf(alloc: Global, path: &str, file: &[u8]) -> Result<Names, Fault> {
    let functions = functions_of(alloc, file)?;
    let lines = CodeLines::of(alloc, file)?;
    if functions.is_empty() && lines.is_empty() {
        return Err(refused(alloc, path, NO_NAMES));
    }
    Ok(Names::Executable { functions, lines })
}

/// What the file of a program names, as `program_of` reads it. An ELF file need not be one that may be run, but has to name something.
pub fn load_places<R: Files + AllocGlobal>(rt: &R, path: &str) -> Result<Places, Fault> {
    let alloc = rt.alloc();
    let file = file_in(rt, path)?;
    let names = match kind_of(file.as_slice()) {
        FileKind::Image | FileKind::Executable => names_of_elf(alloc, path, file.as_slice())?,
        _ => {
            let (_image, names) = read(alloc, path, file.as_slice())?;
            names
        }
    };
    let path = String::from_str(alloc, path)?;
    Ok(Places { path, names })
}

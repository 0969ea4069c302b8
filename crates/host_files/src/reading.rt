//! `image_in`: reads the image in a file of the host. `text_in`: a text.
use crate::image_reason::ImageReason;
use crate::kind::{FileKind, kind_fault, kind_of};
use elf32::ElfFault;
use faults::{Fault, Refusal, at_path};
use input_reading::image_file_in;
use machine_model::Image;
use std::alloc::Global;
use std::fs;
use std::rt::Files;

/// The refusal of a text whose byte after so many is none of a text.
fn no_text_at(bytes: &[u8], after: usize) -> Refusal {
    let mut line = 1usize;
    let mut column = 1usize;
    for byte in bytes.iter().take(after) {
        column = column.saturating_add(1);
        if *byte == b'\n' {
            line = line.saturating_add(1);
            column = 1;
        }
    }
    Refusal::NoText { line, column }
}

/// The fault of a file of these bytes that are text up to a place: what else it is, or the place.
pub fn no_text(alloc: Global, path: &str, bytes: &[u8], after: usize) -> Fault {
    let kind = kind_of(bytes);
    match kind {
        FileKind::Image | FileKind::Executable => {
            kind_fault(alloc, Refusal::InputOutput, path, kind)
        }
        _ => Fault::from(no_text_at(bytes, after)).at(alloc, path),
    }
}

/// The text of the bytes of a file.
pub fn text_of_file<'b>(alloc: Global, path: &str, bytes: &'b [u8]) -> Result<&'b str, Fault> {
    match str::from_utf8(bytes) {
        Ok(text) => Ok(text),
        Err(error) => Err(no_text(alloc, path, bytes, error.valid_up_to())),
    }
}

/// The text in a file, which is read whole.
pub fn text_in<R: Files + AllocGlobal>(rt: &R, path: &str) -> Result<String, Fault> {
    let bytes = at_path(rt.alloc(), path, fs::read(rt, path))?;
    let text = text_of_file(rt.alloc(), path, bytes.as_slice())?;
    Ok(String::from_str(rt.alloc(), text)?)
}

/// The bytes of an image's file, as far as they are needed to read it.
pub fn image_bytes_in<R: Files + AllocGlobal>(rt: &R, path: &str) -> Result<Vec<u8>, Fault> {
    at_path(rt.alloc(), path, image_file_in(rt, path))
}

/// The fault of bytes that are no image; with which field is wrong, or what else the file of this name is.
fn image_fault(alloc: Global, path: &str, file: &[u8], fault: ElfFault) -> Fault {
    if matches!(fault, ElfFault::OutOfMemory) {
        return Fault::OutOfMemory;
    }
    let number = fault.number();
    let said = format!(in alloc; "{}", ImageReason { path, file, fault });
    Fault::saying(Refusal::Image { number, fault }, said)
}

/// The image of these bytes, of a file that is not named.
pub fn image_of_bytes(alloc: Global, bytes: &[u8]) -> Result<Image, Fault> {
    match elf32::parse(alloc, bytes) {
        Ok(image) => Ok(image),
        Err(fault) => Err(image_fault(alloc, "", bytes, fault)),
    }
}

/// The image of the bytes of the file at a path.
pub fn image_of_file(alloc: Global, path: &str, bytes: &[u8]) -> Result<Image, Fault> {
    match elf32::parse(alloc, bytes) {
        Ok(image) => Ok(image),
        Err(fault) => Err(image_fault(alloc, path, bytes, fault).at(alloc, path)),
    }
}

/// The image in a file, as `elf32::parse` reads it.
pub fn image_in<R: Files + AllocGlobal>(rt: &R, path: &str) -> Result<Image, Fault> {
    let bytes = image_bytes_in(rt, path)?;
    image_of_file(rt.alloc(), path, bytes.as_slice())
}

//! `image_file`: makes an image of an executable that a stock linker wrote (`bench image`).
use crate::kind::{kind_fault, kind_of};
use crate::output_file::write_file;
use crate::place::writes_over;
use elf32::{LinkFault, MOST_LINKED_BYTES, image_of};
use faults::{Fault, Refusal, at_path};
use input_reading::bytes_in;
use machine_model::{Image, Segment};
use std::alloc::Global;
use std::io::Write;
use std::rt::Files;

/// The bytes of a page.
const PAGE: u64 = 4096;

/// How many pages a segment has; it lies below 2^32.
fn page_count(segment: &Segment) -> u64 {
    let first = u64::from(segment.vaddr) / PAGE;
    let end = u64::from(segment.vaddr) + u64::from(segment.memsz);
    end.div_ceil(PAGE).saturating_sub(first)
}

/// Prints how many segments and pages an image has, and where it begins.
fn print_size<O: Write>(image: &Image, out: &mut O) -> Result<(), Fault> {
    let segments = image.segments().len();
    let mut pages: u64 = 0;
    for segment in image.segments() {
        pages = pages.saturating_add(page_count(segment));
    }
    let entry = image.entry();
    writeln!(out, "{segments} segments, {pages} pages, entry {entry:08x}")?;
    Ok(())
}

/// The fault of a file that is no executable: what else it is, if it is text.
fn link_fault(alloc: Global, path: &str, bytes: &[u8], fault: LinkFault) -> Fault {
    let kind = kind_of(bytes);
    if kind.is_text() {
        return kind_fault(alloc, Refusal::Linked(fault), path, kind);
    }
    Fault::from(fault).at(alloc, path)
}

/// Makes an image of the executable in a file, writes it to another, and prints how many segments and pages it has, and its entry.
/// Nothing is written where the executable is refused, or where both paths lead to one file, which is SameFile.
pub fn image_file<R: Files + AllocGlobal, O: Write>(
    rt: &R,
    linked: &str,
    image: &str,
    out: &mut O,
) -> Result<(), Fault> {
    let alloc = rt.alloc();
    let bytes = at_path(alloc, linked, bytes_in(rt, linked, MOST_LINKED_BYTES))?;
    let program = match image_of(alloc, &bytes) {
        Ok(program) => program,
        Err(fault) => return Err(link_fault(alloc, linked, &bytes, fault)),
    };
    if writes_over(rt, image, linked)? {
        return Err(Fault::from(Refusal::SameFile).at(alloc, image));
    }
    let file = elf32::write(alloc, &program)?;
    write_file(rt, image, &file)?;
    print_size(&program, out)
}

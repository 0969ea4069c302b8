//! Linked files read as images.
ghost use Rattle.std.specs.Prelude.{◌≡◌, ◌*◌, ◌≤◌, length, IfOk, IfErr};
ghost use Rattle.std.specs.List.{filter};
ghost use Rattle.image_model.specs.Fields.{headers_in};
ghost use Rattle.elf32.specs.LinkChecks.{takes_memory};
ghost use Rattle.elf32.specs.LinkedPrograms.{IsLinked, IsRefused};

use crate::header::{PROGRAM_HEADER, PT_LOAD, read_file_header, read_program_header};
use crate::link_checks::{header_fault, kinds_fault, segments_fault};
use crate::link_fault::LinkFault;
use crate::segments::segments_of;
use image_model::ProgramHeader;
use machine_model::Image;
use std::alloc::{AllocError, Global};

/// The image of a linked file: its segments that take memory, with their bytes and rights at their addresses, and its entry. Or the
/// first check that fails. Sections, alignments, physical addresses, and program headers of other kinds say nothing.
pub fn image_of(alloc: Global, file: &[u8]) -> Result<Image, LinkFault>
    ensures ok { IfOk result (λ image. IsLinked file.now image) }
    ensures refused { IfErr result (λ why. IsRefused file.now why) }
{
    if let Some(fault) = header_fault(file) {
        return Err(fault);
    }
    let header = read_file_header(file);
    let table = read_table(alloc, &file[header.e_phoff as usize..], header.e_phnum)?;
    if let Some(fault) = kinds_fault(&table) {
        return Err(fault);
    }
    let headers = loaded(alloc, &table)?;
    if let Some(fault) = segments_fault(file.len(), header.e_entry, &headers) {
        return Err(fault);
    }
    let segments = segments_of(alloc, file, &headers)?;
    Ok(Image::new(header.e_entry, segments))
}

/// The program headers, so many of them, with which these bytes begin.
fn read_table(alloc: Global, bytes: &[u8], count: u16) -> Result<Vec<ProgramHeader>, AllocError>
    requires { 32 * count ≤ length bytes.now }
    ensures { IfOk result (λ headers. headers.items ≡ headers_in count bytes.now) }
{
    let count = usize::from(count);
    let mut headers = Vec::with_capacity(alloc, count)?;
    for k in 0..count {
        headers.push(read_program_header(&bytes[PROGRAM_HEADER * k..]))?;
    }
    Ok(headers)
}

/// Whether it is a segment that is loaded, and takes memory.
#[tactic(auto, unfolding(crate::specs::LinkChecks::takes_memory))]
fn takes_memory(h: &ProgramHeader) -> bool
    ensures { result ≡ takes_memory h.now }
{
    h.p_type == PT_LOAD && h.p_memsz != 0
}

/// The program headers of segments that take memory.
fn loaded(alloc: Global, headers: &[ProgramHeader]) -> Result<Vec<ProgramHeader>, AllocError>
    ensures { IfOk result (λ some. some.items ≡ filter takes_memory headers.now) }
{
    headers
        .iter()
        .copied()
        .filter(|h| takes_memory(h))
        .collect(alloc)
}

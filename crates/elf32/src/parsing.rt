//! Files read as images.
ghost use Rattle.std.specs.Prelude.{IfOk, IfErr};
ghost use Rattle.image_model.specs.Names.{Names, IsRefused};

use crate::checks::{header_fault, segments_fault};
use crate::header::{FILE_HEADER, read_file_header, read_table};
use crate::segments::segments_of;
use image_model::ElfFault;
use machine_model::Image;
use std::alloc::Global;

/// The program that a file names, or the first of the twelve checks that fails. Bytes that no segment names and physical addresses
/// are ignored. Memory is taken only for a file that has no fault.
pub fn parse(alloc: Global, file: &[u8]) -> Result<Image, ElfFault>
    ensures ok { IfOk result (λ image. Names file.now image) }
    ensures refused { IfErr result (λ why. IsRefused file.now why) }
{
    if let Some(fault) = header_fault(file) {
        return Err(fault);
    }
    let header = read_file_header(file);
    let count = usize::from(header.e_phnum);
    let table = read_table(&file[FILE_HEADER..], count);
    let headers = &table[..count];
    if let Some(fault) = segments_fault(file.len(), header.e_entry, headers) {
        return Err(fault);
    }
    let segments = segments_of(alloc, file, headers)?;
    Ok(Image::new(header.e_entry, segments))
}

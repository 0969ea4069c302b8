//! Images written as files.
ghost use Rattle.std.specs.Prelude.{◌≡◌, ◌+◌, ◌*◌, ◌^◌, ◌<◌, ◌≤◌, ◌++◌, List, All, length, replicate, sum_by, vec_len, IfOk, OnOk};
ghost use Rattle.machine_model.specs.Images.{IsLoadable, IsProfile, page_count};
ghost use Rattle.elf32.specs.Files.{AreNear, file_header_of, flags_of, program_header_of, offset_after, end_after, table_after, contents_after, file_of, RoundTrips};

use crate::header::{
    EM_RISCV, ET_EXEC, EV_CURRENT, FILE_HEADER, IDENT, MAGIC, PAGE, PF_R, PF_W, PF_X,
    PROGRAM_HEADER, PT_LOAD,
};
use crate::little_endian::put_halves;
use machine_model::{Image, Rights, Segment, put_words};
use std::alloc::{AllocError, Global};

/// The file of an image: its headers, then from the second page on the bytes of its segments. Each offset equals its address modulo
/// a page, and each physical address is the address. Zeros fill the gaps, also up to the offset of a last segment without bytes.
pub fn write(alloc: Global, image: &Image) -> Result<Vec<u8>, AllocError>
    ensures { IfOk result (λ file. file.items ≡ file_of image.now) }
{
    let segments = image.segments();
    let mut file = Vec::new(alloc);
    put_file_header(&mut file, image.entry(), segments.len() as u16)?;
    put_table(&mut file, PAGE, segments)?;
    file.resize(PAGE as usize, 0)?;
    put_contents(&mut file, segments)?;
    Ok(file)
}

#[tactic(auto, unfolding(crate::specs::Files::file_header_of))]
fn put_file_header(file: &mut Vec<u8>, entry: u32, count: u16) -> Result<(), AllocError>
    ensures { OnOk result (file.new.items ≡ file.old.items ++ file_header_of entry count) }
{
    file.extend_from_slice(&MAGIC)?;
    file.extend_from_slice(&IDENT)?;
    // Type and machine.
    put_halves(file, &[ET_EXEC, EM_RISCV])?;
    // Version, entry, offset of the program headers, offset of sections, flags.
    put_words(file, &[EV_CURRENT, entry, FILE_HEADER as u32, 0, 0])?;
    // The headers' sizes, how many program headers there are, no sections.
    put_halves(
        file,
        &[FILE_HEADER as u16, PROGRAM_HEADER as u16, count, 0, 0, 0],
    )
}

/// The flags of rights: X 1, W 2, R 4.
fn flags_of(rights: Rights) -> u32
    ensures { result ≡ flags_of rights }
{
    let read = if rights.read { PF_R } else { 0 };
    let write = if rights.write { PF_W } else { 0 };
    let execute = if rights.execute { PF_X } else { 0 };
    read + write + execute
}

/// The offset of a segment's bytes, after bytes that end at `end`.
#[tactic(auto, unfolding(crate::specs::Files::offset_after))]
fn offset_after(end: u32, segment: &Segment) -> u32
    requires { end < 2 ^ 20 }
    ensures { result ≡ offset_after end segment.now }
{
    (end + PAGE - 1) / PAGE * PAGE + segment.vaddr % PAGE
}

#[tactic(auto, unfolding(crate::specs::Files::program_header_of))]
fn put_program_header(file: &mut Vec<u8>, offset: u32, segment: &Segment) -> Result<(), AllocError>
    requires { length segment.now.bytes < 2 ^ 32 }
    ensures { OnOk result (file.new.items ≡ file.old.items ++ program_header_of offset segment.now) }
{
    let filesz = segment.bytes.as_slice().len() as u32;
    let flags = flags_of(segment.rights);
    // Type, offset, address, physical address, sizes in the file and in memory, flags, alignment.
    put_words(
        file,
        &[
            PT_LOAD,
            offset,
            segment.vaddr,
            segment.vaddr,
            filesz,
            segment.memsz,
            flags,
            PAGE,
        ],
    )
}

/// Appends the program headers of segments, whose bytes lie after bytes that end at `end`.
fn put_table(file: &mut Vec<u8>, end: u32, segments: &[Segment]) -> Result<(), AllocError>
    requires { AreNear end segments.now }
    ensures { OnOk result (file.new.items ≡ file.old.items ++ table_after end segments.now) }
{
    match segments {
        [] => Ok(()),
        [segment, rest @ ..] => {
            let offset = offset_after(end, segment);
            put_program_header(file, offset, segment)?;
            put_table(file, offset + segment.bytes.as_slice().len() as u32, rest)
        }
    }
}

/// Appends the bytes of segments, each after zeros up to its offset.
fn put_contents(file: &mut Vec<u8>, segments: &[Segment]) -> Result<(), AllocError>
    requires { AreNear (vec_len file.old) segments.now }
    ensures { OnOk result (file.new.items ≡ file.old.items ++ contents_after (vec_len file.old) segments.now) }
{
    match segments {
        [] => Ok(()),
        [segment, rest @ ..] => {
            let offset = offset_after(file.len() as u32, segment);
            file.resize(offset as usize, 0)?;
            file.extend_from_slice(segment.bytes.as_slice())?;
            put_contents(file, rest)
        }
    }
}

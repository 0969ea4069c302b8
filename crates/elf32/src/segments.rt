//! Segments by their program headers: the tests that every file has to pass, and what is read of it.
ghost use Rattle.std.specs.Prelude.{◌≡◌, ◌+◌, ◌*◌, ◌^◌, ◌<◌, ◌≤◌, false, length, map, sum_by, IfOk};
ghost use Rattle.std.specs.List.{list_any};
ghost use Rattle.image_model.specs.Checks.{has_bad_flags, has_bad_size, is_past_end, first_page_of, last_page_of, page_count_of, is_out_of_range, meets_next, has_overlap, is_code_at};
ghost use Rattle.image_model.specs.Names.{segment_in};

use crate::header::{PAGE, PF_R, PF_W, PF_X, may_execute, may_read, may_write};
use byte_list::Bytes;
use image_model::ProgramHeader;
use machine_model::{Rights, Segment};
use std::alloc::{AllocError, Global};

/// The lowest address of a segment.
const LOWEST: u32 = 0x0001_0000;

/// Where the addresses of segments end.
const HIGHEST: u64 = 0x7fff_0000;

/// How many pages all segments may have.
pub const MOST_PAGES: u64 = 60;

#[tactic(auto, unfolding(image_model::specs::Checks::has_bad_flags))]
pub fn has_bad_flags(h: &ProgramHeader) -> bool
    ensures { result ≡ has_bad_flags h.now }
{
    h.p_flags == 0 || h.p_flags > (PF_R | PF_W | PF_X)
}

#[tactic(auto, unfolding(image_model::specs::Checks::has_bad_size))]
fn has_bad_size(h: &ProgramHeader) -> bool
    ensures { result ≡ has_bad_size h.now }
{
    h.p_memsz < h.p_filesz
}

pub fn any_bad_size(headers: &[ProgramHeader]) -> bool
    ensures { result ≡ list_any has_bad_size headers.now }
{
    headers.iter().any(|h| has_bad_size(h))
}

/// Whether its bytes pass the end of a file of this length.
#[tactic(auto, unfolding(image_model::specs::Checks::is_past_end))]
fn is_past_end(end: usize, h: &ProgramHeader) -> bool
    ensures { result ≡ is_past_end end h.now }
{
    (end as u64) < u64::from(h.p_offset) + u64::from(h.p_filesz)
}

pub fn any_past_end(end: usize, headers: &[ProgramHeader]) -> bool
    ensures { result ≡ list_any (is_past_end end) headers.now }
{
    headers.iter().any(|h| is_past_end(end, h))
}

/// The address after its last byte.
fn end_of(h: &ProgramHeader) -> u64
    ensures value { result ≡ h.now.p_vaddr + h.now.p_memsz }
    ensures fits { result < 2 ^ 33 }
{
    u64::from(h.p_vaddr) + u64::from(h.p_memsz)
}

/// The number of its first page.
fn first_page_of(h: &ProgramHeader) -> u64
    ensures { result ≡ first_page_of h.now }
{
    u64::from(h.p_vaddr / PAGE)
}

/// The number of its last page.
fn last_page_of(h: &ProgramHeader) -> u64
    ensures value { result ≡ last_page_of h.now }
    ensures fits { result < 2 ^ 21 }
{
    end_of(h).saturating_sub(1) / u64::from(PAGE)
}

/// How many pages it has.
#[tactic(auto, unfolding(image_model::specs::Checks::page_count_of))]
fn page_count_of(h: &ProgramHeader) -> u64
    ensures value { result ≡ page_count_of h.now }
    ensures fits { result ≤ 2 ^ 21 }
{
    last_page_of(h) + 1 - first_page_of(h)
}

/// How many pages all of them have; a page counts once for each segment.
pub fn page_total(headers: &[ProgramHeader]) -> u64
    requires { length headers.now ≤ 4 }
    ensures value { result ≡ sum_by page_count_of headers.now }
    ensures fits { result ≤ 2 ^ 21 * length headers.now }
{
    match headers {
        [] => 0,
        [h, rest @ ..] => page_count_of(h) + page_total(rest),
    }
}

/// Whether it begins below the lowest address or ends past the highest.
#[tactic(auto, unfolding(image_model::specs::Checks::is_out_of_range))]
fn is_out_of_range(h: &ProgramHeader) -> bool
    ensures { result ≡ is_out_of_range h.now }
{
    h.p_vaddr < LOWEST || HIGHEST < end_of(h)
}

pub fn any_out_of_range(headers: &[ProgramHeader]) -> bool
    ensures { result ≡ list_any is_out_of_range headers.now }
{
    headers.iter().any(|h| is_out_of_range(h))
}

/// Whether the next one, if there is one, does not begin on a page above this one's.
#[tactic(auto, unfolding(image_model::specs::Checks::meets_next))]
fn meets_next(h: &ProgramHeader, rest: &[ProgramHeader]) -> bool
    ensures { result ≡ meets_next h.now rest.now }
{
    match rest {
        [] => false,
        [next, ..] => first_page_of(next) <= last_page_of(h),
    }
}

/// Whether one does not begin on a page above those of the one before.
#[tactic(auto, unfolding(image_model::specs::Checks::has_overlap))]
pub fn has_overlap(headers: &[ProgramHeader]) -> bool
    ensures { result ≡ has_overlap headers.now }
{
    match headers {
        [] => false,
        [h, rest @ ..] => meets_next(h, rest) || has_overlap(rest),
    }
}

/// Whether an address lies in it, and it may be executed.
#[tactic(auto, unfolding(image_model::specs::Checks::is_code_at))]
fn is_code_at(at: u32, h: &ProgramHeader) -> bool
    ensures { result ≡ is_code_at at h.now }
{
    may_execute(h) && h.p_vaddr <= at && u64::from(at) < end_of(h)
}

pub fn is_in_code(at: u32, headers: &[ProgramHeader]) -> bool
    ensures { result ≡ list_any (is_code_at at) headers.now }
{
    headers.iter().any(|h| is_code_at(at, h))
}

/// The segments that program headers name, with their bytes in the file.
pub fn segments_of(
    alloc: Global,
    file: &[u8],
    headers: &[ProgramHeader],
) -> Result<Vec<Segment>, AllocError>
    requires { list_any (is_past_end (length file.now)) headers.now ≡ false }
    ensures { IfOk result (λ segments. segments.items ≡ map (segment_in file.now) headers.now) }
{
    let mut segments = Vec::with_capacity(alloc, headers.len())?;
    for header in headers {
        segments.push(segment_of(alloc, file, header)?)?;
    }
    Ok(segments)
}

#[tactic(auto, unfolding(image_model::specs::Names::segment_in))]
fn segment_of(alloc: Global, file: &[u8], header: &ProgramHeader) -> Result<Segment, AllocError>
    requires { header.now.p_offset + header.now.p_filesz ≤ length file.now }
    ensures { IfOk result (λ segment. segment ≡ segment_in file.now header.now) }
{
    let rest = &file[header.p_offset as usize..];
    let bytes = Bytes::copy_of(alloc, &rest[..header.p_filesz as usize])?;
    Ok(Segment {
        vaddr: header.p_vaddr,
        memsz: header.p_memsz,
        rights: Rights {
            read: may_read(header),
            write: may_write(header),
            execute: may_execute(header),
        },
        bytes,
    })
}

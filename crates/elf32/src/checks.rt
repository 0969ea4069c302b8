//! The checks of a file's headers, in the order of `ElfFault`.
ghost use Rattle.std.specs.Prelude.{◌≡◌, ◌+◌, ◌*◌, ◌≤◌, length, IfNone};
ghost use Rattle.std.specs.List.{list_any};
ghost use Rattle.image_model.specs.Fields.{file_header};
ghost use Rattle.image_model.specs.Checks.{lacks_magic, lacks_ident, has_bad_kind, has_bad_table, has_sections, has_bad_layout, is_not_loaded, is_misplaced, is_bad_segment, has_bad_range, is_bad_entry, first_of, header_checks, segment_checks};

use crate::header::{
    EM_RISCV, ET_EXEC, EV_CURRENT, FILE_HEADER, IDENT, MAGIC, MOST_SEGMENTS, PAGE, PROGRAM_HEADER,
    PT_LOAD, read_file_header,
};
use crate::segments::{
    MOST_PAGES, any_bad_size, any_out_of_range, any_past_end, has_bad_flags, has_overlap,
    is_in_code, page_total,
};
use image_model::{ElfFault, FileHeader, ProgramHeader};

/// Whether a file does not begin with 7F and the letters ELF.
#[tactic(auto, unfolding(image_model::specs::Checks::lacks_magic))]
pub fn lacks_magic(file: &[u8]) -> bool
    ensures { result ≡ lacks_magic file.now }
{
    !file.starts_with(&MAGIC)
}

/// Whether a file's next twelve bytes do not say 32 bits, little-endian, version 1, and nothing else.
#[tactic(auto, unfolding(image_model::specs::Checks::lacks_ident))]
fn lacks_ident(file: &[u8]) -> bool
    requires { 4 ≤ length file.now }
    ensures { result ≡ lacks_ident file.now }
{
    !file[4..].starts_with(&IDENT)
}

#[tactic(auto, unfolding(image_model::specs::Checks::has_bad_kind))]
fn has_bad_kind(h: &FileHeader) -> bool
    ensures { result ≡ has_bad_kind h.now }
{
    !(h.e_type == ET_EXEC && h.e_machine == EM_RISCV && h.e_version == EV_CURRENT)
}

/// Whether the program headers, 1 to 4 of them, do not follow at once.
#[tactic(auto, unfolding(image_model::specs::Checks::has_bad_table))]
fn has_bad_table(h: &FileHeader) -> bool
    ensures { result ≡ has_bad_table h.now }
{
    !(h.e_phoff == FILE_HEADER as u32
        && h.e_ehsize == FILE_HEADER as u16
        && h.e_phentsize == PROGRAM_HEADER as u16
        && 1 <= h.e_phnum
        && h.e_phnum <= MOST_SEGMENTS as u16)
}

/// Whether there are flags or sections.
#[tactic(auto, unfolding(image_model::specs::Checks::has_sections))]
fn has_sections(h: &FileHeader) -> bool
    ensures { result ≡ has_sections h.now }
{
    !(h.e_shoff == 0 && h.e_flags == 0 && h.e_shentsize == 0 && h.e_shnum == 0 && h.e_shstrndx == 0)
}

fn has_bad_layout(h: &FileHeader) -> bool
    ensures { result ≡ has_bad_layout h.now }
{
    has_bad_table(h) || has_sections(h)
}

/// Whether it is no segment that is loaded, or its alignment is no page.
#[tactic(auto, unfolding(image_model::specs::Checks::is_not_loaded))]
fn is_not_loaded(h: &ProgramHeader) -> bool
    ensures { result ≡ is_not_loaded h.now }
{
    !(h.p_type == PT_LOAD && h.p_align == PAGE)
}

/// Whether it takes no memory, or its offset and its address lie at different places of their pages.
#[tactic(auto, unfolding(image_model::specs::Checks::is_misplaced))]
fn is_misplaced(h: &ProgramHeader) -> bool
    ensures { result ≡ is_misplaced h.now }
{
    h.p_memsz == 0 || h.p_offset % PAGE != h.p_vaddr % PAGE
}

/// Whether it is not a segment as a program has it.
fn is_bad_segment(h: &ProgramHeader) -> bool
    ensures { result ≡ is_bad_segment h.now }
{
    is_not_loaded(h) || has_bad_flags(h) || is_misplaced(h)
}

fn any_bad_segment(headers: &[ProgramHeader]) -> bool
    ensures { result ≡ list_any is_bad_segment headers.now }
{
    headers.iter().any(|h| is_bad_segment(h))
}

/// Whether some lie outside the addresses of programs, or all have too many pages together.
#[tactic(auto, unfolding(image_model::specs::Checks::has_bad_range))]
fn has_bad_range(headers: &[ProgramHeader]) -> bool
    requires { length headers.now ≤ 4 }
    ensures { result ≡ has_bad_range headers.now }
{
    any_out_of_range(headers) || MOST_PAGES < page_total(headers)
}

#[tactic(auto, unfolding(image_model::specs::Checks::is_bad_entry))]
fn is_bad_entry(entry: u32, headers: &[ProgramHeader]) -> bool
    ensures { result ≡ is_bad_entry entry headers.now }
{
    entry % 4 != 0 || !is_in_code(entry, headers)
}

/// The first fault of the file header, and of the room that the program headers take.
#[tactic(auto, unfolding(image_model::specs::Checks::is_short, image_model::specs::Checks::has_short_table))]
pub fn header_fault(file: &[u8]) -> Option<ElfFault>
    ensures value { result ≡ first_of (header_checks file.now) }
    ensures long { IfNone result (52 ≤ length file.now) }
    ensures some { IfNone result (1 ≤ (file_header file.now).e_phnum) }
    ensures few { IfNone result ((file_header file.now).e_phnum ≤ 4) }
    ensures whole { IfNone result (52 + 32 * (file_header file.now).e_phnum ≤ length file.now) }
{
    if file.len() < FILE_HEADER {
        return Some(ElfFault::Short);
    }
    if lacks_magic(file) {
        return Some(ElfFault::BadMagic);
    }
    if lacks_ident(file) {
        return Some(ElfFault::BadIdent);
    }
    let header = read_file_header(file);
    if has_bad_kind(&header) {
        Some(ElfFault::BadKind)
    } else if has_bad_layout(&header) {
        Some(ElfFault::BadHeader)
    } else if file.len() < FILE_HEADER + PROGRAM_HEADER * usize::from(header.e_phnum) {
        Some(ElfFault::ShortTable)
    } else {
        None
    }
}

/// The first fault of program headers, in a file of this length with this entry.
pub fn segments_fault(end: usize, entry: u32, headers: &[ProgramHeader]) -> Option<ElfFault>
    requires { length headers.now ≤ 4 }
    ensures { result ≡ first_of (segment_checks end entry headers.now) }
{
    if any_bad_segment(headers) {
        Some(ElfFault::BadSegment)
    } else if any_bad_size(headers) {
        Some(ElfFault::BadSize)
    } else if any_past_end(end, headers) {
        Some(ElfFault::PastEnd)
    } else if has_bad_range(headers) {
        Some(ElfFault::BadRange)
    } else if has_overlap(headers) {
        Some(ElfFault::Overlap)
    } else if is_bad_entry(entry, headers) {
        Some(ElfFault::BadEntry)
    } else {
        None
    }
}

//! The checks of a linked file, in the order of `LinkFault`.
ghost use Rattle.std.specs.Prelude.{◌≡◌, ◌+◌, ◌*◌, ◌≤◌, length, IfNone};
ghost use Rattle.std.specs.List.{list_any, find};
ghost use Rattle.image_model.specs.Fields.{file_header};
ghost use Rattle.image_model.specs.Checks.{lacks_magic, has_bad_flags};
ghost use Rattle.elf32.specs.LinkChecks.{lacks_ident, is_past_file, is_dynamic, wants_code_stack, is_unknown, ident_fault, kind_fault, flags_fault, table_fault, fields_fault, header_fault, kinds_fault, count_fault, each_fault, whole_fault, segments_fault};

use crate::checks::lacks_magic;
use crate::header::{
    EM_RISCV, ET_EXEC, EV_CURRENT, FILE_HEADER, MOST_SEGMENTS, PF_X, PROGRAM_HEADER, PT_LOAD,
    read_file_header,
};
use crate::link_fault::LinkFault;
use crate::segments::{
    MOST_PAGES, any_bad_size, any_out_of_range, any_past_end, has_bad_flags, has_overlap,
    is_in_code, page_total,
};
use image_model::{FileHeader, ProgramHeader};

/// The three bytes after the first four: `ELFCLASS32`, `ELFDATA2LSB` (little-endian) and `EV_CURRENT` (gABI, chapter 4, "ELF
/// Identification").
const IDENT_START: [u8; 3] = [1, 1, 1];

/// The place of the class, `EI_CLASS`, and the class of 64 bits (gABI, chapter 4, "ELF Identification").
const EI_CLASS: usize = 4;

const ELFCLASS64: u8 = 2;

/// The place of the byte order, `EI_DATA`, and the order most significant byte first (gABI, chapter 4, "ELF Identification").
const EI_DATA: usize = 5;

const ELFDATA2MSB: u8 = 2;

/// Other kinds of files, in `e_type` (gABI, chapter 4, "ELF Header").
const ET_REL: u16 = 1;

const ET_DYN: u16 = 3;

/// Bits of RISC-V's `e_flags` (psABI, "ELF Object Files", "File Header").
const EF_RISCV_RVC: u32 = 1;

const EF_RISCV_FLOAT_ABI: u32 = 6;

const EF_RISCV_RVE: u32 = 8;

const EF_RISCV_TSO: u32 = 16;

/// Other kinds of program headers, in `p_type` (gABI, chapter 5, "Program Header"; the GNU extensions of the Linux Standard Base;
/// psABI, "ELF Object Files", "Program Header Table").
const PT_NULL: u32 = 0;

const PT_DYNAMIC: u32 = 2;

const PT_INTERP: u32 = 3;

const PT_NOTE: u32 = 4;

const PT_PHDR: u32 = 6;

const PT_TLS: u32 = 7;

const PT_GNU_EH_FRAME: u32 = 0x6474_e550;

const PT_GNU_STACK: u32 = 0x6474_e551;

const PT_GNU_RELRO: u32 = 0x6474_e552;

const PT_GNU_PROPERTY: u32 = 0x6474_e553;

const PT_RISCV_ATTRIBUTES: u32 = 0x7000_0003;

/// The longest linked file that is read.
pub const MOST_LINKED_BYTES: usize = 67_108_864;

#[tactic(auto, unfolding(crate::specs::LinkChecks::lacks_ident))]
fn lacks_ident(file: &[u8]) -> bool
    requires { 4 ≤ length file.now }
    ensures { result ≡ lacks_ident file.now }
{
    !file[4..].starts_with(&IDENT_START)
}

/// The first fault of a file's identification and length.
#[tactic(auto, unfolding(crate::specs::LinkChecks::ident_fault))]
fn ident_fault(file: &[u8]) -> Option<LinkFault>
    ensures value { result ≡ ident_fault file.now }
    ensures long { IfNone result (52 ≤ length file.now) }
{
    if lacks_magic(file) {
        Some(LinkFault::NotElf)
    } else if MOST_LINKED_BYTES < file.len() {
        Some(LinkFault::TooLong)
    } else if file.len() < FILE_HEADER {
        Some(LinkFault::Short)
    } else if file[EI_CLASS] == ELFCLASS64 {
        Some(LinkFault::Bits64)
    } else if file[EI_DATA] == ELFDATA2MSB {
        Some(LinkFault::BigEndian)
    } else if lacks_ident(file) {
        Some(LinkFault::Unidentified)
    } else {
        None
    }
}

/// The first fault of a file's machine and kind.
#[tactic(auto, unfolding(crate::specs::LinkChecks::kind_fault))]
fn kind_fault(h: &FileHeader) -> Option<LinkFault>
    ensures { result ≡ kind_fault h.now }
{
    if h.e_machine != EM_RISCV {
        Some(LinkFault::Machine(h.e_machine))
    } else if h.e_type == ET_REL {
        Some(LinkFault::Relocatable)
    } else if h.e_type == ET_DYN {
        Some(LinkFault::SharedObject)
    } else if h.e_type != ET_EXEC || h.e_version != EV_CURRENT {
        Some(LinkFault::NotExecutable)
    } else {
        None
    }
}

/// The first fault of a file's flags.
#[tactic(auto, unfolding(crate::specs::LinkChecks::flags_fault))]
fn flags_fault(flags: u32) -> Option<LinkFault>
    ensures { result ≡ flags_fault flags }
{
    if flags & EF_RISCV_RVC != 0 {
        Some(LinkFault::Compressed)
    } else if flags & EF_RISCV_FLOAT_ABI != 0 {
        Some(LinkFault::FloatRegisters)
    } else if flags & EF_RISCV_RVE != 0 {
        Some(LinkFault::FewRegisters)
    } else if flags != 0 && flags != EF_RISCV_TSO {
        Some(LinkFault::UnknownFlags(flags))
    } else {
        None
    }
}

/// Whether the program headers pass the end of a file of this length.
#[tactic(auto, unfolding(crate::specs::LinkChecks::is_past_file))]
fn is_past_file(end: usize, h: &FileHeader) -> bool
    ensures { result ≡ is_past_file end h.now }
{
    (end as u64) < u64::from(h.e_phoff) + PROGRAM_HEADER as u64 * u64::from(h.e_phnum)
}

/// The first fault of the place of the program headers.
#[tactic(auto, unfolding(crate::specs::LinkChecks::table_fault, crate::specs::LinkChecks::is_past_file))]
fn table_fault(end: usize, h: &FileHeader) -> Option<LinkFault>
    ensures value { result ≡ table_fault end h.now }
    ensures whole { IfNone result (h.now.e_phoff + 32 * h.now.e_phnum ≤ end) }
{
    if h.e_phnum != 0 && usize::from(h.e_phentsize) != PROGRAM_HEADER {
        Some(LinkFault::HeaderSize)
    } else if is_past_file(end, h) {
        Some(LinkFault::ShortTable)
    } else {
        None
    }
}

/// The first fault of the fields of a file header, in a file of this length.
#[tactic(auto, unfolding(crate::specs::LinkChecks::fields_fault))]
fn fields_fault(end: usize, h: &FileHeader) -> Option<LinkFault>
    ensures value { result ≡ fields_fault end h.now }
    ensures whole { IfNone result (h.now.e_phoff + 32 * h.now.e_phnum ≤ end) }
{
    if let Some(fault) = kind_fault(h) {
        return Some(fault);
    }
    if let Some(fault) = flags_fault(h.e_flags) {
        return Some(fault);
    }
    table_fault(end, h)
}

/// The first fault of the file header.
#[tactic(auto, unfolding(crate::specs::LinkChecks::header_fault))]
pub fn header_fault(file: &[u8]) -> Option<LinkFault>
    ensures value { result ≡ header_fault file.now }
    ensures long { IfNone result (52 ≤ length file.now) }
    ensures whole { IfNone result ((file_header file.now).e_phoff + 32 * (file_header file.now).e_phnum ≤ length file.now) }
{
    if let Some(fault) = ident_fault(file) {
        return Some(fault);
    }
    fields_fault(file.len(), &read_file_header(file))
}

#[tactic(auto, unfolding(crate::specs::LinkChecks::is_dynamic))]
fn is_dynamic(h: &ProgramHeader) -> bool
    ensures { result ≡ is_dynamic h.now }
{
    h.p_type == PT_DYNAMIC || h.p_type == PT_INTERP
}

/// Whether it asks for a stack that may be executed.
#[tactic(auto, unfolding(crate::specs::LinkChecks::wants_code_stack))]
fn wants_code_stack(h: &ProgramHeader) -> bool
    ensures { result ≡ wants_code_stack h.now }
{
    h.p_type == PT_GNU_STACK && h.p_flags & PF_X != 0
}

/// Whether it is of no known kind.
#[tactic(auto, unfolding(crate::specs::LinkChecks::is_unknown))]
fn is_unknown(h: &ProgramHeader) -> bool
    ensures { result ≡ is_unknown h.now }
{
    !(h.p_type == PT_NULL
        || h.p_type == PT_LOAD
        || h.p_type == PT_NOTE
        || h.p_type == PT_PHDR
        || h.p_type == PT_TLS
        || h.p_type == PT_GNU_EH_FRAME
        || h.p_type == PT_GNU_STACK
        || h.p_type == PT_GNU_RELRO
        || h.p_type == PT_GNU_PROPERTY
        || h.p_type == PT_RISCV_ATTRIBUTES)
}

fn any_dynamic(headers: &[ProgramHeader]) -> bool
    ensures { result ≡ list_any is_dynamic headers.now }
{
    headers.iter().any(|h| is_dynamic(h))
}

fn any_code_stack(headers: &[ProgramHeader]) -> bool
    ensures { result ≡ list_any wants_code_stack headers.now }
{
    headers.iter().any(|h| wants_code_stack(h))
}

/// The first header of no known kind.
fn first_unknown(headers: &[ProgramHeader]) -> Option<ProgramHeader>
    ensures { result ≡ find is_unknown headers.now }
{
    headers.iter().copied().find(|h| is_unknown(h))
}

/// The first fault of the kinds of program headers.
#[tactic(auto, unfolding(crate::specs::LinkChecks::kinds_fault))]
pub fn kinds_fault(headers: &[ProgramHeader]) -> Option<LinkFault>
    ensures { result ≡ kinds_fault headers.now }
{
    if any_dynamic(headers) {
        return Some(LinkFault::Dynamic);
    }
    if any_code_stack(headers) {
        return Some(LinkFault::ExecutableStack);
    }
    match first_unknown(headers) {
        Some(h) => Some(LinkFault::UnknownKind(h.p_type)),
        None => None,
    }
}

/// Whether they are none, or too many.
#[tactic(auto, unfolding(crate::specs::LinkChecks::count_fault))]
fn count_fault(headers: &[ProgramHeader]) -> Option<LinkFault>
    ensures value { result ≡ count_fault headers.now }
    ensures few { IfNone result (length headers.now ≤ 4) }
{
    if headers.is_empty() {
        Some(LinkFault::NoSegment)
    } else if MOST_SEGMENTS < headers.len() {
        Some(LinkFault::ManySegments(headers.len()))
    } else {
        None
    }
}

/// The first fault of one of them.
#[tactic(auto, unfolding(crate::specs::LinkChecks::each_fault))]
fn each_fault(end: usize, headers: &[ProgramHeader]) -> Option<LinkFault>
    ensures { result ≡ each_fault end headers.now }
{
    if any_bad_flags(headers) {
        Some(LinkFault::BadRights)
    } else if any_bad_size(headers) {
        Some(LinkFault::BadSize)
    } else if any_past_end(end, headers) {
        Some(LinkFault::PastEnd)
    } else if any_out_of_range(headers) {
        Some(LinkFault::OutOfRange)
    } else {
        None
    }
}

/// The first fault of all together, with this entry.
#[tactic(auto, unfolding(crate::specs::LinkChecks::whole_fault))]
fn whole_fault(entry: u32, headers: &[ProgramHeader]) -> Option<LinkFault>
    requires { length headers.now ≤ 4 }
    ensures { result ≡ whole_fault entry headers.now }
{
    let pages = page_total(headers);
    if has_overlap(headers) {
        Some(LinkFault::SharedPage)
    } else if MOST_PAGES < pages {
        Some(LinkFault::ManyPages(pages))
    } else if entry % 4 != 0 {
        Some(LinkFault::OddEntry)
    } else if !is_in_code(entry, headers) {
        Some(LinkFault::EntryOutside)
    } else {
        None
    }
}

/// The first fault of segments that take memory, in a file of this length with this entry.
#[tactic(auto, unfolding(crate::specs::LinkChecks::segments_fault))]
pub fn segments_fault(end: usize, entry: u32, headers: &[ProgramHeader]) -> Option<LinkFault>
    ensures { result ≡ segments_fault end entry headers.now }
{
    if let Some(fault) = count_fault(headers) {
        return Some(fault);
    }
    if let Some(fault) = each_fault(end, headers) {
        return Some(fault);
    }
    whole_fault(entry, headers)
}

fn any_bad_flags(headers: &[ProgramHeader]) -> bool
    ensures { result ≡ list_any has_bad_flags headers.now }
{
    headers.iter().any(|h| has_bad_flags(h))
}

//! Why a file is no image: which field of which header, with its value and what is wanted.
use crate::fields::{FILE_HEADER, PROGRAM_HEADER, faulty_field, value_at};
use crate::kind::{FileKind, KindText, kind_of};
use elf32::ElfFault;
use std::fmt;

/// How many bytes a file header has, and a program header.
const FILE_HEADER_SIZE: usize = 52;

const PROGRAM_HEADER_SIZE: usize = 32;

/// The bytes of a page.
const PAGE: u32 = 4096;

/// The lowest address of a segment, and where the addresses of segments end.
const LOWEST: u32 = 0x0001_0000;

const HIGHEST: u64 = 0x7fff_0000;

/// `e_type` and `e_machine` of an executable for RISC-V.
const EXECUTABLE_FOR_RISC_V: u32 = 0x00F3_0002;

/// A file of some name that is no image, and the first check that it fails. It prints as the reason.
#[derive(Clone, Copy)]
pub struct ImageReason<'a> {
    pub path: &'a str,
    pub file: &'a [u8],
    pub fault: ElfFault,
}

/// A program header: its number, from 1, and its bytes.
#[derive(Clone, Copy)]
struct Header<'a> {
    number: usize,
    bytes: &'a [u8],
}

impl Header<'_> {
    fn field(self, at: usize) -> u32 {
        value_at(self.bytes, at, 4).unwrap_or(0)
    }

    fn offset(self) -> u32 {
        self.field(4)
    }

    fn address(self) -> u32 {
        self.field(8)
    }

    fn file_size(self) -> u32 {
        self.field(16)
    }

    fn memory_size(self) -> u32 {
        self.field(20)
    }

    /// The address after its last byte.
    fn end(self) -> u64 {
        u64::from(self.address()) + u64::from(self.memory_size())
    }

    fn first_page(self) -> u64 {
        u64::from(self.address() / PAGE)
    }

    /// The page after its last one.
    fn end_page(self) -> u64 {
        self.end().div_ceil(u64::from(PAGE))
    }

    /// Writes what is wrong with it by a check, in a file of so many bytes, where the headers before take the pages below `free`. Whether
    /// anything is.
    fn write_wrong<W: fmt::Write>(
        self,
        f: &mut fmt::Formatter<W>,
        fault: ElfFault,
        count: usize,
        free: u64,
    ) -> Result<bool, fmt::Error> {
        let number = self.number;
        let (offset, address) = (self.offset(), self.address());
        let (in_file, in_memory) = (self.file_size(), self.memory_size());
        let last = u64::from(offset) + u64::from(in_file);
        let (end, page) = (self.end(), self.first_page());
        let field = faulty_field(&PROGRAM_HEADER, self.bytes);
        let written = match (fault, field) {
            (ElfFault::BadSegment, Some(field)) => write!(f, "program header {number}: {field}"),
            (ElfFault::BadSegment, None) if offset % PAGE != address % PAGE => write!(
                f,
                "program header {number}: p_offset is {offset:08x} and p_vaddr {address:08x}, where both have to have one place in their pages"
            ),
            (ElfFault::BadSize, _) if in_file > in_memory => write!(
                f,
                "program header {number}: p_filesz is {in_file}, where p_memsz, {in_memory}, is the most"
            ),
            (ElfFault::PastEnd, _) if last > count as u64 => write!(
                f,
                "program header {number}: p_offset + p_filesz is {last}, where the file has {count} bytes"
            ),
            (ElfFault::BadRange, _) if address < LOWEST => write!(
                f,
                "program header {number}: p_vaddr is {address:08x}, where {LOWEST:08x} is the least"
            ),
            (ElfFault::BadRange, _) if end > HIGHEST => write!(
                f,
                "program header {number}: p_vaddr + p_memsz is {end:08x}, where {HIGHEST:08x} is the most"
            ),
            (ElfFault::Overlap, _) if page < free => {
                let last = free.saturating_sub(1);
                write!(
                    f,
                    "program header {number}: p_vaddr lies in page {page:x}, where those before take pages up to {last:x}"
                )
            }
            _ => return Ok(false),
        };
        written?;
        Ok(true)
    }
}

impl ImageReason<'_> {
    /// Writes the reason of a file that does not begin as an image does.
    fn write_beginning<W: fmt::Write>(&self, f: &mut fmt::Formatter<W>) -> fmt::Result {
        let (path, kind) = (self.path, kind_of(self.file));
        if kind.is_text() && !path.is_empty() {
            return write!(f, "{}", KindText { kind, path });
        }
        let count = self.file.len();
        if count < FILE_HEADER_SIZE {
            return write!(f, "it has {count} bytes, where 52 are a header alone");
        }
        f.write_str("it begins with the bytes")?;
        for byte in self.file.iter().take(4) {
            write!(f, " {byte:02x}")?;
        }
        f.write_str(", where 7f 45 4c 46 are wanted")
    }

    /// Whether it is an executable of 32 bits for RISC-V, as linkers write it.
    fn is_linked(&self) -> bool {
        value_at(self.file, 4, 1) == Some(1)
            && value_at(self.file, 16, 4) == Some(EXECUTABLE_FOR_RISC_V)
            && kind_of(self.file) == FileKind::Executable
    }

    fn write_file_header<W: fmt::Write>(&self, f: &mut fmt::Formatter<W>) -> fmt::Result {
        let Some(field) = faulty_field(&FILE_HEADER, self.file) else {
            return f.write_str("its header is faulty");
        };
        write!(f, "{field}")?;
        if self.is_linked() {
            let (path, kind) = (self.path, FileKind::Executable);
            write!(f, "; {}", KindText { kind, path })?;
        }
        Ok(())
    }

    fn write_entry<W: fmt::Write>(&self, f: &mut fmt::Formatter<W>) -> fmt::Result {
        let entry = value_at(self.file, 24, 4).unwrap_or(0);
        let wanted = if entry % 4 != 0 {
            "a multiple of 4"
        } else {
            "an address in a segment that may be executed"
        };
        write!(f, "e_entry is {entry:08x}, where {wanted} is wanted")
    }

    /// How many program headers the file header says there are.
    fn header_count(&self) -> usize {
        value_at(self.file, 44, 2).unwrap_or(0) as usize
    }

    /// Writes the reason of the first program header that fails the check, or of all together.
    fn write_table<W: fmt::Write>(&self, f: &mut fmt::Formatter<W>) -> fmt::Result {
        let table = self.file.get(FILE_HEADER_SIZE..).unwrap_or(&[]);
        let (mut number, mut free, mut pages) = (0usize, 0u64, 0u64);
        for bytes in table
            .chunks_exact(PROGRAM_HEADER_SIZE)
            .take(self.header_count())
        {
            number = number.saturating_add(1);
            let header = Header { number, bytes };
            if header.write_wrong(f, self.fault, self.file.len(), free)? {
                return Ok(());
            }
            free = header.end_page();
            pages = pages.saturating_add(free.saturating_sub(header.first_page()));
        }
        match self.fault {
            ElfFault::BadRange => write!(
                f,
                "its segments have {pages} pages of 4096 bytes, where 60 are the most"
            ),
            fault => write!(f, "{fault}"),
        }
    }
}

impl fmt::Display for ImageReason<'_> {
    fn fmt<W: fmt::Write>(&self, f: &mut fmt::Formatter<W>) -> fmt::Result {
        match self.fault {
            ElfFault::Short | ElfFault::BadMagic => self.write_beginning(f),
            ElfFault::BadIdent | ElfFault::BadKind | ElfFault::BadHeader => {
                self.write_file_header(f)
            }
            ElfFault::ShortTable => {
                let (have, count) = (self.file.len(), self.header_count());
                let end = count
                    .saturating_mul(PROGRAM_HEADER_SIZE)
                    .saturating_add(FILE_HEADER_SIZE);
                write!(
                    f,
                    "it has {have} bytes, where {count} program headers end after {end}"
                )
            }
            ElfFault::BadEntry => self.write_entry(f),
            _ => self.write_table(f),
        }
    }
}

//! The headers of an ELF32 file: their constants and how they are read. The source is the System V ABI (gABI, chapters 4 and 5) and
//! the RISC-V ABIs Specification (psABI, "ELF Object Files").
ghost use Rattle.std.specs.Prelude.{◌≡◌, ◌+◌, ◌*◌, ◌≤◌, length, take, drop};
ghost use Rattle.image_model.specs.Fields.{half_at, word_at, file_header, program_header, headers_in};
ghost use Rattle.image_model.specs.Checks.{may_read, may_write, may_execute};

use byteorder::{ByteOrder, LittleEndian};
use image_model::{FileHeader, ProgramHeader};

/// The first four bytes of a file, `EI_MAG0` to `EI_MAG3`: 7F and the letters ELF (gABI, chapter 4, "ELF Identification").
pub const MAGIC: [u8; 4] = [0x7f, 0x45, 0x4c, 0x46];

/// The twelve bytes after them (gABI, chapter 4, "ELF Identification"). They are `ELFCLASS32` (1), `ELFDATA2LSB` (1,
/// little-endian), `EV_CURRENT` (1), `ELFOSABI_NONE` (0) with its version 0, and seven zeros.
pub const IDENT: [u8; 12] = [1, 1, 1, 0, 0, 0, 0, 0, 0, 0, 0, 0];

/// How many bytes a file header has (`Elf32_Ehdr`; gABI, chapter 4, "ELF Header").
pub const FILE_HEADER: usize = 52;

/// How many bytes a program header has (`Elf32_Phdr`; gABI, chapter 5, "Program Header").
pub const PROGRAM_HEADER: usize = 32;

/// How many segments an image may have. This limit is bench's own.
pub const MOST_SEGMENTS: usize = 4;

/// The bytes of a page. Each segment has this alignment in `p_align` (gABI, chapter 5, "Program Header").
pub const PAGE: u32 = 4096;

/// The type of an executable file, in `e_type` (gABI, chapter 4, "ELF Header").
pub const ET_EXEC: u16 = 2;

/// The machine RISC-V, in `e_machine` (psABI, "ELF Object Files", "File Header").
pub const EM_RISCV: u16 = 243;

/// The version of a file, in `e_version` (gABI, chapter 4, "ELF Header").
pub const EV_CURRENT: u32 = 1;

/// The type of a segment that is loaded, in `p_type` (gABI, chapter 5, "Program Header").
pub const PT_LOAD: u32 = 1;

/// The bit in `p_flags` of a segment that may be executed (gABI, chapter 5, "Segment Permissions").
pub const PF_X: u32 = 1;

/// The bit in `p_flags` of a segment that may be written (gABI, chapter 5, "Segment Permissions").
pub const PF_W: u32 = 2;

/// The bit in `p_flags` of a segment that may be read (gABI, chapter 5, "Segment Permissions").
pub const PF_R: u32 = 4;

/// The half word at a place, little-endian.
fn half(bytes: &[u8], at: usize) -> u16
    requires { at + 2 ≤ length bytes.now }
    ensures { result ≡ half_at bytes.now at }
{
    LittleEndian::read_u16(&bytes[at..])
}

/// The word at a place, little-endian.
fn word(bytes: &[u8], at: usize) -> u32
    requires { at + 4 ≤ length bytes.now }
    ensures { result ≡ word_at bytes.now at }
{
    LittleEndian::read_u32(&bytes[at..])
}

/// The header of a file: the fields after its identification.
#[tactic(auto, unfolding(image_model::specs::Fields::file_header))]
pub fn read_file_header(file: &[u8]) -> FileHeader
    requires { 52 ≤ length file.now }
    ensures { result ≡ file_header file.now }
{
    FileHeader {
        e_type: half(file, 16),
        e_machine: half(file, 18),
        e_version: word(file, 20),
        e_entry: word(file, 24),
        e_phoff: word(file, 28),
        e_shoff: word(file, 32),
        e_flags: word(file, 36),
        e_ehsize: half(file, 40),
        e_phentsize: half(file, 42),
        e_phnum: half(file, 44),
        e_shentsize: half(file, 46),
        e_shnum: half(file, 48),
        e_shstrndx: half(file, 50),
    }
}

/// The program header with which these bytes begin.
#[tactic(auto, unfolding(image_model::specs::Fields::program_header))]
pub fn read_program_header(bytes: &[u8]) -> ProgramHeader
    requires { 32 ≤ length bytes.now }
    ensures { result ≡ program_header bytes.now }
{
    ProgramHeader {
        p_type: word(bytes, 0),
        p_offset: word(bytes, 4),
        p_vaddr: word(bytes, 8),
        p_paddr: word(bytes, 12),
        p_filesz: word(bytes, 16),
        p_memsz: word(bytes, 20),
        p_flags: word(bytes, 24),
        p_align: word(bytes, 28),
    }
}

/// Whether the segment may be executed.
#[tactic(auto, unfolding(image_model::specs::Checks::may_execute))]
pub fn may_execute(h: &ProgramHeader) -> bool
    ensures { result ≡ may_execute h.now }
{
    h.p_flags & PF_X != 0
}

/// Whether the segment may be written.
#[tactic(auto, unfolding(image_model::specs::Checks::may_write))]
pub fn may_write(h: &ProgramHeader) -> bool
    ensures { result ≡ may_write h.now }
{
    h.p_flags & PF_W != 0
}

/// Whether the segment may be read.
#[tactic(auto, unfolding(image_model::specs::Checks::may_read))]
pub fn may_read(h: &ProgramHeader) -> bool
    ensures { result ≡ may_read h.now }
{
    h.p_flags & PF_R != 0
}

/// The program headers, so many of them, with which these bytes begin.
pub fn read_table(bytes: &[u8], count: usize) -> [ProgramHeader; 4]
    requires few { count ≤ 4 }
    requires whole { 32 * count ≤ length bytes.now }
    ensures size { length result ≡ 4 }
    ensures headers { take count result ≡ headers_in count bytes.now }
{
    let mut headers = [ProgramHeader::default(); MOST_SEGMENTS];
    for k in 0..count {
        headers[k] = read_program_header(&bytes[PROGRAM_HEADER * k..]);
    }
    headers
}

//! Why a linked file is refused.
ghost use Rattle.std.specs.Prelude.{◌≡◌};
ghost use Rattle.elf32.specs.declared.link_fault.LinkFault.TheVariants.{OutOfMemory};

use std::alloc::{AllocError, AllocFailed};
use std::fmt;
use thiserror::Error;

/// Why a linked file is refused: the first check that fails, in this order. `OutOfMemory` may come of any file. The text of a fault
/// says what is there, and what is wanted.
#[derive(Clone, Copy, Debug, PartialEq, Eq, Error)]
pub enum LinkFault {
    /// The first four bytes are not 7F and the letters ELF.
    NotElf,
    /// More than 67,108,864 bytes (64 MiB).
    TooLong,
    /// Fewer bytes than a file header has, 52.
    Short,
    /// `ELFCLASS64`.
    Bits64,
    /// `ELFDATA2MSB`.
    BigEndian,
    /// No known class, byte order or version.
    Unidentified,
    /// Another machine than RISC-V, by its number in `e_machine`.
    Machine(u16),
    /// An object file, `ET_REL`.
    Relocatable,
    /// A shared object or a position-independent executable, `ET_DYN`.
    SharedObject,
    /// Another `e_type` than `ET_EXEC`, or another `e_version` than 1.
    NotExecutable,
    /// Compressed instructions, `EF_RISCV_RVC`.
    Compressed,
    /// Numbers in floating-point registers, `EF_RISCV_FLOAT_ABI`.
    FloatRegisters,
    /// Sixteen registers, `EF_RISCV_RVE`.
    FewRegisters,
    /// Other bits of `e_flags`, which are given whole.
    UnknownFlags(u32),
    /// Program headers of another size than 32 bytes.
    HeaderSize,
    /// Program headers past the end of the file.
    ShortTable,
    /// A dynamic section or an interpreter, `PT_DYNAMIC` or `PT_INTERP`.
    Dynamic,
    /// A stack that may be executed, by the flags of `PT_GNU_STACK`.
    ExecutableStack,
    /// A program header of an unknown kind, by its `p_type`.
    UnknownKind(u32),
    /// No segment takes memory.
    NoSegment,
    /// So many segments take memory, and an image has at most 4.
    ManySegments(usize),
    /// A segment with no right, or with an unknown one.
    BadRights,
    /// A segment with more bytes in the file than in memory.
    BadSize,
    /// A segment whose bytes pass the file's end.
    PastEnd,
    /// A segment below 0x00010000 or past 0x7FFF0000.
    OutOfRange,
    /// A segment that does not begin on a page above those of the one before.
    SharedPage,
    /// So many pages, and an image has at most 60.
    ManyPages(u64),
    /// An entry that is no multiple of 4.
    OddEntry,
    /// An entry in no segment that may be executed.
    EntryOutside,
    OutOfMemory,
}

/// The text of a fault of the file header.
fn header_text(fault: &LinkFault) -> &'static str {
    match fault {
        LinkFault::NotElf => "it is no ELF file",
        LinkFault::TooLong => "it has more than 64 MiB",
        LinkFault::Short => "its file header is cut short",
        LinkFault::Bits64 => "it is for 64 bits, not for 32",
        LinkFault::BigEndian => "it is big-endian, not little-endian",
        LinkFault::Unidentified => "its class, byte order or version is unknown",
        LinkFault::Relocatable => "it is an object file, whose relocations are left: link it",
        LinkFault::SharedObject =>
            "it is a shared object or position-independent: link it with -static -no-pie",
        LinkFault::NotExecutable => "it is no executable file of version 1",
        LinkFault::Compressed => "it has compressed code: build it with -march=rv32im",
        LinkFault::FloatRegisters =>
            "it passes numbers in floating-point registers: build it with -mabi=ilp32",
        LinkFault::FewRegisters => "it is for 16 registers (RVE): build it with -mabi=ilp32",
        LinkFault::HeaderSize => "its program headers have not 32 bytes",
        LinkFault::ShortTable => "its program headers pass the end of the file",
        LinkFault::OutOfMemory => "out of memory",
        other => segment_text(other),
    }
}

/// The text of a fault of the program headers.
fn segment_text(fault: &LinkFault) -> &'static str {
    match fault {
        LinkFault::Dynamic => "it is linked dynamically: link it with -static",
        LinkFault::ExecutableStack => "it wants a stack that may be executed",
        LinkFault::NoSegment => "no segment takes memory",
        LinkFault::BadRights => "a segment has no right, or an unknown one",
        LinkFault::BadSize => "a segment has more bytes in the file than in memory",
        LinkFault::PastEnd => "the bytes of a segment pass the end of the file",
        LinkFault::OutOfRange => "a segment is not within 00010000 and 7fff0000",
        LinkFault::SharedPage => "two segments share a page, overlap, or do not ascend",
        LinkFault::OddEntry => "its entry is no multiple of 4",
        _ => "its entry is in no segment that may be executed",
    }
}

impl fmt::Display for LinkFault {
    fn fmt<W: fmt::Write>(&self, f: &mut fmt::Formatter<W>) -> fmt::Result {
        match self {
            LinkFault::Machine(number) => write!(
                f,
                "it is for machine {number}, not for RISC-V (243)"
            ),
            LinkFault::UnknownFlags(flags) => write!(f, "its flags {flags:08x} are unknown"),
            LinkFault::UnknownKind(kind) => write!(
                f,
                "a program header has the unknown type {kind:08x}"
            ),
            LinkFault::ManySegments(count) => write!(f, "it has {count} segments, and 4 fit"),
            LinkFault::ManyPages(count) => write!(f, "it has {count} pages, and 60 fit"),
            other => f.write_str(header_text(other)),
        }
    }
}

impl From<AllocError> for LinkFault {
    ghost from_gives = { λ _ e. e ≡ OutOfMemory };

    fn from(_error: AllocError) -> LinkFault {
        LinkFault::OutOfMemory
    }
}

impl<T: Drop> From<AllocFailed<T>> for LinkFault {
    ghost from_gives = { λ _ e. e ≡ OutOfMemory };

    fn from(_error: AllocFailed<T>) -> LinkFault {
        LinkFault::OutOfMemory
    }
}

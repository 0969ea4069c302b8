//! The fields of an image's headers, each with what is wanted of it.
use std::fmt;

/// A field that has to lie in a range, whatever the others are: its name, where it begins in its header, how many bytes it has, the least
/// and the greatest value, and what the wanted number stands for, which is empty where it is a number alone.
pub type Field = (&'static str, usize, usize, u32, u32, &'static str);

/// The fields of a file header, in the order in which they are tested.
pub static FILE_HEADER: [Field; 19] = [
    ("EI_CLASS", 4, 1, 1, 1, "32 bits"),
    ("EI_DATA", 5, 1, 1, 1, "little-endian"),
    ("EI_VERSION", 6, 1, 1, 1, ""),
    ("EI_OSABI", 7, 1, 0, 0, ""),
    ("EI_ABIVERSION", 8, 1, 0, 0, ""),
    ("EI_PAD", 9, 4, 0, 0, ""),
    ("EI_PAD", 13, 3, 0, 0, ""),
    ("e_type", 16, 2, 2, 2, "an executable file"),
    ("e_machine", 18, 2, 243, 243, "RISC-V"),
    ("e_version", 20, 4, 1, 1, ""),
    (
        "e_phoff",
        28,
        4,
        52,
        52,
        "program headers directly after the header",
    ),
    ("e_ehsize", 40, 2, 52, 52, ""),
    ("e_phentsize", 42, 2, 32, 32, ""),
    ("e_phnum", 44, 2, 1, 4, "program headers"),
    ("e_shoff", 32, 4, 0, 0, "no sections"),
    (
        "e_flags",
        36,
        4,
        0,
        0,
        "no compressed instructions and no floating point",
    ),
    ("e_shentsize", 46, 2, 0, 0, "no sections"),
    ("e_shnum", 48, 2, 0, 0, "no sections"),
    ("e_shstrndx", 50, 2, 0, 0, "no sections"),
];

/// The fields of a program header that are tested alone.
pub static PROGRAM_HEADER: [Field; 4] = [
    ("p_type", 0, 4, 1, 1, "a segment that is loaded"),
    ("p_align", 28, 4, 4096, 4096, "a page"),
    (
        "p_flags",
        24,
        4,
        1,
        7,
        "rights to execute, write and read as 1, 2 and 4",
    ),
    ("p_memsz", 20, 4, 1, u32::MAX, ""),
];

/// A field whose value is not the wanted one.
#[derive(Clone, Copy)]
pub struct FaultyField {
    field: Field,
    value: u32,
}

/// The bytes of a field, little-endian. None where the bytes end before it.
pub fn value_at(bytes: &[u8], at: usize, size: usize) -> Option<u32> {
    let mut value = 0u32;
    for byte in bytes.get(at..)?.get(..size)?.iter().rev() {
        value = value.wrapping_mul(256).wrapping_add(u32::from(*byte));
    }
    Some(value)
}

/// The first of some fields that is faulty in a header.
pub fn faulty_field(fields: &[Field], header: &[u8]) -> Option<FaultyField> {
    for field in fields {
        let (_, at, size, least, most, _) = *field;
        let value = value_at(header, at, size)?;
        if value < least || value > most {
            let field = *field;
            return Some(FaultyField { field, value });
        }
    }
    None
}

impl fmt::Display for FaultyField {
    fn fmt<W: fmt::Write>(&self, f: &mut fmt::Formatter<W>) -> fmt::Result {
        let value = self.value;
        let (name, _, _, least, most, meaning) = self.field;
        write!(f, "{name} is {value}, where {least}")?;
        if most > least {
            write!(f, " to {most}")?;
        }
        f.write_str(" is wanted")?;
        if !meaning.is_empty() {
            write!(f, ", {meaning}")?;
        }
        Ok(())
    }
}

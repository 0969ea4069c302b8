//! The headers of an ELF32 file, as the System V ABI (gABI, chapters 4 and 5) and the RISC-V ABIs Specification (psABI, "ELF Object
//! Files") have them. Sizes, offsets and addresses are in bytes. Numbers are little-endian in the file, in the two or four bytes of
//! their type.

/// The fields of a file header after its identification (`Elf32_Ehdr`; gABI, chapter 4, "ELF Header"). The psABI ("ELF Object
/// Files", "File Header") gives the bits of `e_flags` for RISC-V. 0 means no compressed instructions, and floating-point numbers
/// passed in integer registers.
#[derive(Clone, Copy)]
pub struct FileHeader {
    pub e_type: u16,
    pub e_machine: u16,
    pub e_version: u32,
    pub e_entry: u32,
    pub e_phoff: u32,
    pub e_shoff: u32,
    pub e_flags: u32,
    pub e_ehsize: u16,
    pub e_phentsize: u16,
    pub e_phnum: u16,
    pub e_shentsize: u16,
    pub e_shnum: u16,
    pub e_shstrndx: u16,
}

/// The fields of a program header (`Elf32_Phdr`; gABI, chapter 5, "Program Header").
#[derive(Clone, Copy, Default)]
pub struct ProgramHeader {
    pub p_type: u32,
    pub p_offset: u32,
    pub p_vaddr: u32,
    pub p_paddr: u32,
    pub p_filesz: u32,
    pub p_memsz: u32,
    pub p_flags: u32,
    pub p_align: u32,
}

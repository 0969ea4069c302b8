//! The sections of an ELF file, and the file.
use crate::numbers::{length_of, put_half, put_text, put_word};
use std::alloc::{AllocError, Global};

/// The bytes of the file's header.
const FILE_HEADER: u32 = 52;

const SECTION_HEADER: u16 = 40;

/// ELF, 32 bits, little-endian, version 1.
const IDENT: [u8; 16] = [0x7f, b'E', b'L', b'F', 1, 1, 1, 0, 0, 0, 0, 0, 0, 0, 0, 0];

const EXECUTABLE: u16 = 2;

const RISCV: u16 = 243;

/// A section's kinds.
pub const PROGRAM: u32 = 1;

pub const SYMBOLS: u32 = 2;

pub const STRINGS: u32 = 3;

/// A section's flags: it is there at run time, and may be written or executed.
pub const EXECUTED: u32 = 6;

pub const WRITTEN: u32 = 3;

/// What a section's header says beside its place and its length.
#[derive(Clone, Copy)]
pub struct Header {
    pub name: &'static str,
    pub kind: u32,
    pub flags: u32,
    pub address: u32,
    /// The section of names, of a table of symbols.
    pub link: u32,
    /// The first symbol that is not local, of such a table.
    pub info: u32,
    pub align: u32,
    /// The bytes of an entry.
    pub entry: u32,
}

impl Header {
    /// That of a section of which no address and no entries are told.
    pub fn plain(name: &'static str, kind: u32) -> Header {
        Header {
            name,
            kind,
            flags: 0,
            address: 0,
            link: 0,
            info: 0,
            align: 1,
            entry: 0,
        }
    }
}

/// Sections so far: their bytes, their headers and their names.
pub struct Sections {
    bytes: Vec<u8>,
    headers: Vec<u8>,
    names: Vec<u8>,
    count: u16,
}

impl Drop for Sections {
    fn drop(self) {
        let Sections {
            bytes: _bytes,
            headers: _headers,
            names: _names,
            count: _,
        } = self;
    }
}

impl Sections {
    /// The first section, which is none.
    pub fn new(alloc: Global) -> Result<Sections, AllocError> {
        let mut headers = Vec::new(alloc);
        headers.extend_from_slice(&[0; 40])?;
        let mut names = Vec::new(alloc);
        names.push(0)?;
        Ok(Sections {
            bytes: Vec::new(alloc),
            headers,
            names,
            count: 1,
        })
    }

    fn put_header(&mut self, header: &Header, length: u32) -> Result<(), AllocError> {
        let offset = FILE_HEADER.saturating_add(length_of(self.bytes.len()));
        let words = [
            length_of(self.names.len()),
            header.kind,
            header.flags,
            header.address,
            offset,
            length,
            header.link,
            header.info,
            header.align,
            header.entry,
        ];
        for word in words {
            put_word(&mut self.headers, word)?;
        }
        put_text(&mut self.names, header.name.as_bytes())
    }

    /// Adds a section. Each begins at a multiple of four.
    pub fn put(&mut self, header: &Header, bytes: &[u8]) -> Result<(), AllocError> {
        self.put_header(header, length_of(bytes.len()))?;
        self.bytes.extend_from_slice(bytes)?;
        for _ in 0..3 {
            if self.bytes.len() % 4 != 0 {
                self.bytes.push(0)?;
            }
        }
        self.count = self.count.saturating_add(1);
        Ok(())
    }

    /// Adds the names of all sections, with their own.
    fn put_names(&mut self, alloc: Global) -> Result<(), AllocError> {
        let header = Header::plain(".shstrtab", STRINGS);
        let mut names = Vec::new(alloc);
        names.extend_from_slice(&self.names)?;
        put_text(&mut names, header.name.as_bytes())?;
        self.put(&header, &names)
    }

    fn put_file_header(&self, out: &mut Vec<u8>, entry: u32) -> Result<(), AllocError> {
        out.extend_from_slice(&IDENT)?;
        put_half(out, EXECUTABLE)?;
        put_half(out, RISCV)?;
        // Version, entry, no program headers, the section headers after all sections, no flags.
        let headers = FILE_HEADER.saturating_add(length_of(self.bytes.len()));
        for word in [1, entry, 0, headers, 0] {
            put_word(out, word)?;
        }
        // The headers' sizes and numbers, and last the section of names.
        for half in [
            52,
            32,
            0,
            SECTION_HEADER,
            self.count,
            self.count.saturating_sub(1),
        ] {
            put_half(out, half)?;
        }
        Ok(())
    }

    /// The file of these sections, of a program that begins here.
    pub fn into_file(mut self, alloc: Global, entry: u32) -> Result<Vec<u8>, AllocError> {
        self.put_names(alloc)?;
        let mut file = Vec::new(alloc);
        self.put_file_header(&mut file, entry)?;
        file.extend_from_slice(&self.bytes)?;
        file.extend_from_slice(&self.headers)?;
        Ok(file)
    }
}

//! Makes programs of one segment.
use anyhow::{Error, bail};
use byte_list::Bytes;
use machine::{Image, Segment};
use machine_model::Rights;
use std::alloc::Global;

/// The program of words at an address. It may be read and executed, and written if `write`. It begins with its first word.
pub fn program_of(alloc: Global, at: u32, words: &[u32], write: bool) -> Result<Image, Error> {
    let mut bytes = Vec::new(alloc);
    for word in words {
        bytes.extend_from_slice(&word.to_le_bytes())?;
    }
    if bytes.is_empty() || bytes.len() > 4096 || at % 4 != 0 || at < 0x1_0000 || at > 0x2_0000 {
        bail!("a program that may not be loaded");
    }
    let segment = Segment {
        vaddr: at,
        memsz: bytes.len() as u32,
        rights: Rights {
            read: true,
            write,
            execute: true,
        },
        bytes: Bytes::new(bytes),
    };
    let segments = vec![in alloc; segment]?;
    Ok(Image::new(at, segments))
}

//! Digests that tell disks, promises and windows apart: SHA-256, in hexadecimal digits.
use crash_lists::Window;
use files::FileList;
use sha2::{Digest, Sha256};
use std::alloc::{AllocError, Global};

fn add_number(hasher: &mut Sha256, number: u64) {
    hasher.update(number.to_be_bytes().as_slice());
}

/// Adds a text, with how many bytes it has.
fn add_text(hasher: &mut Sha256, text: &[u8]) {
    add_number(hasher, text.len() as u64);
    hasher.update(text);
}

fn digits_of(alloc: Global, hasher: Sha256) -> Result<String, AllocError> {
    let digest = hasher.finalize();
    hex::encode(alloc, digest.as_slice())
}

/// The digest of texts of bytes, in their order, each with how many they are.
pub fn digest_of(alloc: Global, texts: &[&[u8]]) -> Result<String, AllocError> {
    let mut hasher = Sha256::new();
    for text in texts {
        add_text(&mut hasher, text);
    }
    digits_of(alloc, hasher)
}

/// The digest of a window: of the files at each moment, each with its number.
pub fn digest_of_window(alloc: Global, window: &Window) -> Result<String, AllocError> {
    let mut hasher = Sha256::new();
    for moment in 0..window.moments() {
        if let Some(files) = window.files_at(moment) {
            add_number(&mut hasher, files.count() as u64);
            for place in 0..files.count() {
                add_number(&mut hasher, files.number(place));
                add_text(&mut hasher, files.name(place));
                add_text(&mut hasher, files.bytes(place));
            }
        }
    }
    digits_of(alloc, hasher)
}

/// The digest of files: of their names and bytes, in the order of names, since no call tells another order.
pub fn digest_of_files(alloc: Global, files: &FileList) -> Result<String, AllocError> {
    let mut named: Vec<(&[u8], &[u8])> = Vec::with_capacity(alloc, files.count())?;
    for place in 0..files.count() {
        named.push((files.name(place), files.bytes(place)))?;
    }
    named.sort_unstable();
    let mut texts: Vec<&[u8]> = Vec::new(alloc);
    for (name, bytes) in named {
        texts.push(name)?;
        texts.push(bytes)?;
    }
    digest_of(alloc, texts.as_slice())
}

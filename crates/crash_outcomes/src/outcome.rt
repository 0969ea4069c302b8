//! What a crash leaves, as one line: its outcome.
ghost use Rattle.std.specs.Prelude.{◌<◌, length};

use disk_model::{LONGEST_FILE, MOST_FILES};
use files::FileList;
use input_reading::printed_decimal;
use scripts::is_file_name;
use sha2::{Digest, Sha256};
use std::alloc::{AllocError, Global};

/// How many bytes of a digest a line has.
const DIGEST_BYTES: usize = 8;

/// The first bytes of the SHA-256 digest, in lowercase hexadecimal.
fn digest_text(alloc: Global, bytes: &[u8]) -> Result<String, AllocError> {
    let digest = Sha256::digest(bytes);
    hex::encode(alloc, &digest[..DIGEST_BYTES])
}

/// Appends a blank and the word of the file at a place.
fn push_file(
    alloc: Global,
    text: &mut String,
    files: &FileList,
    place: usize,
) -> Result<(), AllocError>
    requires { place < length files.now }
{
    let name = String::from_utf8_lossy(alloc, files.name(place))?;
    let length = files.length(place);
    let digest = digest_text(alloc, files.bytes(place))?;
    write!(text, " {name}:{length}:{digest}")
}

/// The outcome of a crash that leaves these files: `files`, and then NAME:LENGTH:DIGEST for each file, in order of creation, or `-`
/// where there is none. DIGEST is the first 16 digits of the SHA-256 digest of the file's bytes.
pub fn outcome_of(alloc: Global, files: &FileList) -> Result<String, AllocError> {
    let mut text = String::from_str(alloc, "files")?;
    if files.count() == 0 {
        text.push_str(" -")?;
    }
    for place in 0..files.count() {
        push_file(alloc, &mut text, files, place)?;
    }
    Ok(text)
}

/// Whether a word is a file's length as it is printed.
fn is_length(word: &str) -> bool {
    matches!(printed_decimal(word), Some(length) if length <= u64::from(LONGEST_FILE))
}

fn is_digest(word: &str) -> bool {
    word.len() == 2 * DIGEST_BYTES
        && word
            .bytes()
            .all(|byte| matches!(byte, b'0'..=b'9' | b'a'..=b'f'))
}

/// Whether a word is NAME:LENGTH:DIGEST. A name may have colons itself.
fn is_file(word: &str) -> bool {
    let Some((file, digest)) = word.rsplit_once(':') else {
        return false;
    };
    let Some((name, length)) = file.rsplit_once(':') else {
        return false;
    };
    is_file_name(name) && is_length(length) && is_digest(digest)
}

/// Whether words are as many files as there may be, and nothing else.
fn are_files(words: &str) -> bool {
    words.split(' ').count() <= MOST_FILES && words.split(' ').all(is_file)
}

/// Whether words are files as an outcome lists them, or `-`.
pub fn are_listed(words: &str) -> bool {
    words == "-" || are_files(words)
}

/// Whether a line has the form of an outcome, as `outcome_of` writes it.
pub fn is_outcome(line: &str) -> bool {
    match line.strip_prefix("files ") {
        Some(words) => are_listed(words),
        None => false,
    }
}

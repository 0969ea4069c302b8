//! The first bytes of a file.
use std::fs;
use std::io::{self, Read};
use std::rt::Files;

/// The most bytes of a tape.
pub const MOST_TAPE_BYTES: usize = 65536;

/// Reads on until there are so many bytes, or to the end of the file.
pub fn read_up_to<F: Read>(file: &mut F, bytes: &mut Vec<u8>, most: u64) -> io::Result<()> {
    let missing = most.saturating_sub(bytes.len() as u64);
    file.take(missing).read_to_end(bytes)?;
    Ok(())
}

/// The bytes of a file, but at most `most` + 1 of them: so a longer file shows, and is not read whole.
pub fn bytes_in<R: Files + AllocGlobal>(rt: &R, path: &str, most: usize) -> io::Result<Vec<u8>> {
    let mut file = fs::open(rt, path)?;
    let mut bytes = Vec::new(rt.alloc());
    read_up_to(&mut file, &mut bytes, (most as u64).saturating_add(1))?;
    Ok(bytes)
}

//! A writer that keeps the sum of what it writes.
use state_search::{Key, StateDigest};
use std::alloc::AllocError;
use std::io;
use std::io::Write;

/// Writes to `out`, and keeps the sum of all that went out.
pub struct Summed<'o, O> {
    out: &'o mut O,
    digest: StateDigest,
}

impl<O> Drop for Summed<'_, O> {
    fn drop(self) {
        let Summed {
            out: _,
            digest: _digest,
        } = self;
    }
}

impl<'o, O> Summed<'o, O> {
    pub fn new(out: &'o mut O) -> Summed<'o, O> {
        Summed {
            out,
            digest: StateDigest::new(),
        }
    }

    /// The sum of what was written so far: the first 128 bits of its SHA-256 digest.
    pub fn sum(&self) -> Result<Key, AllocError> {
        self.digest.key_so_far()
    }
}

impl<O: Write> Write for Summed<'_, O> {
    fn write(&mut self, buf: &[u8]) -> io::Result<usize> {
        let written = self.out.write(buf)?;
        self.digest.text(buf.get(..written).unwrap_or(buf));
        Ok(written)
    }

    fn flush(&mut self) -> io::Result<()> {
        self.out.flush()
    }
}

//! The tapes that a run is given.
ghost use Rattle.std.specs.Prelude.{◌≡◌, ◌<◌, ◌≤◌, true, length, IfOk};
ghost use Rattle.kernel_model.specs.World.{tape_count};

use byte_list::Bytes;
use input_reading::MOST_TAPE_BYTES;
use kernel_model::TAPES;
use std::alloc::{AllocError, Global};

/// A tape with what stands on it.
pub struct Tape {
    /// 0 to 7.
    pub number: u32,
    /// At most 65,536.
    pub bytes: Bytes,
    ghost there: { number < tape_count },
    ghost short: { length bytes ≤ 65536 },
}

impl Drop for Tape {
    fn drop(self) {
        let Tape {
            number: _,
            bytes: _bytes,
        } = self;
    }
}

/// Tapes in the order in which they were given, at most one of each number. The others are empty.
#[derive(Drop)]
pub struct TapeList {
    tapes: Vec<Tape>,
}

impl TapeList {
    pub fn new(alloc: Global) -> TapeList {
        TapeList {
            tapes: Vec::new(alloc),
        }
    }

    pub fn as_slice(&self) -> &[Tape] {
        self.tapes.as_slice()
    }

    fn numbered(&self, number: u32) -> Option<&Tape> {
        self.tapes.iter().find(|tape| tape.number == number)
    }

    /// Whether this tape may still be given: it has a number from 0 to 7, which no other tape has, and not too many bytes.
    fn takes(&self, number: u32, bytes: &[u8]) -> bool
        ensures { result ≡ true → (number < tape_count) × (length bytes.now ≤ 65536) }
    {
        number < TAPES as u32 && bytes.len() <= MOST_TAPE_BYTES && self.numbered(number).is_none()
    }

    /// Adds a tape. False where its number or its bytes are missing, where there is such a tape already, or where it is too long.
    pub fn push(&mut self, number: Option<u32>, bytes: Option<Bytes>) -> Result<bool, AllocError> {
        match (number, bytes) {
            (Some(number), Some(bytes)) if self.takes(number, bytes.as_slice()) => {
                self.tapes.push(Tape { number, bytes })?;
                Ok(true)
            }
            _ => Ok(false),
        }
    }

    /// What stands on the tape of this number.
    fn copy_of(&self, alloc: Global, number: u32) -> Result<Bytes, AllocError> {
        match self.numbered(number) {
            Some(tape) => tape.bytes.try_clone(alloc),
            None => Ok(Bytes::empty(alloc)),
        }
    }

    /// The eight tapes of a boot, by their numbers.
    pub fn all(&self, alloc: Global) -> Result<Vec<Bytes>, AllocError>
        ensures { IfOk result (λ tapes. length tapes.items ≡ tape_count) }
    {
        let mut tapes = Vec::new(alloc);
        for number in 0..TAPES as u32 {
            tapes.push(self.copy_of(alloc, number)?)?;
        }
        Ok(tapes)
    }
}

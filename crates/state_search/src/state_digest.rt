//! A digest that is fed number by number, or text by text.
ghost use Rattle.std.specs.Prelude.{◌≡◌, ◌∷◌, [], if◌then◌else◌, List, ℕ, IfOk};
ghost use Rattle.state_search.specs.Digests.{Fed, IsOf, key_in, number_bytes, option_bytes, sum_bytes, text_bytes, word_bytes};

use crate::key::Key;
use byteorder::{BigEndian, ByteOrder};
use sha2::{Digest, Sha256};
use std::alloc::AllocError;

/// The byte before a number that is not less.
const LONG: u8 = 255;

/// A digest of numbers and lists of bytes, of which each stands with its length.
#[derive(Drop)]
pub struct StateDigest {
    hasher: Sha256,
}

impl StateDigest {
    /// Of nothing yet.
    pub fn new() -> StateDigest
        ensures { IsOf result [] }
    {
        StateDigest {
            hasher: Sha256::new(),
        }
    }

    /// A number in 8 bytes.
    fn word(&mut self, number: u64)
        ensures { Fed self.old (word_bytes number) self.new }
    {
        let bytes = number.to_be_bytes();
        self.hasher.update(bytes.as_slice());
    }

    pub fn number(&mut self, number: u64)
        ensures { Fed self.old (number_bytes number) self.new }
    {
        if number < u64::from(LONG) {
            self.byte(number as u8);
        } else {
            self.byte(LONG);
            self.word(number);
        }
    }

    pub fn byte(&mut self, byte: u8)
        ensures { Fed self.old (byte ∷ []) self.new }
    {
        self.hasher.update(&[byte]);
    }

    pub fn flag(&mut self, flag: bool)
        ensures { Fed self.old ((if flag then 1 else 0) ∷ []) self.new }
    {
        self.byte(if flag { 1 } else { 0 });
    }

    pub fn sum(&mut self, sum: Key)
        ensures { Fed self.old (sum_bytes sum) self.new }
    {
        self.word(sum.high);
        self.word(sum.low);
    }

    pub fn bytes(&mut self, bytes: &[u8])
        ensures { Fed self.old (text_bytes bytes.now) self.new }
    {
        self.number(bytes.len() as u64);
        self.text(bytes);
    }

    /// Bytes without their length.
    pub fn text(&mut self, bytes: &[u8])
        ensures { Fed self.old bytes.now self.new }
    {
        self.hasher.update(bytes);
    }

    /// A byte that says of what kind a number is, and the number.
    pub fn numbered(&mut self, kind: u8, number: u64)
        ensures { Fed self.old (kind ∷ number_bytes number) self.new }
    {
        self.byte(kind);
        self.number(number);
    }

    /// A number that may be missing.
    pub fn option(&mut self, number: Option<u64>)
        ensures { Fed self.old (option_bytes number) self.new }
    {
        match number {
            Some(number) => {
                self.byte(1);
                self.number(number);
            }
            None => self.byte(0),
        }
    }

    /// The same of a number of 32 bits.
    pub fn option_word(&mut self, number: Option<u32>)
        ensures { Fed self.old (option_bytes number) self.new }
    {
        match number {
            Some(number) => self.option(Some(u64::from(number))),
            None => self.option(None),
        }
    }

    /// The key of what it was fed so far. It may be fed more.
    pub fn key_so_far(&self) -> Result<Key, AllocError>
        ensures { IfOk result (λ key. (text : List ℕ) → IsOf self.now text → key ≡ key_in text) }
    {
        let digest = StateDigest {
            hasher: self.hasher.clone()?,
        };
        Ok(digest.key())
    }

    /// The first 128 bits of the digest.
    pub fn key(self) -> Key
        ensures { (text : List ℕ) → IsOf self text → result ≡ key_in text }
    {
        let StateDigest { hasher } = self;
        let digest = hasher.finalize();
        Key {
            high: BigEndian::read_u64(&digest[0..8]),
            low: BigEndian::read_u64(&digest[8..16]),
        }
    }
}

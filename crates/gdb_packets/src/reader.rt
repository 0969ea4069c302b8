//! `Reader`: reads packets byte by byte, and tests their checksums.
ghost use Rattle.std.specs.Prelude.{◌≡◌, [], ◌++◌, IfOk, OnOk, OnErr};
ghost use Rattle.std.specs.Option.{option_to_list};
ghost use Rattle.gdb_packets.specs.Reading.{after, after_in, arrival_of, arrivals, brought, brought_in, grown, is_sound, outside, reading_after};

use crate::arrival::Arrival;
use crate::numbers::digit_of;
use crate::phase::Phase;
use crate::text::{is_cut, payload_of, sum_of};
use byte_list::Bytes;
use std::alloc::{AllocError, Global};
use std::marker::Model;

/// The longest text of a packet that is taken: the bytes between `$` and `#`.
const MOST_TEXT: usize = 16_384;

/// Reads packets byte by byte. It keeps at most 16,385 bytes.
pub struct Reader {
    phase: Phase,
    text: Vec<u8>,
}

impl Drop for Reader {
    fn drop(self) {
        let Reader {
            phase: _,
            text: _text,
        } = self;
    }
}

impl Model for Reader {
    ghost use Rattle.std.specs.Prelude.{◌+◌, ◌≤◌, length};
    ghost use Rattle.gdb_packets.specs.Reading.{Reading, most_text};

    ghost Value = { Reading };

    ghost view = { λ r. record { phase = r.phase; text = r.text.items } };

    ghost invariant = { λ r. length r.text.items ≤ most_text + 1 };
}

/// Whether the text of a packet is taken, with these digits of its checksum.
fn is_sound(text: &[u8], first: u8, last: u8) -> bool
    ensures { result ≡ is_sound text.now first last }
{
    if text.len() > MOST_TEXT {
        return false;
    }
    let sum = sum_of(text);
    digit_of(sum / 16) == first && digit_of(sum % 16) == last && !is_cut(text)
}

/// What a packet is, by its text and the digits of its checksum.
fn arrival(alloc: Global, text: &[u8], first: u8, last: u8) -> Result<Arrival, AllocError>
    ensures { IfOk result (λ came. came ≡ arrival_of text.now first last) }
{
    if is_sound(text, first, last) {
        Ok(Arrival::Packet(Bytes::new(payload_of(alloc, text)?)))
    } else {
        Ok(Arrival::Refused)
    }
}

impl Reader {
    /// A reader before its first byte.
    pub fn new(alloc: Global) -> Reader
        ensures { result ≡ outside }
    {
        Reader {
            phase: Phase::Outside,
            text: Vec::new(alloc),
        }
    }

    /// Begins a packet.
    fn begin(&mut self)
        ensures { self.new ≡ record { phase = Phase.Text; text = [] } }
    {
        self.text.clear();
        self.phase = Phase::Text;
    }

    /// Adds a byte to the text, unless the text is too long already.
    fn grow(&mut self, byte: u8) -> Result<(), AllocError>
        ensures ok { OnOk result (self.new ≡ record { phase = self.old.phase; text = grown self.old.text byte }) }
        ensures err { OnErr result (self.new ≡ self.old) }
    {
        if self.text.len() <= MOST_TEXT {
            self.text.push(byte)?;
        }
        Ok(())
    }

    /// Reads a byte within a packet's text.
    fn take_text(&mut self, byte: u8) -> Result<Option<Arrival>, AllocError>
        ensures came { IfOk result (λ came. came ≡ brought_in Phase.Text self.old.text byte) }
        ensures ok { self.old.phase ≡ Phase.Text → OnOk result (self.new ≡ after_in Phase.Text self.old.text byte) }
        ensures err { OnErr result (self.new ≡ self.old) }
    {
        match byte {
            b'#' => {
                self.phase = Phase::FirstDigit;
                Ok(None)
            },
            b'$' => {
                self.begin();
                Ok(Some(Arrival::Refused))
            },
            _ => {
                self.grow(byte)?;
                Ok(None)
            },
        }
    }

    /// Reads a byte outside a packet.
    fn take_outside(&mut self, byte: u8) -> Option<Arrival>
        ensures came { result ≡ brought_in Phase.Outside self.old.text byte }
        ensures after { self.old.phase ≡ Phase.Outside → self.new ≡ after_in Phase.Outside self.old.text byte }
    {
        match byte {
            b'$' => {
                self.begin();
                None
            },
            3 => Some(Arrival::Interrupt),
            b'+' => Some(Arrival::Ack),
            b'-' => Some(Arrival::Nack),
            _ => None,
        }
    }

    /// Ends a packet.
    fn end(&mut self, alloc: Global, first: u8, last: u8) -> Result<Arrival, AllocError>
        ensures came { IfOk result (λ came. came ≡ arrival_of self.old.text first last) }
        ensures ok { OnOk result (self.new ≡ outside) }
        ensures err { OnErr result (self.new ≡ self.old) }
    {
        let came = arrival(alloc, &self.text, first, last)?;
        self.text.clear();
        self.phase = Phase::Outside;
        Ok(came)
    }

    /// Reads a byte. Gives what it completes, if it completes anything. Where memory runs out nothing changes.
    pub fn take(&mut self, alloc: Global, byte: u8) -> Result<Option<Arrival>, AllocError>
        ensures came { IfOk result (λ came. came ≡ brought self.old byte) }
        ensures ok { OnOk result (self.new ≡ after self.old byte) }
        ensures err { OnErr result (self.new ≡ self.old) }
    {
        match self.phase {
            Phase::Outside => Ok(self.take_outside(byte)),
            Phase::Text => self.take_text(byte),
            Phase::FirstDigit => {
                self.phase = Phase::LastDigit(byte);
                Ok(None)
            },
            Phase::LastDigit(first) => Ok(Some(self.end(alloc, first, byte)?)),
        }
    }

    /// Reads a byte, and adds what it completes.
    fn take_into(
        &mut self,
        alloc: Global,
        byte: u8,
        came: &mut Vec<Arrival>,
    ) -> Result<(), AllocError>
        ensures came { OnOk result (came.new.items ≡ came.old.items ++ option_to_list (brought self.old byte)) }
        ensures after { OnOk result (self.new ≡ after self.old byte) }
    {
        match self.take(alloc, byte)? {
            Some(arrival) => Ok(came.push(arrival)?),
            None => Ok(()),
        }
    }

    /// Reads some bytes. Gives all that they complete. Where memory runs out only some of them are read.
    pub fn read(&mut self, alloc: Global, bytes: &[u8]) -> Result<Vec<Arrival>, AllocError>
        ensures came { IfOk result (λ came. came.items ≡ arrivals self.old bytes.now) }
        ensures after { OnOk result (self.new ≡ reading_after self.old bytes.now) }
    {
        let mut came = Vec::new(alloc);
        for byte in bytes {
            self.take_into(alloc, *byte, &mut came)?;
        }
        Ok(came)
    }
}

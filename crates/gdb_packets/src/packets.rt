//! `Packets`: the payloads of packets that are to go out.
use crate::numbers::push_bytes;
use std::alloc::{AllocError, Global};

/// The most bytes of a text in one packet.
const MOST_TEXT: usize = 4096;

/// The payloads of packets that go out, in order.
#[derive(Drop)]
pub struct Packets {
    alloc: Global,
    payloads: Vec<Vec<u8>>,
}

impl Packets {
    /// A list without packets.
    pub fn new(alloc: Global) -> Packets {
        Packets {
            alloc,
            payloads: Vec::new(alloc),
        }
    }

    /// The payloads, in order.
    pub fn payloads(&self) -> &[Vec<u8>] {
        self.payloads.as_slice()
    }

    /// Forgets the packets, since they went out.
    pub fn clear(&mut self) {
        self.payloads.clear();
    }

    /// Adds a packet.
    pub fn push(&mut self, payload: Vec<u8>) -> Result<(), AllocError> {
        Ok(self.payloads.push(payload)?)
    }

    /// Adds a packet of this text.
    pub fn push_text(&mut self, text: &str) -> Result<(), AllocError> {
        let mut payload = Vec::new(self.alloc);
        payload.extend_from_slice(text.as_bytes())?;
        self.push(payload)
    }

    /// Adds a packet by which gdb prints bytes.
    fn push_printed(&mut self, bytes: &[u8]) -> Result<(), AllocError> {
        let mut payload = Vec::new(self.alloc);
        payload.push(b'O')?;
        push_bytes(&mut payload, bytes)?;
        self.push(payload)
    }

    /// Adds packets by which gdb prints a text.
    pub fn push_print(&mut self, text: &[u8]) -> Result<(), AllocError> {
        for part in text.chunks(MOST_TEXT) {
            self.push_printed(part)?;
        }
        Ok(())
    }
}

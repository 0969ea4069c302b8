//! `Phase`: in which part of a packet the next byte from gdb stands.

/// Where the next byte stands.
#[derive(Clone, Copy)]
pub enum Phase {
    /// In no packet.
    Outside,
    /// In the text of a packet, or at the `#` after it.
    Text,
    /// At the first digit of the checksum.
    FirstDigit,
    /// At the last digit of the checksum, after this first one.
    LastDigit(u8),
}

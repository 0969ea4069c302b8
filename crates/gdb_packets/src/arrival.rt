//! `Arrival`: what the bytes from gdb complete: a packet, an interrupt, or an acknowledgement.
use byte_list::Bytes;

/// What a byte from gdb completes.
#[derive(Drop)]
pub enum Arrival {
    /// A whole packet, with its payload.
    Packet(Bytes),
    /// A packet that is not taken: its text is too long, its checksum is wrong, it ends within an escape, or another packet began
    /// in it.
    Refused,
    /// The byte 03 outside a packet.
    Interrupt,
    /// `+`: the last packet arrived.
    Ack,
    /// `-`: the last packet is to be sent again.
    Nack,
}

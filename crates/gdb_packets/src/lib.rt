//! gdb's remote protocol: packets in and out, byte by byte, and what they say. No machine moves here. Read `Reader` first, which
//! makes packets, refused packets, interrupts and acknowledgements of any bytes, wherever the input is cut. Then read `framed`,
//! which writes a packet, and `packet_request`, which says what one asks for. What is told of registers, of memory and of a stop is
//! the definitions'; of most else that packets say only safety is proved.
#![tactic(auto)]

mod arrival;
mod calls;
mod commands;
mod framing;
mod laws;
mod numbers;
mod packets;
mod phase;
mod reader;
mod registers;
mod request;
mod stops;
mod target;
mod text;

pub use arrival::Arrival;
pub use calls::{RepliedCalls, memory_entered};
pub use commands::{COMMANDS, Command, command_of};
pub use framing::framed;
pub use laws::{cuts_change_nothing, framed_is_read_back, texts_are_bounded};
pub use packets::Packets;
pub use reader::Reader;
pub use registers::{memory_at, registers_of};
pub use request::{Document, Motion, PacketRequest, Point, packet_request};
pub use stops::{Stop, stop_text};
pub use target::{description, part_of};

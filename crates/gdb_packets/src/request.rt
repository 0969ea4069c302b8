//! `packet_request`: reads what gdb asks for by a packet.
use crate::numbers::{little_endian, range};
use debugger::{Watch, WatchKind};
use input_reading::hex_bytes;
use std::alloc::{AllocError, Global};

/// A document that gdb reads in parts.
#[derive(Clone, Copy)]
pub enum Document {
    /// The description of the machine's registers.
    Target,
    /// The path of the file of symbols.
    Symbols,
}

/// What stops the machine.
#[derive(Clone, Copy)]
pub enum Point {
    /// A breakpoint at an address.
    Break(u32),
    Watch(Watch),
}

/// How the machine is to go.
#[derive(Clone, Copy)]
pub enum Motion {
    /// An instruction on.
    Step,
    /// On.
    Continue,
    /// An instruction back.
    StepBack,
    /// Back.
    ContinueBack,
}

/// What gdb asks for.
#[derive(Drop)]
pub enum PacketRequest {
    /// What the session supports.
    Supported,
    /// That packets are acknowledged no more.
    NoAcks,
    /// A part of a document.
    Part {
        document: Document,
        offset: u32,
        length: u32,
    },
    /// Why the machine stands still.
    Why,
    Registers,
    Memory {
        at: u32,
        length: u32,
    },
    /// To go to a count.
    Travel(u64),
    /// A change of what the program does.
    Change,
    Set(Point),
    Clear(Point),
    Go(Motion),
    /// A command that a person gave.
    Monitor(Vec<u8>),
    /// To end the session, with an answer.
    Detach,
    /// To end the session without an answer.
    Kill,
    /// A packet that is not supported.
    Other,
}

/// The request, or `Other` where its words have no form.
fn known(request: Option<PacketRequest>) -> PacketRequest {
    request.unwrap_or(PacketRequest::Other)
}

fn part_request(document: Document, words: &str) -> Option<PacketRequest> {
    let (offset, length) = range(words)?;
    Some(PacketRequest::Part {
        document,
        offset,
        length,
    })
}

fn memory_request(words: &str) -> Option<PacketRequest> {
    let (at, length) = range(words)?;
    Some(PacketRequest::Memory { at, length })
}

/// The breakpoint or the watch of `KIND,AT,N`. What follows after a `;` is passed over.
fn point_of(words: &str) -> Option<Point> {
    let words = match words.split_once(';') {
        Some((words, _)) => words,
        None => words,
    };
    let (kind, words) = words.split_once(',')?;
    let (at, length) = range(words)?;
    let watch = |kind| Some(Point::Watch(Watch { kind, at, length }));
    match kind {
        "0" | "1" => Some(Point::Break(at)),
        "2" => watch(WatchKind::Stores),
        "3" => watch(WatchKind::Loads),
        "4" => watch(WatchKind::Both),
        _ => None,
    }
}

/// The request of a write to a register: a travel where the register is `count`, else a change.
fn written(words: &str) -> PacketRequest {
    match words.strip_prefix("21=").and_then(little_endian) {
        Some(count) => PacketRequest::Travel(count),
        None => PacketRequest::Change,
    }
}

fn monitor_request(alloc: Global, digits: &str) -> Result<PacketRequest, AllocError> {
    match hex_bytes(alloc, digits)? {
        Some(line) => Ok(PacketRequest::Monitor(line)),
        None => Ok(PacketRequest::Other),
    }
}

/// A request of more than one word.
fn query(alloc: Global, text: &str) -> Result<PacketRequest, AllocError> {
    if let Some(words) = text.strip_prefix("qXfer:features:read:target.xml:") {
        return Ok(known(part_request(Document::Target, words)));
    }
    if let Some((_, words)) = text
        .strip_prefix("qXfer:exec-file:read:")
        .and_then(|words| words.split_once(':'))
    {
        return Ok(known(part_request(Document::Symbols, words)));
    }
    match text.strip_prefix("qRcmd,") {
        Some(digits) => monitor_request(alloc, digits),
        None if text.starts_with("qSupported") => Ok(PacketRequest::Supported),
        None => Ok(PacketRequest::Other),
    }
}

/// A request by its first letter, and what comes after it.
fn lettered(letter: char, words: &str) -> PacketRequest {
    match letter {
        'm' => known(memory_request(words)),
        'P' => written(words),
        'Z' => known(point_of(words).map(|point| PacketRequest::Set(point))),
        'z' => known(point_of(words).map(|point| PacketRequest::Clear(point))),
        'c' | 'C' => PacketRequest::Go(Motion::Continue),
        's' | 'S' => PacketRequest::Go(Motion::Step),
        _ => PacketRequest::Other,
    }
}

fn request_of_text(alloc: Global, text: &str) -> Result<PacketRequest, AllocError> {
    match text {
        "?" => Ok(PacketRequest::Why),
        "g" => Ok(PacketRequest::Registers),
        "bs" => Ok(PacketRequest::Go(Motion::StepBack)),
        "bc" => Ok(PacketRequest::Go(Motion::ContinueBack)),
        "QStartNoAckMode" => Ok(PacketRequest::NoAcks),
        _ if text.starts_with('q') => query(alloc, text),
        _ => match text.chars().next() {
            Some(letter) => Ok(lettered(letter, text.get(1..).unwrap_or_default())),
            None => Ok(PacketRequest::Other),
        },
    }
}

/// What a packet of this payload asks for.
pub fn packet_request(alloc: Global, payload: &[u8]) -> Result<PacketRequest, AllocError> {
    match payload.first() {
        Some(b'G' | b'M' | b'X') => return Ok(PacketRequest::Change),
        Some(b'D') => return Ok(PacketRequest::Detach),
        Some(b'k') => return Ok(PacketRequest::Kill),
        _ => {}
    }
    match str::from_utf8(payload) {
        Ok(text) => request_of_text(alloc, text),
        Err(_) => Ok(PacketRequest::Other),
    }
}

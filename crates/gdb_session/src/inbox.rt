//! `Inbox`: the packets and interrupts that one thread reads from gdb, and another takes to answer them.
use gdb_packets::{Arrival, Reader};
use idle::Backoff;
use std::alloc::{AllocError, Global};
use std::collections::VecDeque;
use std::io::{ErrorKind, Read};
use std::sync::{Mutex, Wait};
use timeline::SessionFault;

/// How many bytes of a packet are its frame.
const BYTES_OF_FRAME: usize = 4;

/// The most bytes of the input that may wait to be taken. Beyond this the thread that reads waits too.
const MOST_WAITING: usize = 1 << 20;

/// How many bytes of the input an arrival took, without those that an escape adds.
fn size_of(arrival: &Arrival) -> usize {
    match arrival {
        Arrival::Packet(payload) => payload.as_slice().len().saturating_add(BYTES_OF_FRAME),
        _ => 1,
    }
}

/// Whether gdb leaves by this packet, and sends nothing after it.
fn is_last(arrival: &Arrival) -> bool {
    match arrival {
        Arrival::Packet(payload) => matches!(payload.as_slice().first(), Some(b'k' | b'D')),
        _ => false,
    }
}

/// What arrived and was not taken, in order, and whether more will come.
#[derive(Drop)]
struct Waiting {
    arrivals: VecDeque<Arrival>,
    /// How many bytes of the input the arrivals took.
    size: usize,
    /// How the input ended, if it has.
    end: Option<Result<(), SessionFault>>,
    /// Whether the thread that answers takes no more.
    is_closed: bool,
}

impl Waiting {
    /// Adds what arrived. Acknowledgements are left out, since a pipe loses nothing.
    fn add(&mut self, arrivals: Vec<Arrival>) -> Result<(), AllocError> {
        for arrival in arrivals {
            if !matches!(&arrival, Arrival::Ack | Arrival::Nack) {
                self.size = self.size.saturating_add(size_of(&arrival));
                self.arrivals.push_back(arrival)?;
            }
        }
        Ok(())
    }

    /// Takes the first arrival.
    fn take(&mut self) -> Option<Arrival> {
        let arrival = self.arrivals.pop_front()?;
        self.size = self.size.saturating_sub(size_of(&arrival));
        Some(arrival)
    }
}

/// What arrives from gdb. One thread reads it and parts it into arrivals; another takes these.
#[derive(Drop)]
pub struct Inbox {
    waiting: Mutex<Waiting>,
}

impl Inbox {
    /// An empty inbox.
    pub fn new(alloc: Global) -> Inbox {
        Inbox {
            waiting: Mutex::new(Waiting {
                arrivals: VecDeque::new(alloc),
                size: 0,
                end: None,
                is_closed: false,
            }),
        }
    }

    /// How the input ended, if it has: refused where memory ran out, or a read failed.
    pub fn end<R: Wait>(&self, rt: &R) -> Option<Result<(), SessionFault>> {
        self.waiting.lock(rt).end
    }

    /// Closes the inbox: nothing is taken from it any more, so the thread that reads ends.
    pub fn close<R: Wait>(&self, rt: &R) {
        self.waiting.lock(rt).is_closed = true;
    }

    /// Takes what arrived next. Where nothing waits, gives how the input ended, or None where more may come.
    fn look<R: Wait>(&self, rt: &R) -> Option<Result<Option<Arrival>, SessionFault>> {
        let mut waiting = self.waiting.lock(rt);
        match waiting.take() {
            Some(arrival) => Some(Ok(Some(arrival))),
            None => match waiting.end? {
                Ok(()) => Some(Ok(None)),
                Err(fault) => Some(Err(fault)),
            },
        }
    }

    /// Waits for the next arrival, and takes it. None where nothing more will come.
    pub fn next<R: Wait>(&self, rt: &R) -> Result<Option<Arrival>, SessionFault> {
        let mut rest = Backoff::new();
        for _ in rt.forever() {
            if let Some(next) = self.look(rt) {
                return next;
            }
            rest.take(rt);
        }
        unreachable!()
    }

    /// Whether the next arrival is an interrupt. If so it is taken.
    pub fn is_interrupted<R: Wait>(&self, rt: &R) -> bool {
        let mut waiting = self.waiting.lock(rt);
        let is_next = matches!(waiting.arrivals.front(), Some(Arrival::Interrupt));
        if is_next {
            let _ = waiting.take();
        }
        is_next
    }

    /// Whether the inbox is open; None where it has no room yet for more.
    fn has_room<R: Wait>(&self, rt: &R) -> Option<bool> {
        let waiting = self.waiting.lock(rt);
        if waiting.is_closed {
            return Some(false);
        }
        (waiting.size < MOST_WAITING).then_some(true)
    }

    /// Waits until there is room for more. Says whether the inbox is open.
    fn is_open<R: Wait>(&self, rt: &R) -> bool {
        let mut rest = Backoff::new();
        for _ in rt.forever() {
            if let Some(is_open) = self.has_room(rt) {
                return is_open;
            }
            rest.take(rt);
        }
        unreachable!()
    }

    /// Adds what arrived. Says whether gdb stays.
    fn add<R: Wait>(&self, rt: &R, arrivals: Vec<Arrival>) -> Result<bool, AllocError> {
        let leaves = arrivals.iter().any(|arrival| is_last(arrival));
        self.waiting.lock(rt).add(arrivals)?;
        Ok(!leaves)
    }

    /// Reads a part of the input. Says whether there may be more.
    fn fill_once<R: Wait, I: Read>(
        &self,
        rt: &R,
        alloc: Global,
        reader: &mut Reader,
        input: &mut I,
    ) -> Result<bool, SessionFault> {
        if !self.is_open(rt) {
            return Ok(false);
        }
        let mut buffer = [0u8; 4096];
        match input.read(&mut buffer) {
            Ok(0) => Ok(false),
            Ok(n) => Ok(self.add(rt, reader.read(alloc, &buffer[..n])?)?),
            // It is made again.
            Err(error) if error.kind() == ErrorKind::Interrupted => Ok(true),
            Err(error) => Err(SessionFault::from(error)),
        }
    }

    /// Reads until gdb leaves, the input ends, or nothing is taken any more.
    pub fn fill<R: Wait, I: Read>(&self, rt: &R, alloc: Global, input: &mut I) {
        let mut reader = Reader::new(alloc);
        for _ in rt.forever() {
            let end = match self.fill_once(rt, alloc, &mut reader, input) {
                Ok(true) => continue,
                Ok(false) => Ok(()),
                Err(fault) => Err(fault),
            };
            self.waiting.lock(rt).end = Some(end);
            return;
        }
    }
}

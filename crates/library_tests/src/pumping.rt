//! Tests of `console`: writers that take all, little or nothing, and fail.
ghost use Rattle.std.specs.Prelude.{◌≤◌};

use crate::asserting::assert_row;
use console::{Cursor, PumpFault, pump};
use std::alloc::Global;
use std::io::{self, Error, ErrorKind, Write};
use std::process::Abort;

const TEXT: &[u8] = b"the text that goes out";

/// How a writer answers once it is full.
#[derive(Clone, Copy)]
enum Full {
    TakesNothing,
    Fails,
}

/// Takes at most so many bytes in a call, and holds at most so many.
#[derive(Drop)]
struct Fake {
    held: Vec<u8>,
    at_once: usize,
    room: usize,
    full: Full,
    /// The next call is interrupted.
    interrupted: bool,
}

impl Fake {
    fn new(alloc: Global, at_once: usize, room: usize, full: Full) -> Fake {
        Fake {
            held: Vec::new(alloc),
            at_once,
            room,
            full,
            interrupted: false,
        }
    }
}

impl Write for Fake {
    fn write(&mut self, buf: &[u8]) -> io::Result<usize> {
        if self.interrupted {
            self.interrupted = false;
            return Err(Error::from(ErrorKind::Interrupted));
        }
        let count = buf.len().min(self.at_once).min(self.room);
        if count == 0 {
            return match self.full {
                Full::TakesNothing => Ok(0),
                Full::Fails => Err(Error::from(ErrorKind::BrokenPipe)),
            };
        }
        self.held.extend_from_slice(&buf[..count])?;
        self.room -= count;
        self.interrupted = true;
        Ok(count)
    }

    fn flush(&mut self) -> io::Result<()> {
        Ok(())
    }
}

/// Pumps the text from a place on, and wants all of it to go out.
fn expect_all<R: AllocGlobal + Abort>(rt: &R, at_once: usize, from: usize) {
    if let Some(rest) = TEXT.get(from..) {
        let mut writer = Fake::new(rt.alloc(), at_once, TEXT.len(), Full::Fails);
        let pumped = pump(&mut writer, TEXT, from);
        assert_row(rt, from, pumped, Ok(TEXT.len()));
        assert_row(rt, from, writer.held.as_slice(), rest);
    }
}

#[test]
fn all_goes_out(rt: HostRuntime) {
    for at_once in [1, 5, 100] {
        for from in [0, 4, TEXT.len()] {
            expect_all(&rt, at_once, from);
        }
    }
}

/// Pumps the text from its fourth byte on to a writer that has room for a part of it, and wants just that part to go out.
fn expect_part<R: AllocGlobal + Abort>(rt: &R, room: usize, full: Full)
    requires { room ≤ 18 }
{
    let from = 4;
    let mut writer = Fake::new(rt.alloc(), 1, room, full);
    let upto = from + room;
    let pumped = pump(&mut writer, TEXT, from);
    assert_row(rt, room, pumped, Err(PumpFault { upto }));
    assert_row(rt, room, writer.held.as_slice(), &TEXT[from..upto]);
}

#[test]
fn a_full_writer_is_a_fault(rt: HostRuntime) {
    for full in [Full::TakesNothing, Full::Fails] {
        for room in 0..TEXT.len() - 4 {
            expect_part(&rt, room, full);
        }
    }
}

#[test]
fn a_cursor_tells_each_byte_once(rt: HostRuntime) {
    let mut told = Cursor::new();
    assert_row(&rt, "begin", told.rest(&TEXT[..4]), b"the ".as_slice());
    assert_row(&rt, "more", told.rest(&TEXT[..8]), b"text".as_slice());
    assert_row(&rt, "none", told.rest(&TEXT[..8]), b"".as_slice());
}

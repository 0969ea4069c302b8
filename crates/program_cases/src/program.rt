//! The program that is tested: a function of its words, an input and two outputs in memory. `test_runner` has it, so that this crate
//! is proved beside those of the program.
use std::alloc::{AllocError, Global};
use std::io::{self, ErrorKind, Read, Write};

/// What the program reads: these bytes, or nothing, for this reason.
#[derive(Drop)]
pub struct Input {
    bytes: Vec<u8>,
    place: usize,
    failure: Option<ErrorKind>,
}

impl Input {
    /// An input of these bytes.
    pub fn new(alloc: Global, bytes: &[u8]) -> Result<Input, AllocError> {
        Ok(Input {
            bytes: Vec::from_slice(alloc, bytes)?,
            place: 0,
            failure: None,
        })
    }

    /// An input that cannot be read for this reason.
    pub fn failing(alloc: Global, failure: ErrorKind) -> Input {
        Input {
            bytes: Vec::new(alloc),
            place: 0,
            failure: Some(failure),
        }
    }
}

impl Read for Input {
    fn read(&mut self, buf: &mut [u8]) -> io::Result<usize> {
        if let Some(failure) = self.failure {
            return Err(io::Error::from(failure));
        }
        let mut rest = self.bytes.get(self.place..).unwrap_or(&[]);
        let count = rest.read(buf)?;
        self.place = self.place.saturating_add(count);
        Ok(count)
    }
}

/// What the program writes: an output that takes so many writes, and then fails for a reason.
#[derive(Drop)]
pub struct Output {
    pub held: Vec<u8>,
    /// How many writes it took, and how many of them do not end with a line's end.
    pub writes: usize,
    pub parts: usize,
    /// How many writes it had taken when it was flushed last.
    pub flushed: usize,
    pub room: usize,
    failure: ErrorKind,
}

impl Output {
    /// An output with room for so many writes.
    pub fn with_room(alloc: Global, room: usize, failure: ErrorKind) -> Output {
        Output {
            held: Vec::new(alloc),
            writes: 0,
            parts: 0,
            flushed: 0,
            room,
            failure,
        }
    }

    /// An output that takes all writes.
    pub fn new(alloc: Global) -> Output {
        Output::with_room(alloc, usize::MAX, ErrorKind::OutOfMemory)
    }
}

impl Write for Output {
    fn write(&mut self, buf: &[u8]) -> io::Result<usize> {
        if self.writes >= self.room {
            return Err(io::Error::from(self.failure));
        }
        self.held.extend_from_slice(buf)?;
        self.writes += 1;
        if !buf.ends_with(b"\n") {
            self.parts = self.parts.saturating_add(1);
        }
        Ok(buf.len())
    }

    fn flush(&mut self) -> io::Result<()> {
        self.flushed = self.writes;
        Ok(())
    }
}

/// The program: a function of its words, its input, its output and its standard error, which gives its exit status.
pub type Program<'a> = &'a dyn Fn(&[String], &mut Input, &mut Output, &mut Output) -> u8;

//! Calls, told one by one while a run goes on.
use call_forms::{BytesText, CallText, Style};
use call_lines::style_of;
use faults::{Fault, write_line};
use kernel::{Core, Event};
use kernel_model::Request;
use machine_model::{Reply, Stop};
use run_events::{CallSite, EventRecord, Interest, Observer, Told};
use std::alloc::Global;
use std::fmt;
use std::io::{self, Write};

/// The most bytes that are told of what is written or read, or of a name.
const MOST_BYTES: usize = 32;

/// The name of an error, if the number is one.
fn error_name(number: i32) -> Option<&'static str> {
    let name = match number {
        -2 => "ENOENT",
        -8 => "ENOEXEC",
        -9 => "EBADF",
        -10 => "ECHILD",
        -14 => "EFAULT",
        -22 => "EINVAL",
        -23 => "ENFILE",
        -24 => "EMFILE",
        -27 => "EFBIG",
        -32 => "EPIPE",
        -38 => "ENOSYS",
        _ => return None,
    };
    Some(name)
}

/// What came of a call or a trap. Nothing is told to a process that waits.
#[derive(Clone, Copy)]
struct Outcome<'a> {
    request: Option<&'a Request>,
    told: Option<Told<'a>>,
}

/// The word from a place on, little-endian; 0 if there are too few bytes.
fn word_at(bytes: &[u8], at: usize) -> u32 {
    match bytes.get(at..at.saturating_add(4)) {
        Some([a, b, c, d]) => u32::from_le_bytes([*a, *b, *c, *d]),
        _ => 0,
    }
}

impl<'a> Outcome<'a> {
    /// The name of the error that the call was replied, if it was one.
    fn error(&self) -> Option<&'static str> {
        match self.told {
            Some(Told::Reply(reply)) => error_name(reply.a0().cast_signed()),
            _ => None,
        }
    }

    /// A call that was refused, and shows no bytes, is written as its registers have it: else the address or the length that was refused
    /// might be left out.
    fn style(&self) -> Style<'a> {
        match self.request.map(|request| style_of(request, MOST_BYTES)) {
            Some(Style::Bytes { bytes: None, .. }) if self.error().is_some() => Style::Registers,
            Some(style) => style,
            None => Style::Registers,
        }
    }

    /// Writes the number, or the error by its name, and what the reply stored.
    fn write_reply<W: fmt::Write>(&self, f: &mut fmt::Formatter<W>, reply: &Reply) -> fmt::Result {
        let (number, bytes) = (reply.a0().cast_signed(), reply.bytes());
        if let Some(name) = self.error() {
            return write!(f, " = {number} {name}");
        }
        if reply.has_image() {
            return f.write_str(" enters");
        }
        write!(f, " = {number}")?;
        let (first, second) = (word_at(bytes, 0), word_at(bytes, 4));
        match self.request {
            Some(Request::Read { .. }) => {
                let most = MOST_BYTES;
                let text = BytesText { bytes, most };
                write!(f, " '{text}'")
            }
            Some(Request::Pipe { .. }) => write!(f, " [{first}, {second}]"),
            Some(Request::Wait { at, .. }) if *at != 0 => write!(f, " [{first}]"),
            _ => Ok(()),
        }
    }

    fn print<E: Write>(self, pid: u32, site: CallSite, err: &mut E) -> io::Result<()> {
        let arguments = site.arguments;
        let call = CallText {
            number: site.number,
            arguments,
            style: self.style(),
        };
        match site.stop {
            Stop::Trap(cause) => {
                let number = cause.number();
                write_line(err, format_args!("process {pid}: trap {number}{self}"))
            }
            _ => write_line(err, format_args!("process {pid}: {call}{self}")),
        }
    }
}

impl fmt::Display for Outcome<'_> {
    fn fmt<W: fmt::Write>(&self, f: &mut fmt::Formatter<W>) -> fmt::Result {
        match self.told {
            Some(Told::Reply(reply)) => self.write_reply(f, reply),
            Some(Told::Ended(_)) => f.write_str(" ends"),
            None => f.write_str(" waits"),
        }
    }
}

/// Prints a line for each call that is carried out. A call that waits has one when it waits first, and one more when it is replied to.
#[derive(Drop)]
pub struct CallTrace<'e, E> {
    err: &'e mut E,
    /// The processes whose calls were told as waiting.
    waiting: Vec<u32>,
}

impl<'e, E: Write> CallTrace<'e, E> {
    pub fn new(alloc: Global, err: &'e mut E) -> CallTrace<'e, E> {
        CallTrace {
            err,
            waiting: Vec::new(alloc),
        }
    }
}

impl<E: Write> Observer for CallTrace<'_, E> {
    type Fault = Fault;

    ghost hears = { λ old r new. Unit {0} };

    fn wants(&self, _core: &Core, event: Event) -> Interest {
        match event {
            Event::Enter { .. } => Interest::Record,
            _ => Interest::Nothing,
        }
    }

    fn event(&mut self, _core: &Core, done: &EventRecord<'_>) -> Result<(), Fault> {
        let Some(site) = done.call_site else {
            return Ok(());
        };
        let pid = done.process();
        if done.told.is_some() {
            self.waiting.retain(|it| *it != pid);
        } else if self.waiting.as_slice().contains(&pid) {
            return Ok(());
        } else {
            self.waiting.push(pid)?;
        }
        let outcome = Outcome {
            request: done.request,
            told: done.told,
        };
        Ok(outcome.print(pid, site, self.err)?)
    }
}

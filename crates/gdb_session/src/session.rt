//! `Session`: answers each packet of gdb's, and moves the program.
use crate::going::Going;
use crate::history::History;
use crate::messages::Messages;
use crate::monitor::print_answer;
use gdb_packets::{
    Command, Document, Motion, PacketRequest, Packets, Point, Stop, command_of, description,
    memory_at, packet_request, part_of, registers_of, stop_text,
};
use simdisk::SimDisk;
use std::alloc::{AllocError, Global};
use timeline::{SessionFault, SetPoint, Timeline};

/// The answer to `qSupported`.
const SUPPORTED: &str =
    "PacketSize=4000;QStartNoAckMode+;qXfer:features:read+;ReverseStep+;ReverseContinue+;swbreak+";

/// What `qSupported` adds where gdb can read the path of a file of symbols.
const TELLS_SYMBOLS: &str = ";qXfer:exec-file:read+";

/// The error of a packet that would change what the program does.
const NO_CHANGE: &str = "E01";
/// The error of too many breakpoints or watches.
const FULL: &str = "E02";
/// The error of a count that is too far on.
const TOO_FAR: &str = "E03";
/// The error of memory that is not there.
const NO_MEMORY: &str = "E0e";

/// What comes after a packet was answered.
#[derive(Clone, Copy, Debug, PartialEq, Eq)]
pub enum Next {
    /// The next packet is awaited.
    Await,
    /// From now on no packet is acknowledged.
    NoAcks,
    /// The machine goes: `Session::go_on` is called until it says that the machine stopped.
    Go,
    /// The disk is to be kept in its file; then `Session::tell_kept` tells gdb what came of this.
    Keep,
    /// The session is over.
    End,
}

/// A session: a program's run, and what gdb asked for.
#[derive(Drop)]
pub struct Session {
    pub(crate) alloc: Global,
    pub(crate) timeline: Timeline,
    pub(crate) history: History,
    /// What gdb is to print.
    pub(crate) messages: Messages,
    /// The count at which the next run on stops, if it is above that of the machine.
    until: Option<u64>,
    /// The path of the file of symbols.
    symbols: Option<Vec<u8>>,
    going: Option<Going>,
}

/// The answer to a packet that sets a breakpoint or a watch.
fn answer_of(set: SetPoint) -> &'static str {
    match set {
        SetPoint::Set => "OK",
        SetPoint::Full => FULL,
        SetPoint::NoMemory => NO_MEMORY,
    }
}

impl Session {
    /// A session with a program at its first state, whose history may take so many bytes. gdb is told the path of the file of symbols,
    /// if there is one.
    pub fn new(alloc: Global, timeline: Timeline, room: u64, symbols: Option<Vec<u8>>) -> Session {
        Session {
            alloc,
            timeline,
            history: History::new(alloc, room),
            messages: Messages::new(alloc),
            until: None,
            symbols,
            going: None,
        }
    }

    /// The disk as the kernel leaves it now. None where no kernel runs.
    pub fn disk(&self) -> Result<Option<SimDisk>, AllocError> {
        match &self.timeline.live {
            Some(live) => Ok(Some(live.core().after_crash(&[])?)),
            None => Ok(None),
        }
    }

    fn answer_supported(&self, out: &mut Packets) -> Result<(), AllocError> {
        let more = if self.symbols.is_some() {
            TELLS_SYMBOLS
        } else {
            ""
        };
        let text = format!(in self.alloc; "{SUPPORTED}{more}")?;
        out.push_text(text.as_str())
    }

    fn answer_part(
        &self,
        document: Document,
        offset: u32,
        length: u32,
        out: &mut Packets,
    ) -> Result<(), AllocError> {
        match (document, &self.symbols) {
            (Document::Target, _) => {
                let text = description(self.alloc)?;
                out.push(part_of(self.alloc, text.as_bytes(), offset, length)?)
            }
            (Document::Symbols, Some(path)) => {
                out.push(part_of(self.alloc, path.as_slice(), offset, length)?)
            }
            (Document::Symbols, None) => out.push_text(""),
        }
    }

    fn answer_registers(&self, out: &mut Packets) -> Result<(), AllocError> {
        out.push(registers_of(self.alloc, self.timeline.machine())?)
    }

    fn answer_memory(&self, at: u32, length: u32, out: &mut Packets) -> Result<(), AllocError> {
        match memory_at(self.alloc, self.timeline.machine().space(), at, length)? {
            Some(payload) => out.push(payload),
            None => out.push_text(NO_MEMORY),
        }
    }

    fn answer_travel(&mut self, count: u64, out: &mut Packets) -> Result<(), SessionFault> {
        let went = self.travel(count)?;
        Ok(out.push_text(if went { "OK" } else { TOO_FAR })?)
    }

    fn answer_set(&mut self, point: Point, out: &mut Packets) -> Result<(), AllocError> {
        let set = match point {
            Point::Break(at) => self.timeline.set_break(at),
            Point::Watch(watch) => self.timeline.set_watch(watch)?,
        };
        out.push_text(answer_of(set))
    }

    fn answer_clear(&mut self, point: Point, out: &mut Packets) -> Result<(), AllocError> {
        match point {
            Point::Break(at) => self.timeline.clear_break(at),
            Point::Watch(watch) => self.timeline.clear_watch(watch),
        }
        out.push_text("OK")
    }

    /// Has the next run on stop at a count, if the count is above that of the machine.
    pub(crate) fn stop_at(&mut self, count: u64) {
        self.until = Some(count);
    }

    /// The count at which this run on stops. It holds for one run alone.
    fn take_limit(&mut self) -> u64 {
        match self.until.take() {
            Some(until) if until > self.timeline.count() => until,
            _ => u64::MAX,
        }
    }

    /// Begins a motion, which `go_on` does slice by slice.
    fn begin(&mut self, motion: Motion) -> Next {
        let going = match motion {
            Motion::Step => Going::Ahead {
                limit: self.timeline.count().saturating_add(1),
                is_step: true,
            },
            Motion::Continue => Going::Ahead {
                limit: self.take_limit(),
                is_step: false,
            },
            Motion::StepBack => Going::StepBack,
            Motion::ContinueBack => Going::Back,
        };
        self.going = Some(going);
        Next::Go
    }

    /// Answers a command that a person gave.
    fn answer_monitor(&mut self, line: &[u8], out: &mut Packets) -> Result<Next, SessionFault> {
        let command = command_of(line);
        if matches!(command, Command::Keep) && self.timeline.live.is_some() {
            return Ok(Next::Keep);
        }
        let mut text = Vec::new(self.alloc);
        print_answer(self, command, &mut text)?;
        out.push_print(text.as_slice())?;
        out.push_text("OK")?;
        Ok(Next::Await)
    }

    /// Answers `monitor keep`, by a line that says what came of it.
    pub fn tell_kept(&self, line: &str, out: &mut Packets) -> Result<(), SessionFault> {
        let text = format!(in self.alloc; "{line}\n")?;
        out.push_print(text.as_bytes())?;
        Ok(out.push_text("OK")?)
    }

    /// Answers a packet that only looks at the program or the session.
    fn answer_look(&self, request: &PacketRequest, out: &mut Packets) -> Result<(), AllocError> {
        match request {
            PacketRequest::Supported => self.answer_supported(out),
            PacketRequest::Part {
                document,
                offset,
                length,
            } => self.answer_part(*document, *offset, *length, out),
            PacketRequest::Why => out.push_text("T05"),
            PacketRequest::Registers => self.answer_registers(out),
            PacketRequest::Memory { at, length } => self.answer_memory(*at, *length, out),
            PacketRequest::Change => out.push_text(NO_CHANGE),
            PacketRequest::NoAcks | PacketRequest::Detach => out.push_text("OK"),
            _ => out.push_text(""),
        }
    }

    /// Answers a packet of this payload: adds the packets that go out, and says what comes next.
    pub fn answer(&mut self, payload: &[u8], out: &mut Packets) -> Result<Next, SessionFault> {
        match packet_request(self.alloc, payload)? {
            PacketRequest::Go(motion) => return Ok(self.begin(motion)),
            PacketRequest::Monitor(line) => return self.answer_monitor(line.as_slice(), out),
            PacketRequest::Kill => return Ok(Next::End),
            PacketRequest::Travel(count) => self.answer_travel(count, out)?,
            PacketRequest::Set(point) => self.answer_set(point, out)?,
            PacketRequest::Clear(point) => self.answer_clear(point, out)?,
            request => {
                self.answer_look(&request, out)?;
                return Ok(next_after(&request));
            }
        }
        Ok(Next::Await)
    }

    /// Adds what terminals showed, and lines that say why the machine stopped.
    fn tell_messages(&mut self, out: &mut Packets) -> Result<(), AllocError> {
        out.push_print(self.messages.text())?;
        self.messages.clear();
        Ok(())
    }

    fn tell_stop(&mut self, stop: Stop, out: &mut Packets) -> Result<(), AllocError> {
        self.going = None;
        out.push(stop_text(self.alloc, stop)?)
    }

    /// Goes on by a slice. Says whether the machine goes on after this slice; if not, gdb is told why.
    pub fn go_on(&mut self, out: &mut Packets) -> Result<bool, SessionFault> {
        let Some(going) = self.going else {
            return Ok(false);
        };
        let stop = self.slice(going)?;
        self.tell_messages(out)?;
        match stop {
            Some(stop) => {
                self.tell_stop(stop, out)?;
                Ok(false)
            }
            None => Ok(true),
        }
    }

    /// Stops the machine between two slices, since gdb asked for it.
    pub fn interrupt(&mut self, out: &mut Packets) -> Result<(), SessionFault> {
        Ok(self.tell_stop(Stop::Interrupted, out)?)
    }

    /// Stops the machine between two slices, since gdb has gone, and says so.
    pub fn cut(&mut self, out: &mut Packets) -> Result<(), SessionFault> {
        self.messages
            .add("the input has ended, and the run goes on no longer")?;
        self.tell_messages(out)?;
        self.interrupt(out)
    }
}

/// What comes after a packet that only looks was answered.
fn next_after(request: &PacketRequest) -> Next {
    match request {
        PacketRequest::NoAcks => Next::NoAcks,
        PacketRequest::Detach => Next::End,
        _ => Next::Await,
    }
}

//! `debug`: a session, which reads commands line by line and answers each.
use crate::aids::{Aids, Source};
use crate::command::{Command, CommandFault, command_of};
use crate::help::{print_help, print_help_of};
use crate::labelled::Labelled;
use crate::listing::print_listing;
use crate::refusal::print_refusal;
use crate::registers::print_registers;
use crate::showing::print_memory;
use crate::values::print_value;
use crate::verbs::{names_from, nearest_name, verb_of};
use crate::writable::Writable;
use debugger::Image;
use std::alloc::Global;
use std::io;
use std::io::{BufRead, BufReader, Read, Write};
use timeline::{Location, Origin, SessionFault, Timeline};

/// A program's run, and what is kept beside it.
#[derive(Drop)]
pub struct Session {
    pub alloc: Global,
    pub timeline: Timeline,
    pub writable: Writable,
    pub aids: Aids,
}

impl Session {
    fn print_state<O: Write>(&self, out: &mut O) -> Result<(), SessionFault> {
        self.print_place(out)?;
        print_registers(self.alloc, self.timeline.machine(), out)
    }

    /// Follows a location.
    fn watch<O: Write>(&mut self, location: Location, out: &mut O) -> Result<(), SessionFault> {
        let number = match self.timeline.follow(location) {
            Ok(number) => number,
            Err(why) => return print_refusal(why, out),
        };
        write!(out, "watch {number} at ")?;
        let lines = self.aids.lines();
        match location {
            Location::Register(register) => Ok(writeln!(out, "{register}")?),
            Location::Bytes { at, length } => {
                let at = Labelled { at, lines };
                let end = if length == 1 { "" } else { "s" };
                Ok(writeln!(out, "{at}, {length} byte{end}")?)
            }
        }
    }

    /// Prints lines of the source.
    fn list<O: Write>(&self, number: Option<usize>, out: &mut O) -> io::Result<()> {
        match self.aids.lines() {
            Some(lines) => print_listing(&self.timeline.debugger, lines, number, out),
            None => out.write_all(
                b"the program has no source here: --source FILE gives an image one\n",
            ),
        }
    }

    /// Says that a word is no command, and which one is near, or which ones begin with it.
    fn print_unknown<O: Write>(&self, word: &str, out: &mut O) -> Result<(), SessionFault> {
        let names = names_from(self.alloc, word)?;
        if names.is_empty() {
            return match nearest_name(self.alloc, word)? {
                Some(name) => Ok(writeln!(out, "unknown command: did you mean {name}?")?),
                None => Ok(out.write_all(b"unknown command: help lists all\n")?),
            };
        }
        out.write_all(b"several commands begin so:")?;
        for name in names.as_slice() {
            write!(out, " {name}")?;
        }
        Ok(out.write_all(b"\n")?)
    }

    /// Answers a line that is no command.
    fn print_fault<O: Write>(
        &self,
        fault: CommandFault,
        line: &[u8],
        out: &mut O,
    ) -> Result<(), SessionFault> {
        match (fault, asked_word(line)) {
            (CommandFault::Unknown | CommandFault::Ambiguous, Some(word)) if self.aids.some() => {
                self.print_unknown(word, out)
            }
            _ => Ok(writeln!(out, "{}", fault.text(self.aids.some()))?),
        }
    }

    /// Answers a command, and says whether the session goes on.
    fn answer<O: Write>(&mut self, command: Command, out: &mut O) -> Result<bool, SessionFault> {
        match command {
            Command::Move(motion) => self.show_motion(motion, out)?,
            Command::Break(at) => match self.timeline.debugger.break_at(at) {
                Ok(number) => writeln!(out, "break {number} at {at:08x}")?,
                Err(why) => print_refusal(why, out)?,
            },
            Command::Watch(location) => self.watch(location, out)?,
            Command::Clear(number) => match self.timeline.clear_number(number as usize) {
                Ok(()) => writeln!(out, "cleared {number}")?,
                Err(why) => print_refusal(why, out)?,
            },
            Command::Show { at, count } => {
                print_memory(self.timeline.machine().space(), at, count, out)?;
            }
            Command::State => self.print_state(out)?,
            Command::Print(what) => print_value(self.timeline.machine(), what, out)?,
            Command::List(number) => self.list(number, out)?,
            Command::Help => print_help(&self.aids, out)?,
            Command::HelpOf(verb) => print_help_of(verb, out)?,
            Command::Quit => return Ok(false),
        }
        Ok(true)
    }

    /// The command of a line, as its bytes came; None where the line is blank.
    fn read_command(&self, line: &[u8]) -> Option<Result<Command, CommandFault>> {
        let Ok(text) = str::from_utf8(line) else {
            return Some(Err(CommandFault::Unknown));
        };
        let text = text.trim_ascii();
        if text.is_empty() {
            None
        } else {
            Some(command_of(text, &self.aids))
        }
    }

    /// Reads a line and answers it, and says whether the session goes on.
    fn answer_next<B: BufRead, O: Write>(
        &mut self,
        lines: &mut B,
        line: &mut Vec<u8>,
        out: &mut O,
    ) -> Result<bool, SessionFault> {
        line.clear();
        if lines.read_until(b'\n', line)? == 0 {
            return Ok(false);
        }
        let mut goes_on = true;
        match self.read_command(line.as_slice()) {
            None => {}
            Some(Ok(command)) => goes_on = self.answer(command, out)?,
            Some(Err(fault)) => self.print_fault(fault, line.as_slice(), out)?,
        }
        out.flush()?;
        Ok(goes_on)
    }

    /// Prints what terminals show already and where the machine stands. Then it answers each line of the input before the next is read.
    fn serve<I: Read, O: Write>(&mut self, input: &mut I, out: &mut O) -> Result<(), SessionFault> {
        self.print_shown(out)?;
        self.print_place(out)?;
        out.flush()?;
        let mut lines = BufReader::new(self.alloc, input)?;
        let mut line = Vec::new(self.alloc);
        for _ in 0..u64::MAX {
            if !self.answer_next(&mut lines, &mut line, out)? {
                return Ok(());
            }
        }
        Ok(())
    }
}

/// The word of a line that should name a command: its first one, or what comes after a command, which is `help` then.
fn asked_word(line: &[u8]) -> Option<&str> {
    let text = str::from_utf8(line).ok()?.trim_ascii();
    match text.split_once(' ') {
        Some((word, rest)) if verb_of(word).is_ok() => Some(rest.trim_ascii()),
        Some((word, _)) => Some(word),
        None => Some(text),
    }
}

/// A session with a program at its first state, whose calls get the replies of a trace or of a kernel. The commands are read from the
/// input, a line each, and what one gives is flushed before the next is read. They are `step N`, `run`, `break ADDR`, `clear N`,
/// `rewind N`, `state`, `print WHAT`, `help` and `quit`. A run goes to a breakpoint, a trap, the end of the trace, or 2^40 instructions. The end of the
/// input is `quit`.
///
/// With a kernel the trace ends only where the kernel has no more replies: what terminals show is printed as it shows, and a line
/// says why there are no more replies. With a source the line of the next instruction is printed, and labels and lines name addresses.
/// With either aid the address of a trap is printed, and all of `Verb` are commands.
///
/// OutOfMemory and InputOutput end a session.
pub fn debug<I: Read, O: Write>(
    alloc: Global,
    image: Image,
    origin: Origin,
    source: Option<Source>,
    input: &mut I,
    out: &mut O,
) -> Result<(), SessionFault> {
    let mut writable = Writable::new(alloc, &image)?;
    if let Origin::Trace(replies) = &origin {
        writable.add_replies(replies.as_slice())?;
    }
    let timeline = Timeline::new(alloc, image, origin)?;
    let aids = Aids {
        is_live: timeline.live.is_some(),
        source,
    };
    let mut session = Session {
        alloc,
        timeline,
        writable,
        aids,
    };
    session.serve(input, out)
}

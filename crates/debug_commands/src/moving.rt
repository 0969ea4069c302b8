//! Does the commands that move the machine, forwards and back. Prints why the machine stopped, where, and what changed.
ghost use Rattle.std.specs.Prelude.{◌<◌};
ghost use Rattle.kernel_model.specs.World.{terminal_count};

use crate::changes::{Spaces, print_changed_memory};
use crate::command::Motion;
use crate::held::HeldChange;
use crate::quoted::print_quoted;
use crate::refusal::{print_refusal, print_refused};
use crate::registers::print_changed_registers;
use crate::session::Session;
use crate::standing::print_place_in;
use debugger::{Cause, DebugFault, Machine};
use kernel_model::TERMINALS;
use std::io;
use std::io::Write;
use timeline::{After, End, Location, SessionFault, Stop, Way, back_by, last_change, read_held};
use trap_reports::trap_report;

/// How many loans the kernel runs for a reply before a command gives up for the time being.
const LOANS: u32 = 4096;

impl Session {
    /// Prints the trap at which the machine stands; with aids also the address that it is about, and what is there.
    fn print_trap<O: Write>(&self, cause: Cause, out: &mut O) -> io::Result<()> {
        let number = cause.number();
        writeln!(out, "trap {number} {cause:?}")?;
        match trap_report(self.timeline.machine()) {
            Some(report) if self.aids.some() => {
                let (at, there) = report.place();
                writeln!(out, "  at {at:08x}, {there}")
            }
            _ => Ok(()),
        }
    }

    /// Prints what terminals show and is not printed yet.
    pub fn print_shown<O: Write>(&mut self, out: &mut O) -> io::Result<()> {
        let Some(live) = &mut self.timeline.live else {
            return Ok(());
        };
        for terminal in 0..TERMINALS as u32 {
            let more = live.tell(terminal);
            if !more.is_empty() {
                write!(out, "terminal {terminal}: ")?;
                print_quoted(more, out)?;
                out.write_all(b"\n")?;
            }
        }
        Ok(())
    }

    /// Goes on by one part, at most up to a count, and prints what terminals show then. Gives the stop, if the program stops.
    fn go_part<O: Write>(
        &mut self,
        limit: u64,
        stops: bool,
        out: &mut O,
    ) -> Result<Option<Stop>, SessionFault> {
        let most = limit.saturating_sub(self.timeline.count());
        if most == 0 {
            return Ok(Some(Stop::Done));
        }
        let way = Way {
            most,
            stops,
            loans: LOANS,
        };
        let after = self.timeline.ahead(way);
        self.print_shown(out)?;
        match after? {
            After::Stop(stop) => Ok(Some(stop)),
            After::NoReply { process } => {
                writeln!(
                    out,
                    "process {process} has no reply yet: others go on, and so does the next step or run"
                )?;
                Ok(Some(Stop::Done))
            }
            After::Part | After::Asked | After::Replied => Ok(None),
        }
    }

    /// Goes on up to a count, or to where it stops before that.
    fn go_on<O: Write>(
        &mut self,
        limit: u64,
        stops: bool,
        out: &mut O,
    ) -> Result<Stop, SessionFault> {
        for _ in 0..u64::MAX {
            if let Some(stop) = self.go_part(limit, stops, out)? {
                return Ok(stop);
            }
        }
        Ok(Stop::Done)
    }

    /// Does so many instructions, or fewer where the machine can go no further. Prints why it cannot.
    fn step<O: Write>(&mut self, n: u64, out: &mut O) -> Result<(), SessionFault> {
        let limit = self.timeline.count().saturating_add(n);
        match self.go_on(limit, false, out)? {
            Stop::End(End::Budget) => print_refusal(DebugFault::Budget, out),
            Stop::End(End::Trace | End::FaultyReply) => print_refusal(DebugFault::PastTrace, out),
            stop => self.print_stop(stop, out),
        }
    }

    /// Runs on, and prints why the run stopped.
    fn run<O: Write>(&mut self, out: &mut O) -> Result<(), SessionFault> {
        let stop = self.go_on(u64::MAX, true, out)?;
        self.print_stop(stop, out)
    }

    /// Prints why the machine stopped, unless it went as far as it was to.
    fn print_stop<O: Write>(&mut self, stop: Stop, out: &mut O) -> Result<(), SessionFault> {
        let printed = match stop {
            Stop::Break(number) => writeln!(out, "break {number}"),
            Stop::Trap(cause) => self.print_trap(cause, out),
            Stop::End(End::Budget) => out.write_all(b"limit\n"),
            Stop::End(End::Trace | End::FaultyReply) => out.write_all(b"end of trace\n"),
            Stop::End(end) => writeln!(out, "{end}"),
            Stop::Begin => out.write_all(b"beginning\n"),
            Stop::Change => return self.print_followed(out),
            Stop::Done | Stop::Watch(_) => Ok(()),
        };
        Ok(printed?)
    }

    /// Prints what the next instruction changes at a location, which the watch of a number follows. The machine stays.
    fn print_next_change<O: Write>(
        &mut self,
        number: Option<usize>,
        location: &Location,
        out: &mut O,
    ) -> Result<(), SessionFault> {
        let count = self.timeline.count();
        let mut before = Vec::new(self.alloc);
        read_held(&[*location], self.timeline.machine(), &mut before)?;
        let _ = self.timeline.debugger.step()?;
        let mut after = Vec::new(self.alloc);
        read_held(&[*location], self.timeline.machine(), &mut after)?;
        self.timeline.debugger.rewind(count)?;
        let lines = self.aids.lines();
        let (before, after) = (before.as_slice(), after.as_slice());
        let change = HeldChange {
            number,
            location: *location,
            before,
            after,
            lines,
        };
        Ok(change.print(out)?)
    }

    /// Prints what the last instruction changed of all that is followed.
    fn print_followed<O: Write>(&mut self, out: &mut O) -> Result<(), SessionFault> {
        let after = self.timeline.count();
        back_by(&mut self.timeline.debugger, 1)?;
        for place in 0..self.timeline.followed().len() {
            if let Some(follower) = self.timeline.follower(place) {
                self.print_next_change(Some(follower.number), &follower.location, out)?;
            }
        }
        self.timeline.forward(after)
    }

    /// Goes back to just before the last instruction that changed a location, and prints where that is, and what it changes. Where
    /// none did the machine stays.
    fn last<O: Write>(&mut self, location: Location, out: &mut O) -> Result<(), SessionFault> {
        let now = self.timeline.count();
        if last_change(self.alloc, &mut self.timeline.debugger, &[location])?.is_some() {
            self.print_place(out)?;
            return self.print_next_change(None, &location, out);
        }
        self.timeline.forward(now)?;
        out.write_all(b"no earlier instruction changed it\n")?;
        Ok(self.print_place(out)?)
    }

    /// Goes back to a breakpoint, a watch, or the first state.
    fn reverse<O: Write>(&mut self, out: &mut O) -> Result<(), SessionFault> {
        let stop = self.timeline.reverse()?;
        self.print_stop(stop, out)
    }

    /// Moves the machine. Prints why it stopped, unless it went as far as the command says.
    fn go<O: Write>(&mut self, motion: Motion, out: &mut O) -> Result<(), SessionFault> {
        match motion {
            Motion::Step(n) => self.step(n, out),
            Motion::Run => self.run(out),
            Motion::Rewind(n) => print_refused(self.timeline.debugger.rewind(n), out),
            Motion::Back(n) => back_by(&mut self.timeline.debugger, n),
            Motion::Reverse => self.reverse(out),
            Motion::Last(location) => self.last(location, out),
        }
    }

    /// Prints where the machine stands.
    pub fn print_place<O: Write>(&self, out: &mut O) -> io::Result<()> {
        print_place_in(self.timeline.machine(), self.aids.lines(), out)
    }

    /// Prints the registers and the memory that differ from before.
    fn print_changes<O: Write>(&self, before: &Machine, out: &mut O) -> io::Result<()> {
        let after = self.timeline.machine();
        print_changed_registers(before, after, out)?;
        let spaces = Spaces {
            before: before.space(),
            after: after.space(),
            lines: self.aids.lines(),
        };
        print_changed_memory(spaces, &self.writable, out)
    }

    /// Moves the machine, and prints why it stopped, where, and what changed.
    pub fn show_motion<O: Write>(
        &mut self,
        motion: Motion,
        out: &mut O,
    ) -> Result<(), SessionFault> {
        let before = self.timeline.machine().try_clone(self.alloc)?;
        self.go(motion, out)?;
        self.writable.add_replies(self.timeline.debugger.replies())?;
        if !matches!(motion, Motion::Last(_)) {
            self.print_place(out)?;
        }
        Ok(self.print_changes(&before, out)?)
    }
}

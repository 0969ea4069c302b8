//! What a call costs the kernel: the time of its Enter after a short history and after a long one. The calls are a write to a
//! terminal, to a file and to a pipe, and the removal of a file.
use anyhow::Error;
use assembler::assemble;
use kernel::{Core, Event, Program, SimDisk};
use std::alloc::{AllocError, Global};
use std::time::{Clock, Duration, Instant};

/// After how many events the Enters are timed first.
const SHORT: usize = 1_000;

/// How many calls are looked at there.
const CALLS: u32 = 2_000;

/// The process, and more instructions than it runs between two calls.
const PROCESS: u32 = 1;

const ENOUGH: u32 = 100;

/// Writes a byte to a terminal again and again.
const TO_A_TERMINAL: &str = "
_start: addi a1,sp,-4
        li a2,1
        li a7,2
again:  li a0,1
        ecall
        j again
";

/// Writes a byte to the start of a file again and again: each second call goes back to the start.
const TO_A_FILE: &str = "
_start: la a0,name
        li a1,1
        li a2,2
        li a7,4
        ecall
        mv s0,a0
again:  mv a0,s0
        addi a1,sp,-4
        li a2,1
        li a7,2
        ecall
        mv a0,s0
        li a1,0
        li a7,10
        ecall
        j again
.data
name:   .ascii \"f\"
";

/// Writes a byte to a pipe again and again: each second call reads it.
const TO_A_PIPE: &str = "
_start: addi a0,sp,-8
        li a7,6
        ecall
        lw s0,-8(sp)
        lw s1,-4(sp)
again:  mv a0,s1
        addi a1,sp,-12
        li a2,1
        li a7,2
        ecall
        mv a0,s0
        addi a1,sp,-12
        li a2,1
        li a7,3
        ecall
        j again
";

/// Makes a file and removes it again and again.
const FILES: &str = "
_start: la a0,name
        li a1,1
        li a2,2
        li a7,4
        ecall
        li a7,5
        ecall
        la a0,name
        li a1,1
        li a7,12
        ecall
        j _start
.data
name:   .ascii \"f\"
";

/// A program that makes the same calls again and again: what is timed, and its source. Then come how many calls a round of its has, of
/// which the last is timed, and after how many events they are timed again.
type Writer = (&'static str, &'static str, u64, usize);

/// One for each thing that is written to, and one for files that are made and removed: 1,000,000 of them.
const WRITERS: [Writer; 4] = [
    ("a write to a terminal", TO_A_TERMINAL, 1, 100_000),
    ("a write to a file", TO_A_FILE, 2, 100_000),
    ("a write to a pipe", TO_A_PIPE, 2, 100_000),
    ("the removal of a new file", FILES, 3, 6_000_000),
];

/// A run of such a program, and how many calls it made.
struct Run {
    core: Core,
    calls: u64,
    round: u64,
    long: usize,
}

impl Drop for Run {
    fn drop(self) {
        let Run {
            core: _core,
            calls: _,
            round: _,
            long: _,
        } = self;
    }
}

impl Run {
    /// The run of a program before any event, on a disk of zeros.
    fn of(alloc: Global, writer: &Writer) -> Result<Run, Error> {
        let &(_, source, round, long) = writer;
        let (image, _) = assemble(alloc, source)?;
        let program = Program { image, terminal: 0 };
        let device = SimDisk::zero(alloc)?;
        let core = Core::boot(alloc, device, vec![in alloc; program]?, Vec::new(alloc))?;
        Ok(Run {
            core,
            calls: 0,
            round,
            long,
        })
    }

    /// The process runs to its next call and makes it: the time of the Enter, where it is the last of a round.
    fn call<R: Clock>(&mut self, rt: &R) -> Result<Option<Duration>, Error> {
        self.core.apply(Event::Turn {
            pid: PROCESS,
            n: ENOUGH,
        })?;
        let start = Instant::now(rt)?;
        self.core.apply(Event::Enter { pid: PROCESS })?;
        let time = Instant::now(rt)?.duration_since(start);
        self.calls = self.calls.saturating_add(1);
        Ok(if self.calls % self.round.max(1) == 0 {
            Some(time)
        } else {
            None
        })
    }

    /// The process makes calls until there are so many events.
    fn go_to<R: Clock>(&mut self, rt: &R, events: usize) -> Result<(), Error> {
        for _ in 0..events {
            if self.core.history().len() >= events {
                break;
            }
            self.call(rt)?;
        }
        Ok(())
    }

    /// The time of the last calls of rounds among so many calls, all together, after so many events.
    fn time_after<R: Clock>(&mut self, rt: &R, events: usize) -> Result<Duration, Error> {
        self.go_to(rt, events)?;
        let mut time = Duration::ZERO;
        for _ in 0..CALLS {
            if let Some(last) = self.call(rt)? {
                time = time.saturating_add(last);
            }
        }
        Ok(time)
    }

    /// What they take after many events, in thousandths of what they take after few.
    fn ratio<R: Clock>(&mut self, rt: &R) -> Result<u128, Error> {
        let short = self.time_after(rt, SHORT)?;
        let long = self.time_after(rt, self.long)?;
        Ok(thousandths(long, short))
    }
}

/// A time, in thousandths of another.
fn thousandths(time: Duration, other: Duration) -> u128 {
    time.as_nanos().saturating_mul(1000) / other.as_nanos().max(1)
}

/// Adds a line after those before it.
fn add(lines: &mut String, line: &str) -> Result<(), AllocError> {
    if !lines.is_empty() {
        lines.push_str("\n")?;
    }
    lines.push_str(line)
}

/// What each writer's call takes after many events, in thousandths of what it takes after few.
pub fn write_lines<R: AllocGlobal + Clock>(rt: &R) -> Result<String, Error> {
    let mut lines = String::new(rt.alloc());
    for writer in &WRITERS {
        let ratio = Run::of(rt.alloc(), writer)?.ratio(rt)?;
        let &(does, _, _, long) = writer;
        let line = format!(in rt.alloc();
            "{does}: after {long} events {ratio} thousandths of its time after {SHORT}"
        )?;
        add(&mut lines, line.as_str())?;
    }
    Ok(lines)
}

//! `RepliedCalls`: the system calls that took a reply, and the lines of `monitor calls`.
use call_forms::{Call, CallText, Style};
use formats::Reg;
use machine::{Image, Machine, Reply};
use std::alloc::{AllocError, Global};
use std::io;
use std::io::Write;

/// The most calls that are printed at once.
const MOST_PRINTED: usize = 1000;

/// A call, and its reply.
#[derive(Clone, Copy)]
struct RepliedCall {
    /// How many instructions were done before it.
    count: u64,
    number: u32,
    arguments: [u32; 3],
    reply: u32,
}

impl RepliedCall {
    /// How many bytes the call wrote.
    fn written(&self) -> u64 {
        match (Call::of(self.number), self.reply.cast_signed()) {
            (Some(Call::Write), 0..) => u64::from(self.reply),
            _ => 0,
        }
    }

    /// Prints the call, with a star where it lies before a count.
    fn print<O: Write>(&self, now: u64, out: &mut O) -> io::Result<()> {
        let mark = if self.count < now { '*' } else { ' ' };
        let count = self.count;
        let text = CallText {
            number: self.number,
            arguments: self.arguments,
            style: Style::Registers,
        };
        let reply = self.reply.cast_signed();
        writeln!(out, "{mark} {count}: {text} = {reply}")
    }
}

/// The calls that took a reply, in order.
pub struct RepliedCalls {
    calls: Vec<RepliedCall>,
    /// How many bytes the calls moved.
    moved: u64,
}

impl Drop for RepliedCalls {
    fn drop(self) {
        let RepliedCalls {
            calls: _calls,
            moved: _,
        } = self;
    }
}

/// How many bytes of memory a program takes.
fn memory_of(image: &Image) -> u64 {
    let mut bytes = 0u64;
    for segment in image.segments() {
        bytes = bytes.saturating_add(u64::from(segment.memsz));
    }
    bytes
}

/// How many bytes of memory the program takes that a reply enters; 0 where it enters none.
pub fn memory_entered(reply: &Reply) -> u64 {
    match reply.image() {
        Some(image) => memory_of(image),
        None => 0,
    }
}

impl RepliedCalls {
    /// A list without calls.
    pub fn new(alloc: Global) -> RepliedCalls {
        RepliedCalls {
            calls: Vec::new(alloc),
            moved: 0,
        }
    }

    /// How many calls there are.
    pub fn count(&self) -> usize {
        self.calls.len()
    }

    /// How many bytes the calls moved: what replies stored, what was written, and the memory of the programs that were entered.
    pub fn moved(&self) -> u64 {
        self.moved
    }

    /// Adds the call at which a machine stands.
    pub fn push(&mut self, machine: &Machine, reply: &Reply) -> Result<(), AllocError> {
        let call = RepliedCall {
            count: machine.count(),
            number: machine.reg(Reg::new(17)),
            arguments: [
                machine.reg(Reg::new(10)),
                machine.reg(Reg::new(11)),
                machine.reg(Reg::new(12)),
            ],
            reply: reply.a0(),
        };
        self.calls.push(call)?;
        let stored = reply.bytes().len() as u64;
        self.moved = self
            .moved
            .saturating_add(stored)
            .saturating_add(call.written())
            .saturating_add(memory_entered(reply));
        Ok(())
    }

    /// Prints the last thousand calls, a line each, with a star at those that lie before a count.
    pub fn print<O: Write>(&self, now: u64, out: &mut O) -> io::Result<()> {
        let before = self.calls.len().saturating_sub(MOST_PRINTED);
        if before > 0 {
            writeln!(out, "{before} before these")?;
        }
        for call in self.calls.iter().skip(before) {
            call.print(now, out)?;
        }
        Ok(())
    }
}

//! Calls of a debugger that goes over kept states, back, and over a call that enters another program.
use crate::growths::images::{LOOP, assembled};
use anyhow::{Error, ensure};
use debugger::{DebugFault, Debugger, Stepped, Stopped};
use formats::Reg;
use machine::Reply;
use std::alloc::Global;
use std::hash::{DefaultHasher, Hasher};

/// A call, and a trap.
const CALLER: &str = "_start: li a0,1\necall\nebreak\n";

/// The word that the loop writes.
const WRITTEN: u32 = 0x7FFF_FFFC;

/// A call of a debugger, with what it comes to.
#[derive(Clone, Copy)]
enum Call {
    Step(Stepped),
    /// A run of at most so many instructions.
    Run(u64, Stopped),
    Rewind(u64),
    /// A breakpoint at an address, and its number.
    Break(u32, usize),
    /// How many instructions were done, and how many the last rewind did again.
    Counts(u64, u64),
}

/// What a call of a debugger came to.
#[derive(Clone, Copy, PartialEq)]
enum Came {
    Stepped(Stepped),
    Stopped(Stopped),
    Rewound,
    Set(usize),
    Counts(u64, u64),
}

impl Call {
    /// What it has to come to.
    fn wanted(self) -> Came {
        match self {
            Call::Step(stepped) => Came::Stepped(stepped),
            Call::Run(_, stopped) => Came::Stopped(stopped),
            Call::Rewind(_) => Came::Rewound,
            Call::Break(_, number) => Came::Set(number),
            Call::Counts(count, reran) => Came::Counts(count, reran),
        }
    }

    fn make(self, debugger: &mut Debugger) -> Result<Came, DebugFault> {
        match self {
            Call::Step(_) => Ok(Came::Stepped(debugger.step()?)),
            Call::Run(most, _) => Ok(Came::Stopped(debugger.run_to_break(most)?)),
            Call::Rewind(count) => {
                debugger.rewind(count)?;
                Ok(Came::Rewound)
            }
            Call::Break(at, _) => Ok(Came::Set(debugger.break_at(at)?)),
            Call::Counts(_, _) => Ok(Came::Counts(debugger.state().count(), debugger.reran())),
        }
    }

    /// Whether the call, where it is refused, keeps a part of what it did.
    fn keeps_steps(self) -> bool {
        matches!(self, Call::Run(_, _))
    }

    /// The call after a refusal, which may have left `done` of its instructions done.
    fn rest(self, done: u64) -> Call {
        match self {
            Call::Run(most, stopped) => Call::Run(most.saturating_sub(done), stopped),
            call => call,
        }
    }
}

/// The loop goes on over kept states, to a breakpoint, and back.
const OF_THE_LOOP: &[Call] = &[
    Call::Run(1023, Stopped::Limit),
    Call::Step(Stepped::Went),
    Call::Counts(1024, 0),
    Call::Run(3976, Stopped::Limit),
    Call::Counts(5000, 0),
    Call::Rewind(2047),
    Call::Counts(2047, 1023),
    Call::Break(0x0001_0004, 0),
    Call::Run(3000, Stopped::Break(0)),
    Call::Counts(2049, 1023),
    Call::Rewind(0),
    Call::Counts(0, 0),
];

/// A call whose reply has an image: the loop goes on from its first instruction.
const OVER_AN_ENTRY: &[Call] = &[
    Call::Step(Stepped::Went),
    Call::Step(Stepped::Went),
    Call::Counts(2, 0),
    Call::Run(2000, Stopped::Limit),
    Call::Rewind(1),
    Call::Counts(1, 1),
    Call::Run(1, Stopped::Limit),
    Call::Counts(2, 1),
];

/// What is seen of a debugger, as one number: its counts, the registers, and the word that the loop writes.
fn seen(debugger: &Debugger) -> u64 {
    let mut state = DefaultHasher::new();
    let machine = debugger.state();
    state.write_u64(machine.count());
    state.write_u64(debugger.reran());
    state.write_u32(machine.pc());
    for number in 0..32u8 {
        state.write_u32(machine.reg(Reg::new(number)));
    }
    state.write_u8(machine.space().byte(WRITTEN).unwrap_or(0));
    state.finish()
}

/// Makes a call, once more where it is refused for want of memory.
fn call_surely(debugger: &mut Debugger, call: Call) -> Result<Came, Error> {
    let before = seen(debugger);
    let count = debugger.state().count();
    match call.make(debugger) {
        Err(DebugFault::OutOfMemory) => {
            ensure!(
                call.keeps_steps() || seen(debugger) == before,
                "a call that was refused changed the debugger"
            );
            let done = debugger.state().count().saturating_sub(count);
            Ok(call.rest(done).make(debugger)?)
        }
        came => Ok(came?),
    }
}

fn check_calls(debugger: &mut Debugger, calls: &[Call]) -> Result<(), Error> {
    for (place, call) in calls.iter().enumerate() {
        let came = call_surely(debugger, *call)?;
        ensure!(
            came == call.wanted(),
            "call {place} comes to something else"
        );
    }
    Ok(())
}

/// The replies of a trace: none, or one whose process goes on in the loop.
fn replies_of(alloc: Global, enters: bool) -> Result<Vec<Reply>, Error> {
    let mut replies = Vec::new(alloc);
    if enters {
        replies.push(Reply::with_image(alloc, assembled(alloc, LOOP)?)?)?;
    }
    Ok(replies)
}

fn debug_once(
    alloc: Global,
    source: &str,
    enters: bool,
) -> Result<Result<Debugger, DebugFault>, Error> {
    let image = assembled(alloc, source)?;
    Ok(Debugger::new(alloc, image, replies_of(alloc, enters)?))
}

/// The debugger of a source's image, with a reply that enters the loop or without replies.
fn debug(alloc: Global, source: &str, enters: bool) -> Result<Debugger, Error> {
    match debug_once(alloc, source, enters)? {
        Err(DebugFault::OutOfMemory) => Ok(debug_once(alloc, source, enters)??),
        debugger => Ok(debugger?),
    }
}

/// Makes the calls of two debuggers.
pub fn check_debugger(alloc: Global) -> Result<(), Error> {
    let mut looping = debug(alloc, LOOP, false)?;
    check_calls(&mut looping, OF_THE_LOOP)?;
    let mut entered = debug(alloc, CALLER, true)?;
    check_calls(&mut entered, OVER_AN_ENTRY)
}

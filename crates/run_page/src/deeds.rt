//! What an event did.
use crate::event_data::EventDeed;
use crate::waits::wait_of;
use call_lines::{call_text, entered_text};
use kernel::{Answer, Core};
use kernel_model::Request;
use machine_model::{Reply, Stop};
use run_events::{EventRecord, Told};
use std::alloc::{AllocError, Global};

/// The most bytes that a call shows of what it writes or of a name.
const MOST_BYTES: usize = 8;

/// How many of the bytes that a call read a page has.
const MOST_READ: usize = 32;

fn turn(
    alloc: Global,
    core: &Core,
    pid: u32,
    ran: u32,
    stop: Stop,
) -> Result<EventDeed, AllocError> {
    let call = match core.machine(pid) {
        Ok(machine) => call_text(alloc, machine, MOST_BYTES)?,
        Err(_) => String::new(alloc),
    };
    let stop = match stop {
        Stop::Limit => "limit",
        Stop::Call => "call",
        Stop::Trap(_) => "trap",
    };
    Ok(EventDeed::Turn { ran, stop, call })
}

/// The first bytes that a call read.
fn bytes_read<'a>(request: Option<&Request>, reply: &'a Reply) -> &'a [u8] {
    match request {
        Some(Request::Read { .. }) => {
            let bytes = reply.bytes();
            bytes.get(..MOST_READ).unwrap_or(bytes)
        }
        _ => &[],
    }
}

fn entered(alloc: Global, core: &Core, done: &EventRecord<'_>) -> Result<EventDeed, AllocError> {
    let call = entered_text(alloc, done, MOST_BYTES)?;
    Ok(match done.told {
        Some(Told::Reply(reply)) => EventDeed::Call {
            call,
            reply: reply.a0().cast_signed(),
            got: hex::encode(alloc, bytes_read(done.request, reply))?,
        },
        Some(Told::Ended(status)) => EventDeed::Ends {
            call,
            status: Some(status),
        },
        None => EventDeed::Waits {
            call,
            waits: wait_of(alloc, core, done.process())?,
        },
    })
}

/// What the event did that a core accepted last.
pub fn deed_of(
    alloc: Global,
    core: &Core,
    done: &EventRecord<'_>,
) -> Result<EventDeed, AllocError> {
    match done.answer {
        Answer::Ran { count, stop } | Answer::Settled { count, stop, .. } => {
            turn(alloc, core, done.process(), count, stop)
        }
        Answer::Entered | Answer::Waits | Answer::Ended => entered(alloc, core, done),
        Answer::Cut { changes, .. } => Ok(EventDeed::Cut { takes: changes }),
        Answer::Completed { .. } => Ok(EventDeed::Complete),
        Answer::Failed => Ok(EventDeed::Fail),
    }
}

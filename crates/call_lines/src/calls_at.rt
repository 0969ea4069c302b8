//! What the call or the trap says at which a process stands.
use call_forms::{Call, CallText, Style};
use calls::request_of;
use formats::Reg;
use kernel_model::Request;
use machine::Machine;
use machine_model::Stop;
use run_events::EventRecord;
use std::alloc::{AllocError, Global};

/// A request with the bytes that the call reads of its process, if it reads some and may: of one length so many, and of each of two names
/// a little more than half as many.
pub fn style_of(request: &Request, most: usize) -> Style<'_> {
    let (bytes, most) = match request {
        Request::Write { bytes, .. } => (bytes, most),
        Request::Open { name, .. } => (name, most),
        Request::Unlink { name, .. } => (name, most),
        Request::Rename { names, .. } => (names, (most / 2).saturating_add(1)),
        Request::Exec { name, .. } => (name, most),
        Request::Exit { .. }
        | Request::Read { .. }
        | Request::Close { .. }
        | Request::Pipe { .. }
        | Request::Fork
        | Request::Wait { .. }
        | Request::GetPid
        | Request::Seek { .. }
        | Request::Sync
        | Request::Unknown => return Style::Bytes { bytes: None, most },
    };
    let bytes = bytes.as_ref().map(|bytes| bytes.as_slice());
    Style::Bytes { bytes, most }
}

/// The call at which a machine stands. None if it stands at none, or no call has its number.
pub fn call_at(machine: &Machine) -> Option<Call> {
    match machine.stopped() {
        Some(Stop::Call) => Call::of(machine.reg(Reg::new(17))),
        _ => None,
    }
}

/// The call at which a machine stands, written in this style.
pub fn text_at<'a>(machine: &Machine, style: Style<'a>) -> CallText<'a> {
    CallText {
        number: machine.reg(Reg::new(17)),
        arguments: [
            machine.reg(Reg::new(10)),
            machine.reg(Reg::new(11)),
            machine.reg(Reg::new(12)),
        ],
        style,
    }
}

/// The call or the trap at which a machine stands, with so many bytes of what is written or of a name. Empty if it stands at neither.
pub fn call_text(alloc: Global, machine: &Machine, most: usize) -> Result<String, AllocError> {
    match machine.stopped() {
        Some(Stop::Call) => {
            let request = request_of(alloc, machine)?;
            let text = text_at(machine, style_of(&request, most));
            format!(in alloc; "{text}")
        }
        Some(Stop::Trap(cause)) => {
            let number = cause.number();
            format!(in alloc; "trap {number}")
        }
        _ => String::from_str(alloc, ""),
    }
}

/// The call or the trap of an Enter, as `call_text` has it. Empty of another event.
pub fn entered_text(
    alloc: Global,
    done: &EventRecord<'_>,
    most: usize,
) -> Result<String, AllocError> {
    let Some(site) = done.call_site else {
        return Ok(String::new(alloc));
    };
    if let Stop::Trap(cause) = site.stop {
        let number = cause.number();
        return format!(in alloc; "trap {number}");
    }
    let Some(request) = done.request else {
        return Ok(String::new(alloc));
    };
    let arguments = site.arguments;
    let text = CallText {
        number: site.number,
        arguments,
        style: style_of(request, most),
    };
    format!(in alloc; "{text}")
}

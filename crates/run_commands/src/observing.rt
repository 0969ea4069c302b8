//! What watches a run of `exec`.
use call_forms::Call;
use call_lines::call_at;
use formats::Reg;
use kernel::{Core, Event};
use kernel_model::Descriptor;
use run_events::{Before, Both, Interest};
use std::alloc::{AllocError, Global};

/// Two observers as one.
pub fn both<'a, A, B>(first: &'a mut A, second: &'a mut B) -> Both<'a, A, B> {
    Both { first, second }
}

/// Whether terminals may show more after an event: after a write to one, and after a write of the disk.
pub fn may_show(core: &Core, event: Event) -> bool {
    let Event::Enter { pid } = event else {
        return matches!(event, Event::Complete { .. });
    };
    let Ok(machine) = core.machine(pid) else {
        return false;
    };
    let written = core
        .tables()
        .processes
        .descriptor(pid, machine.reg(Reg::new(10)));
    call_at(machine) == Some(Call::Write) && matches!(written, Some(Descriptor::Terminal(_)))
}

/// What is noted before an event that is a call, if calls are told.
pub fn before_call(
    alloc: Global,
    core: &Core,
    event: Event,
    are_told: bool,
) -> Result<Option<Before>, AllocError> {
    match event {
        Event::Enter { .. } if are_told => {
            Ok(Some(Before::new(alloc, core, event, Interest::Record)?))
        }
        _ => Ok(None),
    }
}

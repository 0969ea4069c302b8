//! What is noted of a core before an event, so that the event's record can be made after it.
ghost use Rattle.std.specs.Prelude.{◌≡◌, ◌<◌, length, map, IfOk};
ghost use Rattle.kernel_model.specs.Answers.{now, terminals};
ghost use Rattle.kernel_model.specs.Shown.{printed};
ghost use Rattle.kernel_model.specs.World.{terminal_count};
ghost use Rattle.run_events.specs.Accepted.{IsBefore, IsMachineOf};

use crate::call_site::{CallSite, call_site, request};
use crate::playing::Interest;
use kernel::{Core, Event, Machine};
use kernel_model::{Request, TERMINALS};
use std::alloc::{AllocError, Global};

/// A core before an event: how far it had come, and what the event's process was about to do.
pub struct Before {
    pub changes: u64,
    pub processes: usize,
    /// How many bytes were written to each terminal, shown or held back.
    pub written: [usize; TERMINALS],
    pub call_site: Option<CallSite>,
    pub request: Option<Request>,
    /// A copy of the machine of the event's process, if an observer asked for it.
    pub machine: Option<Machine>,
}

impl Drop for Before {
    fn drop(self) {
        let Before {
            changes: _,
            processes: _,
            written: _,
            call_site: _,
            request: _request,
            machine: _machine,
        } = self;
    }
}

fn count_written(core: &Core, terminal: u32) -> usize
    requires { terminal < terminal_count }
    ensures { result ≡ length (printed terminal (now core.now).log) }
{
    core.written(terminal).len()
}

fn counts_written(core: &Core) -> [usize; TERMINALS]
    ensures { result ≡ map (λ t. length (printed t (now core.now).log)) terminals }
{
    [
        count_written(core, 0),
        count_written(core, 1),
        count_written(core, 2),
        count_written(core, 3),
        count_written(core, 4),
        count_written(core, 5),
        count_written(core, 6),
        count_written(core, 7),
    ]
}

fn machine_of(alloc: Global, core: &Core, event: Event) -> Result<Option<Machine>, AllocError>
    ensures { IfOk result (IsMachineOf core.now event) }
{
    let (Event::Turn { pid, .. } | Event::Enter { pid }) = event else {
        return Ok(None);
    };
    match core.machine(pid) {
        Ok(machine) => Ok(Some(machine.try_clone(alloc)?)),
        Err(_) => Ok(None),
    }
}

fn kept_machine(
    alloc: Global,
    core: &Core,
    event: Event,
    interest: Interest,
) -> Result<Option<Machine>, AllocError>
    ensures { IfOk result (IsMachineOf core.now event) }
{
    match interest {
        Interest::Machine => machine_of(alloc, core, event),
        _ => Ok(None),
    }
}

impl Before {
    /// Notes a core that is about to apply this event.
    pub fn new(
        alloc: Global,
        core: &Core,
        event: Event,
        interest: Interest,
    ) -> Result<Before, AllocError>
        ensures { IfOk result (IsBefore core.now event) }
    {
        Ok(Before {
            changes: core.changes(),
            processes: core.tables().processes.len(),
            written: counts_written(core),
            call_site: call_site(core, event),
            request: request(alloc, core, event)?,
            machine: kept_machine(alloc, core, event, interest)?,
        })
    }
}

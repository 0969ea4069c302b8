//! A kernel that runs: its parts, and what they stand for.
ghost use Rattle.std.specs.Prelude.{◌≡◌, ◌+◌, ◌*◌, ◌^◌, ◌≤◌, length};
ghost use Rattle.kernel_step.specs.Tasks.{count_out};
ghost use Rattle.kernel_step.specs.Tests.{full_of};

use crate::system::System;
use crate::task::{LIMIT, Task};
use kernel_model::Event;

/// The parts of a running kernel, as its events leave them. What it was booted from is not among them. Contracts speak of every
/// boot of which they are the parts.
pub struct Running {
    /// The accepted events, in order.
    pub(crate) history: Vec<Event>,
    /// How many instructions the history's Turns ran, those of loans' results among them.
    pub(crate) ran: u64,
    pub(crate) tasks: Vec<Task>,
    /// How many of the tasks are out on loan: kept, so that no event has to look at each of them.
    pub(crate) out: u64,
    pub(crate) system: System,
    /// The number of the process that was lent last, 0 before any.
    pub(crate) last_lent: u32,
}

impl Drop for Running {
    fn drop(self) {
        let Running {
            history: _history,
            ran: _,
            tasks: _tasks,
            out: _,
            system: _system,
            last_lent: _,
        } = self;
    }
}

impl Running {
    /// Whether the history has no room for one more event, with two kept for each loan that is out.
    pub(crate) fn is_full(&self) -> bool
        requires kept { self.now.out ≡ count_out self.now.tasks.items }
        requires room { length self.now.history.items + 2 * count_out self.now.tasks.items ≤ 2 ^ 40 }
        ensures { result ≡ full_of (length self.now.history.items) self.now.tasks.items }
    {
        self.history.len() as u64 + 2 * self.out >= LIMIT
    }

    /// What all processes share, without the rest.
    pub(crate) fn into_system(self) -> System
        ensures { result ≡ self.system }
    {
        let Running {
            history: _history,
            ran: _,
            tasks: _tasks,
            out: _,
            system,
            last_lent: _,
        } = self;
        system
    }
}

//! The cone of an event: the events on which it rests.
ghost use Rattle.std.specs.Prelude.{◌≡◌, Some, true, if◌then◌else◌, IfOk, IfErr, OnOk};
ghost use Rattle.kernel_laws.specs.Cones.{cone};
ghost use Rattle.kernel_model.specs.Answers.{now};
ghost use Rattle.kernel_model.specs.World.{Boot};
ghost use Rattle.kernel_step.specs.Coning.{is_of_process, has_event, number_of};
ghost use Rattle.kernel_step.specs.Represents.{Represents, kernel_in};
ghost use Rattle.kernel_step.specs.declared.cones.ConeFault.TheVariants.{NoEvent, OutOfMemory};

use crate::running::Running;
use kernel_model::Event;
use std::alloc::AllocError;
use std::fmt;
use thiserror::Error;

/// Why an event's cone is not given.
#[derive(Clone, Copy, Debug, PartialEq, Eq, Error)]
pub enum ConeFault {
    /// The history has no event of this number, or it is one of the disk.
    NoEvent = 1,
    /// Memory ran out.
    OutOfMemory = 2,
}

impl ConeFault {
    /// Its number, 1 or 2.
    pub fn number(self) -> u8
        ensures { result ≡ number_of self }
    {
        self as u8
    }

    fn text(self) -> &'static str {
        match self {
            ConeFault::NoEvent => "no process has an event of this number",
            ConeFault::OutOfMemory => "out of memory",
        }
    }
}

impl fmt::Display for ConeFault {
    fn fmt<W: fmt::Write>(&self, f: &mut fmt::Formatter<W>) -> fmt::Result {
        f.write_str(self.text())
    }
}

impl From<AllocError> for ConeFault {
    ghost from_gives = { λ _ e. e ≡ OutOfMemory };

    fn from(_error: AllocError) -> ConeFault {
        ConeFault::OutOfMemory
    }
}

/// Whether an event is a process's.
fn is_of_process(event: Event) -> bool
    ensures { result ≡ is_of_process (Some event) }
{
    match event {
        Event::Turn { .. } | Event::Enter { .. } => true,
        Event::Cut | Event::Complete { .. } | Event::Fail { .. } => false,
    }
}

/// Whether there is an event of this number, counted from 1, and it is a process's.
fn has_event(events: &[Event], n: u64) -> bool
    ensures { result ≡ has_event events.now n }
{
    if n == 0 {
        return false;
    }
    if n > events.len() as u64 {
        return false;
    }
    is_of_process(events[n as usize - 1])
}

impl Running {
    /// The numbers, counted from 1 and in order, of the events in the cone of event n: event n, and those on which it rests. Refused:
    /// NoEvent, where there is no such event, or it is a Cut, a Complete or a Fail; OutOfMemory.
    pub fn cone(&self, n: u64) -> Result<Vec<u64>, ConeFault>
        requires { (b : Boot) × Represents b self.now }
        ensures numbers { IfOk result (λ numbers. (b : Boot) → Represents b self.now → numbers.items ≡ cone (now (kernel_in b self.now)) n) }
        ensures there { OnOk result (has_event self.now.history.items n ≡ true) }
        ensures fault { IfErr result (λ why. why ≡ (if has_event self.now.history.items n then OutOfMemory else NoEvent)) }
    {
        if !has_event(&self.history, n) {
            return Err(ConeFault::NoEvent);
        }
        let alloc = self.system.alloc;
        let numbers = self
            .system
            .footprints
            .cone(alloc, &self.history, n as usize)?;
        Ok(numbers)
    }
}

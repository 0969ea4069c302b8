//! Processes.
ghost use Rattle.std.specs.Prelude.{◌≡◌, Some, None, is_some, IfOk, IfErr, OnOk};
ghost use Rattle.machine_model.specs.States.{stopped_at};
ghost use Rattle.held_output.specs.Withheld.{nothing};
ghost use Rattle.kernel_model.specs.Answers.{turn_refusal, enter_refusal};

use crate::replicated::ReplicatedMachine;
use crate::whereabouts::Whereabouts;
use held_output::Trace;
use kernel_model::{Refused, Standing};
use machine::{Machine, SharedMachine};
use machine_model::Stop;
use std::alloc::{AllocError, Global};

/// The most instructions that a process does, and the most events of a run: 2^40.
pub const LIMIT: u64 = 1 << 40;

/// A process: where its machine is, what it was told, and how many loans of it there were.
pub struct Task {
    /// Its number, from 1.
    pub pid: u32,
    pub whereabouts: Whereabouts,
    /// What it was told.
    pub trace: Trace,
    /// Where its last Enter had to wait, how many Enters of all processes did not have to until then.
    pub waited: Option<u64>,
    /// How many loans of it there were.
    pub loans: u64,
}

impl Drop for Task {
    fn drop(self) {
        let Task {
            pid: _,
            whereabouts: _whereabouts,
            trace: _trace,
            waited: _,
            loans: _,
        } = self;
    }
}

impl Task {
    ghost use Rattle.kernel_step.specs.Tasks.{machine_of, out_of, process_of};
    ghost use Rattle.kernel_step.specs.Waiting.{is_asleep};
    ghost use Rattle.kernel_step.specs.Lending.{standing_in};

    /// A process as it is booted.
    pub fn new(alloc: Global, pid: u32, machine: Machine) -> Result<Task, AllocError>
        ensures pid { IfOk result (λ t. t.pid ≡ pid) }
        ensures machine { IfOk result (λ t. machine_of t ≡ machine) }
        ensures trace { IfOk result (λ t. t.trace ≡ nothing) }
        ensures waited { IfOk result (λ t. t.waited ≡ None) }
        ensures loans { IfOk result (λ t. t.loans ≡ 0) }
        ensures out { IfOk result (λ t. out_of t ≡ None) }
    {
        Task::made(alloc, pid, machine, Trace::new(alloc))
    }

    /// A process with this machine and this trace, which was never lent.
    pub fn made(alloc: Global, pid: u32, machine: Machine, trace: Trace) -> Result<Task, AllocError>
        ensures pid { IfOk result (λ t. t.pid ≡ pid) }
        ensures machine { IfOk result (λ t. machine_of t ≡ machine) }
        ensures trace { IfOk result (λ t. t.trace ≡ trace) }
        ensures waited { IfOk result (λ t. t.waited ≡ None) }
        ensures loans { IfOk result (λ t. t.loans ≡ 0) }
        ensures out { IfOk result (λ t. out_of t ≡ None) }
    {
        let machine = SharedMachine::new(alloc, machine)?;
        Ok(Task {
            pid,
            whereabouts: Whereabouts::Here(ReplicatedMachine::new(machine)),
            trace,
            waited: None,
            loans: 0,
        })
    }

    /// Its machine, or where that is out on loan, the state with which it was lent.
    pub fn machine(&self) -> &Machine
        ensures { result.now ≡ machine_of self.now }
    {
        self.whereabouts.machine()
    }

    /// Whether the process is out on loan.
    pub fn is_out(&self) -> bool
        ensures { result ≡ is_some (out_of self.now) }
    {
        self.whereabouts.is_out()
    }

    /// Whether the process still waits: no Enter was served since its own had to wait. `served` is how many were.
    pub fn is_asleep(&self, served: u64) -> bool
        ensures { result ≡ is_asleep served self.now.waited }
    {
        match self.waited {
            Some(before) => before == served,
            None => false,
        }
    }

    /// As `Core::standing`, where so many Enters were served.
    pub fn standing(&self, served: u64) -> Standing
        ensures { result ≡ standing_in served self.now }
    {
        if self.trace.has_end() {
            Standing::Ended
        } else if self.is_out() {
            Standing::Lent
        } else if self.is_asleep(served) {
            Standing::Waits
        } else {
            Standing::Free
        }
    }

    /// Why a Turn of at most n instructions is refused, memory aside, where the history may be full.
    pub fn turn_refused(&self, full: bool, n: u32) -> Option<Refused>
        ensures { result ≡ turn_refusal (Some (process_of self.now)) (is_some (out_of self.now)) full n }
    {
        if self.trace.has_end() {
            return Some(Refused::Ended);
        }
        if self.is_out() {
            return Some(Refused::Lent);
        }
        let count = self.machine().count();
        if full || count > LIMIT || count + u64::from(n) > LIMIT {
            return Some(Refused::Budget);
        }
        None
    }

    /// The call or the trap at which its machine stands, or why an Enter is refused, memory aside, where the history may be full.
    pub fn enter_stop(&self, full: bool) -> Result<Stop, Refused>
        ensures fine { OnOk result (enter_refusal (Some (process_of self.now)) (is_some (out_of self.now)) full ≡ None) }
        ensures stop { IfOk result (λ stop. stopped_at (machine_of self.now) ≡ Some stop) }
        ensures refused { IfErr result (λ why. enter_refusal (Some (process_of self.now)) (is_some (out_of self.now)) full ≡ Some why) }
    {
        if self.trace.has_end() {
            return Err(Refused::Ended);
        }
        if self.is_out() {
            return Err(Refused::Lent);
        }
        let Some(stop) = self.machine().stopped() else {
            return Err(Refused::NotStopped);
        };
        if full || self.machine().count() >= LIMIT {
            return Err(Refused::Budget);
        }
        Ok(stop)
    }
}

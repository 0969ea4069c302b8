//! Machines that are lent, and what comes back.
ghost use Rattle.std.specs.Prelude.{◌≡◌, ◌+◌, ◌<◌, ◌^◌};
ghost use Rattle.machine_model.specs.States.{run, reached_at, stopped_at};

use kernel_model::Refused;
use machine::{Machine, SharedMachine};
use machine_model::Stop;
use std::sync::Arc;

/// A machine that is lent out (dispatched), to run at most `quantum` instructions. `number` is the loan's number among those of the
/// process, from 1. `began` is the state from which it runs, shared with the kernel. A machine without a replica is copied
/// from that once it runs.
#[derive(Drop)]
pub struct Loan {
    pub pid: u32,
    pub number: u64,
    pub quantum: u32,
    pub began: Arc<Machine>,
    pub machine: SharedMachine,
    ghost same: { machine ≡ began.value },
    ghost budget: { began.value.count + quantum < 2 ^ 40 },
}

/// What a loan came to. Its type keeps that the machine is `count` instructions of the table after `began`. It stands at `stop`, or
/// `stop` is Limit and `count` the quantum.
#[derive(Drop)]
pub struct Done {
    pub pid: u32,
    pub number: u64,
    pub quantum: u32,
    pub began: Arc<Machine>,
    pub machine: SharedMachine,
    pub count: u32,
    pub stop: Stop,
    ghost ran: { run quantum began.value ≡ reached_at count machine stop },
    ghost room: { machine.count < 2 ^ 40 },
}

impl Done {
    /// The call or the trap at which its machine stands, if it stands at one. The machine is asked only where the limit stopped it.
    pub(crate) fn standing(&self) -> Option<Stop>
        ensures { result ≡ stopped_at self.now.machine }
    {
        match self.stop {
            Stop::Limit => self.machine.stopped(),
            stop => Some(stop),
        }
    }
}

/// A result that was not taken back: why, and the result itself.
#[derive(Drop)]
pub struct Rejected {
    pub why: Refused,
    pub done: Done,
}

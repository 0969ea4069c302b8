//! Makes calls of a core in which the host may refuse memory. A refused call is made once more, and then has to give what it gives
//! where nothing is refused. Between the two calls all that is seen of the core has to be as before the first; else the call is an
//! error. `tools/refused-growths.py` refuses the growths of memory. Where none is refused, each call is made once.
use crate::cores::TestCore;
use crate::seen::{seen, seen_events};
use anyhow::{Error, bail};
use bursts::{Done, Rejected, run_loan};
use kernel::{Answer, Event, Refused};

fn check_seen(core: &TestCore, before: u64) -> Result<(), Error> {
    if seen(core) == before {
        return Ok(());
    }
    bail!("a call that was refused changed what is seen of the core")
}

/// Checks that the first `count` events are still those that were there before.
fn check_events(core: &TestCore, count: usize, before: u64) -> Result<(), Error> {
    match core.history().get(..count) {
        Some(events) if seen_events(events) == before => Ok(()),
        _ => bail!("a drain that was refused changed the events before it"),
    }
}

impl TestCore {
    /// Applies an event.
    pub fn apply(&mut self, event: Event) -> Result<Result<Answer, Refused>, Error> {
        let before = seen(self);
        match self.apply_once(event) {
            Err(Refused::OutOfMemory) => {
                check_seen(self, before)?;
                Ok(self.apply_once(event))
            }
            answer => Ok(answer),
        }
    }

    /// Applies events by a script, and by a second one those before which the first stopped. Gives how many were applied.
    pub fn run_scripts(&mut self, events: &[Event]) -> usize {
        let applied = self.run_script(events);
        let rest = events.get(applied..).unwrap_or(&[]);
        applied.saturating_add(self.run_script(rest))
    }

    /// Drains, and once more where memory ran out. A drain that is refused keeps the events that it applied.
    pub fn drains(&mut self) -> Result<Result<(), Refused>, Error> {
        let count = self.history().len();
        let before = seen_events(self.history());
        match self.drain() {
            Err(Refused::OutOfMemory) => {
                check_events(self, count, before)?;
                Ok(self.drain())
            }
            drained => Ok(drained),
        }
    }

    /// Lends a process, where one may be lent, for a quantum of instructions, and runs the loan apart from the core.
    pub fn burst(&mut self, quantum: u32) -> Result<Option<Done>, Error> {
        let before = seen(self);
        let loan = match self.lend_once(quantum) {
            Err(Refused::OutOfMemory) => {
                check_seen(self, before)?;
                self.lend_once(quantum)?
            }
            loan => loan?,
        };
        Ok(loan.map(|loan| run_loan(loan)))
    }

    /// Lends this process, where it may be lent, and runs the loan apart from the core.
    pub fn burst_again(&mut self, pid: u32, quantum: u32) -> Result<Option<Done>, Error> {
        let before = seen(self);
        let loan = match self.lend_again_once(pid, quantum) {
            None => {
                check_seen(self, before)?;
                self.lend_again_once(pid, quantum)
            }
            loan => loan,
        };
        Ok(loan.map(|loan| run_loan(loan)))
    }

    /// Takes a loan's result back.
    pub fn settle(&mut self, done: Done) -> Result<Result<Answer, Rejected>, Error> {
        let before = seen(self);
        match self.settle_once(done) {
            Err(
                Rejected {
                    why: Refused::OutOfMemory,
                    done,
                },
            ) => {
                check_seen(self, before)?;
                Ok(self.settle_once(done))
            }
            answer => Ok(answer),
        }
    }
}

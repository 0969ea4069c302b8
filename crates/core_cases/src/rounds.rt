//! Lines of a case that are many events of a core: rounds of changes and commits, calls, and loans.
use crate::cores::TestCore;
use anyhow::{Error, bail};
use kernel::{Answer, Event, Refused};
use std::alloc::Global;

impl TestCore {
    /// Applies an event, once more where it is refused for want of memory. What is seen of the core is not compared.
    fn apply_surely(&mut self, event: Event) -> Result<Answer, Refused> {
        match self.apply_once(event) {
            Err(Refused::OutOfMemory) => self.apply_once(event),
            answer => answer,
        }
    }

    /// A process runs up to a call or a trap, and enters the kernel.
    pub fn call(&mut self, pid: u32) -> Result<Result<Answer, Refused>, Error> {
        self.apply(Event::Turn { pid, n: 10_000 })??;
        self.apply(Event::Enter { pid })
    }

    /// Has process 1 make calls until there are so many changes, at most a hundred calls. Gives how many changes there are.
    pub fn change_up_to(&mut self, changes: u64) -> Result<u64, Error> {
        for _ in 0..100 {
            if self.changes() >= changes {
                return Ok(self.changes());
            }
            self.apply_surely(Event::Turn { pid: 1, n: 10_000 })?;
            self.apply_surely(Event::Enter { pid: 1 })?;
        }
        bail!("process 1 makes no more changes")
    }

    /// Has process 1 make so many further changes, and cuts them as one group. Gives how many writes commit it.
    pub fn cut_after(&mut self, changes: u64) -> Result<u64, Error> {
        self.change_up_to(self.changes().saturating_add(changes))?;
        match self.apply_surely(Event::Cut)? {
            Answer::Cut { writes, .. } => Ok(writes),
            _ => bail!("this was no cut"),
        }
    }

    /// Applies so many events: each completes the write in flight that begins first on the disk, or is a Cut where none is.
    pub fn commit(&mut self, events: u64) -> Result<(), Refused> {
        for _ in 0..events {
            let event = match self.in_flight() {
                Some(at) => Event::Complete { at },
                None => Event::Cut,
            };
            self.apply_surely(event)?;
        }
        Ok(())
    }

    /// As `cut_after`, and commits the group. Gives how many writes that took.
    pub fn round(&mut self, changes: u64) -> Result<u64, Error> {
        let writes = self.cut_after(changes)?;
        self.commit(writes)?;
        if self.committed() == self.changes() {
            Ok(writes)
        } else {
            bail!("one group does not commit all changes")
        }
    }

    /// So many such rounds, and the writes that each took.
    pub fn rounds(&mut self, alloc: Global, rounds: u32, changes: u64) -> Result<Vec<u64>, Error> {
        let mut writes = Vec::new(alloc);
        for _ in 0..rounds {
            writes.push(self.round(changes)?)?;
        }
        Ok(writes)
    }

    /// Runs a loan and takes it back, where a process may be lent. Says whether one was.
    fn loan(&mut self, quantum: u32) -> Result<bool, Error> {
        let Some(done) = self.burst(quantum)? else {
            return Ok(false);
        };
        match self.settle(done)? {
            Ok(_answer) => Ok(true),
            Err(_rejected) => bail!("a result is refused"),
        }
    }

    /// Runs loans and takes them back until no process is lent, at most a hundred. Gives their number.
    pub fn loans(&mut self, quantum: u32) -> Result<u32, Error> {
        for count in 0..100 {
            if !self.loan(quantum)? {
                return Ok(count);
            }
        }
        bail!("there is no end of loans")
    }
}

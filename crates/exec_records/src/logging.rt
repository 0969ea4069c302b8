//! A log of the instructions of one process, made while a run goes on.
use commit_logs::{write_call, write_steps};
use faults::{Fault, at_path};
use kernel::{Answer, Core, Event};
use run_events::{EventRecord, Interest, Observer, Told};
use std::alloc::Global;
use std::io::Write;

/// Writes a log in the form of Spike's commit log. Nothing of it is kept, so it takes no more memory the longer a run is.
#[derive(Drop)]
pub struct StepLog<'p, W> {
    pub alloc: Global,
    /// The process whose instructions are written.
    pub pid: u32,
    /// The log's file, for faults, and the writer to it.
    pub path: &'p str,
    pub out: W,
}

impl<W: Write> StepLog<'_, W> {
    /// Writes what has not gone out.
    pub fn finish(&mut self) -> Result<(), Fault> {
        at_path(self.alloc, self.path, self.out.flush())
    }
}

impl<W: Write> Observer for StepLog<'_, W> {
    type Fault = Fault;

    ghost hears = { λ old r new. Unit {0} };

    fn wants(&self, _core: &Core, event: Event) -> Interest {
        match event {
            Event::Turn { pid, .. } if pid == self.pid => Interest::Machine,
            Event::Enter { pid } if pid == self.pid => Interest::Record,
            _ => Interest::Nothing,
        }
    }

    /// Writes the lines of a Turn of the process, which a copy of its machine does, and the line of a call that was replied to.
    fn event(&mut self, _core: &Core, done: &EventRecord<'_>) -> Result<(), Fault> {
        if done.process() != self.pid {
            return Ok(());
        }
        if let (Answer::Ran { count, .. }, Some(machine)) = (done.answer, done.machine) {
            let mut machine = machine.try_clone(self.alloc)?;
            let written = write_steps(&mut machine, u64::from(count), &mut self.out);
            at_path(self.alloc, self.path, written)?;
        }
        if let (Some(site), Some(Told::Reply(reply))) = (done.call_site, done.told) {
            let written = write_call(site.pc, reply.a0(), &mut self.out);
            at_path(self.alloc, self.path, written)?;
        }
        Ok(())
    }
}

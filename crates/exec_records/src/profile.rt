//! How often each line of a program was executed.
use crate::listing::print_listing;
use crate::step_counts::{StepCounts, count_steps};
use exec_files::LoadedProgram;
use exec_reports::Family;
use faults::Fault;
use kernel::{Answer, Core, Event, Machine};
use run_events::{EventRecord, Interest, Observer};
use std::alloc::{AllocError, Global};
use std::io::Write;

/// The most instructions of a process.
const MOST_INSTRUCTIONS: u64 = 1 << 40;

/// Counts the instructions of the processes that run the first program, and no program that they executed since. A call counts once it
/// is carried out.
#[derive(Drop)]
pub struct Profile {
    alloc: Global,
    family: Family,
    counts: StepCounts,
}

impl Profile {
    /// Before a run of so many processes.
    pub fn new(alloc: Global, processes: usize) -> Result<Profile, AllocError> {
        Ok(Profile {
            alloc,
            family: Family::new(alloc, Vec::new(alloc), processes)?,
            counts: StepCounts::new(alloc),
        })
    }

    /// Counts so many instructions of a machine, which a copy of it does.
    fn count(&mut self, machine: &Machine, steps: u32) -> Result<(), AllocError> {
        if machine.count().saturating_add(u64::from(steps)) > MOST_INSTRUCTIONS {
            return Ok(());
        }
        count_steps(machine.try_clone(self.alloc)?, steps, &mut self.counts)
    }

    /// Counts what a process did that runs the first program.
    fn add(&mut self, done: &EventRecord<'_>) -> Result<(), AllocError> {
        match (done.answer, done.machine, done.call_site) {
            (Answer::Ran { count, .. }, Some(machine), _) => self.count(machine, count),
            (Answer::Entered | Answer::Ended, _, Some(site)) if done.request.is_some() => {
                self.counts.add(site.pc)
            }
            _ => Ok(()),
        }
    }

    /// Prints each line of the program's source with how many of its instructions were executed; of an executable each function of
    /// which one was; if neither is known, each word that was.
    pub fn print<E: Write>(&self, program: &LoadedProgram, err: &mut E) -> Result<(), Fault> {
        let entries = self.counts.entries(self.alloc)?;
        print_listing(self.alloc, program, entries.as_slice(), err)
    }
}

impl Observer for Profile {
    type Fault = Fault;

    ghost hears = { λ old r new. Unit {0} };

    fn wants(&self, _core: &Core, event: Event) -> Interest {
        match event {
            Event::Turn { pid, .. } if self.family.runs_first(pid) => Interest::Machine,
            Event::Enter { .. } => Interest::Record,
            _ => Interest::Nothing,
        }
    }

    fn event(&mut self, core: &Core, done: &EventRecord<'_>) -> Result<(), Fault> {
        if self.family.runs_first(done.process()) {
            self.add(done)?;
        }
        self.family.event(core, done)
    }
}

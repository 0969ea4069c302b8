//! How much each process did.
use call_forms::Call;
use faults::Fault;
use kernel::{Answer, Core, Event};
use run_events::{EventRecord, Interest, Observer};
use std::alloc::Global;

/// How many numbers of calls there are; 0 stands for all numbers without a call.
pub const NUMBERS: usize = 15;

/// How much a process did.
#[derive(Clone, Copy)]
pub struct ProcessCounts {
    pub instructions: u64,
    /// How many calls were carried out, by their numbers.
    pub calls: [u64; NUMBERS],
}

/// How much each process did.
#[derive(Drop)]
pub struct Counts {
    /// By their numbers; there is no process 0.
    processes: Vec<ProcessCounts>,
}

const NOTHING: ProcessCounts = ProcessCounts {
    instructions: 0,
    calls: [0; NUMBERS],
};

impl Counts {
    pub fn new(alloc: Global) -> Counts {
        Counts {
            processes: Vec::new(alloc),
        }
    }

    /// What a process did; nothing if it did not run.
    pub fn of(&self, pid: u32) -> ProcessCounts {
        let counts = self.processes.as_slice().get(pid as usize);
        counts.copied().unwrap_or(NOTHING)
    }
}

impl Observer for Counts {
    type Fault = Fault;

    ghost hears = { λ old r new. Unit {0} };

    fn wants(&self, _core: &Core, event: Event) -> Interest {
        match event {
            Event::Turn { .. } | Event::Enter { .. } => Interest::Record,
            _ => Interest::Nothing,
        }
    }

    fn event(&mut self, _core: &Core, done: &EventRecord<'_>) -> Result<(), Fault> {
        let place = done.process() as usize;
        for _ in self.processes.len()..=place {
            self.processes.push(NOTHING)?;
        }
        let Some(counts) = self.processes.as_mut_slice().get_mut(place) else {
            return Ok(());
        };
        match (done.answer, done.call_site) {
            (Answer::Ran { count, .. }, _) => {
                counts.instructions = counts.instructions.saturating_add(u64::from(count));
            }
            (Answer::Entered | Answer::Ended, Some(site)) if done.request.is_some() => {
                let number = Call::of(site.number).map_or(0, |call| call.number());
                if let Some(count) = counts.calls.get_mut(number as usize) {
                    *count = count.saturating_add(1);
                }
            }
            _ => {}
        }
        Ok(())
    }
}

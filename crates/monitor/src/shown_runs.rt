//! Runs that are shown: those of scripts, and those of programs, which become scripts.
use exec_records::steps_of;
use exec_reports::{Family, print_ending};
use exec_runs::{Ending, Order, Turns};
use faults::Fault;
use kernel::Core;
use run_events::{Nobody, run};
use run_files::Subject;
use scripts::{Launch, Step};
use std::alloc::Global;
use std::io::Write;

/// A run that is shown: what it begins with, its steps, and what is known of its programs.
#[derive(Drop)]
pub struct ShownRun {
    pub launch: Launch,
    pub steps: Vec<Step>,
    pub family: Family,
}

/// Runs a core by turns, as `exec` does, to its end or until so many instructions were run.
fn run_to(alloc: Global, core: &mut Core, limit: u64) -> Result<Ending, Fault> {
    let mut turns = Turns::new(Order {
        seed: None,
        limit: Some(limit),
    });
    match run(alloc, core, &mut turns, &mut Nobody)? {
        Some(_) => Err(Fault::OutOfMemory),
        None => Ok(turns.ending()),
    }
}

impl ShownRun {
    /// A script as it is; of programs, or of set-up lines alone, the steps of their run by turns, to the end or until so many instructions
    /// were run. Then lines on `err` say where each process stands.
    pub fn of<E: Write>(
        alloc: Global,
        subject: Subject,
        limit: u64,
        err: &mut E,
    ) -> Result<ShownRun, Fault> {
        let Subject {
            launch,
            mut steps,
            programs,
        } = subject;
        let mut family = Family::new(alloc, programs, launch.programs().len())?;
        if steps.is_empty() {
            let mut core = launch.boot(alloc, None)?;
            let ending = run_to(alloc, &mut core, limit)?;
            steps = steps_of(alloc, core.history())?;
            if ending != Ending::Over {
                family.forget_executed(&core);
                print_ending(&core, &family, ending, err)?;
            }
        }
        Ok(ShownRun {
            launch,
            steps,
            family,
        })
    }
}

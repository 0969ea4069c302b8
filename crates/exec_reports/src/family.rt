//! Which program each process runs.
use call_forms::Call;
use call_lines::call_at;
use exec_files::LoadedProgram;
use faults::Fault;
use kernel::{Core, Event};
use run_events::{EventRecord, Interest, Observer, Told};
use std::alloc::{AllocError, Global};

/// The programs of a run, and which of them each process runs, as far as that is known.
pub struct Family {
    /// For each process of the boot its program, if that is known.
    programs: Vec<Option<LoadedProgram>>,
    /// For process 1 and up the place of its program, or that of a process of the boot. None also once it executed a file.
    runs: Vec<Option<usize>>,
}

impl Drop for Family {
    fn drop(self) {
        let Family {
            programs: _programs,
            runs: _runs,
        } = self;
    }
}

/// The place of a process in a list.
fn place_of(pid: u32) -> Option<usize> {
    usize::try_from(pid.checked_sub(1)?).ok()
}

/// The place of its own program for each of so many processes.
fn own_programs(alloc: Global, count: usize) -> Result<Vec<Option<usize>>, AllocError> {
    let mut runs = Vec::new(alloc);
    for place in 0..count {
        runs.push(Some(place))?;
    }
    Ok(runs)
}

/// Whether a process executed a file, by the replies that are handed out.
fn has_executed(core: &Core, pid: u32) -> bool {
    match core.trace(pid) {
        Ok(replies) => replies.iter().any(|reply| reply.has_image()),
        Err(_) => false,
    }
}

impl Family {
    /// Before the run of so many processes, of which the first ones run these programs. The programs of the other ones are not known.
    pub fn new(
        alloc: Global,
        programs: Vec<LoadedProgram>,
        processes: usize,
    ) -> Result<Family, AllocError> {
        let mut known = Vec::new(alloc);
        for program in programs {
            known.push(Some(program))?;
        }
        for _ in known.len()..processes {
            known.push(None)?;
        }
        Ok(Family {
            runs: own_programs(alloc, known.len())?,
            programs: known,
        })
    }

    /// The processes of the boot are booted again.
    pub fn reboot(&mut self, alloc: Global) -> Result<(), AllocError> {
        self.runs = own_programs(alloc, self.programs.len())?;
        Ok(())
    }

    /// The programs with which the run began, one for each process, as far as they are known.
    pub fn programs(&self) -> &[Option<LoadedProgram>] {
        self.programs.as_slice()
    }

    /// The same, to name what is known of them.
    pub fn programs_mut(&mut self) -> &mut [Option<LoadedProgram>] {
        self.programs.as_mut_slice()
    }

    fn run_by(&self, pid: u32) -> Option<usize> {
        *self.runs.as_slice().get(place_of(pid)?)?
    }

    /// Whether a process runs the first program, its own or its parent's, and has executed no file.
    pub fn runs_first(&self, pid: u32) -> bool {
        self.run_by(pid) == Some(0)
    }

    /// The program that a process runs, if it is known.
    pub fn program_of(&self, pid: u32) -> Option<&LoadedProgram> {
        self.programs.as_slice().get(self.run_by(pid)?)?.as_ref()
    }

    fn forget(&mut self, pid: u32) {
        if let Some(place) = place_of(pid)
            && let Some(runs) = self.runs.as_mut_slice().get_mut(place)
        {
            *runs = None;
        }
    }

    /// Notes an Enter of a process. The program of a file that it executed is not known. A process that it made runs the same program.
    fn note(&mut self, pid: u32, has_entered: bool, is_parent: bool) -> Result<(), AllocError> {
        if has_entered {
            self.forget(pid);
        }
        if is_parent {
            let program = self.run_by(pid);
            self.runs.push(program)?;
        }
        Ok(())
    }

    /// Forgets the program of each process that executed a file: after a run of whose events nothing was told here.
    pub fn forget_executed(&mut self, core: &Core) {
        for pid in 1..=core.tables().processes.len() as u32 {
            if has_executed(core, pid) {
                self.forget(pid);
            }
        }
    }
}

impl Observer for Family {
    type Fault = Fault;

    ghost hears = { λ old r new. Unit {0} };

    fn wants(&self, core: &Core, event: Event) -> Interest {
        let Event::Enter { pid } = event else {
            return Interest::Nothing;
        };
        match core.machine(pid).map(call_at) {
            Ok(Some(Call::Fork | Call::Exec)) => Interest::Record,
            _ => Interest::Nothing,
        }
    }

    fn event(&mut self, _core: &Core, done: &EventRecord<'_>) -> Result<(), Fault> {
        let has_entered = matches!(done.told, Some(Told::Reply(reply)) if reply.has_image());
        Ok(self.note(done.process(), has_entered, done.child.is_some())?)
    }
}

//! The parts of a kernel before any event.
ghost use Rattle.std.specs.Prelude.{ℕ, List, ◌≡◌, ◌<◌, ◌≤◌, [], length, map, IfOk};
ghost use Rattle.std.specs.List.{AllByRecursion};
ghost use Rattle.disk_model.specs.Files.{IsMade};
ghost use Rattle.disk_model.specs.Numbers.{numbered};
ghost use Rattle.disk_model.specs.Runs.{first_storage};
ghost use Rattle.kernel_model.specs.World.{Boot, most_programs};
ghost use Rattle.kernel_model.specs.Bytes.{ProgramsHoldBytes, TapesHoldBytes};
ghost use Rattle.kernel_step.specs.Booting.{boot_with, nothing_lent};
ghost use Rattle.kernel_step.specs.First.{AreFirst, AreEmpty, parts_from};
ghost use Rattle.kernel_step.specs.Represents.{Represents, kernel_in};

use crate::running::Running;
use crate::system::System;
use crate::task::Task;
use byte_list::Bytes;
use calls::TapeTable;
use commit_deps::Dependencies;
use files::FileTable;
use footprints::Footprints;
use group_commit::Committer;
use held_output::Withheld;
use kernel_model::TERMINALS;
use machine::{Image, Machine};
use pipes::PipeTable;
use processes::ProcTable;
use std::alloc::{AllocError, Global};
use std::sync::Arc;

/// A program to be booted, and the terminal, 0 to 7, for which its descriptor 1 stands.
pub struct Program {
    pub image: Image,
    pub terminal: u32,
}

impl Drop for Program {
    fn drop(self) {
        let Program {
            image: _image,
            terminal: _,
        } = self;
    }
}

impl Running {
    /// The parts of a kernel of these programs, which are processes 1 and up, and of the tapes that they read, from tape 0 on. The
    /// files are those that the disk holds, and the committer begins on that disk.
    pub fn new(
        alloc: Global,
        programs: &[Program],
        tapes: Arc<Vec<Bytes>>,
        files: FileTable,
        committer: Committer,
    ) -> Result<Running, AllocError>
        requires few { length programs.now ≤ most_programs }
        requires made { IsMade files.living }
        requires numbered { files ≡ numbered files.living }
        ensures stands { IfOk result (λ r. (disk : List ℕ) (gate : ℕ) → committer ≡ first_storage disk gate
            → Represents (boot_with programs.now tapes.value.items files.living disk gate) r) }
        ensures history { IfOk result (λ r. (b : Boot) → (kernel_in b r).history ≡ []) }
        ensures lendings { IfOk result (λ r. (b : Boot) → (kernel_in b r).lendings ≡ map nothing_lent programs.now) }
        ensures last_lent { IfOk result (λ r. (b : Boot) → (kernel_in b r).last_lent ≡ 0) }
        ensures bytes { IfOk result (λ r. (disk : List ℕ) (gate : ℕ) → ProgramsHoldBytes (boot_with programs.now tapes.value.items files.living disk gate)) }
        ensures tapes { IfOk result (λ r. (disk : List ℕ) (gate : ℕ) → TapesHoldBytes (boot_with programs.now tapes.value.items files.living disk gate)) }
    {
        hold_bytes(&tapes);
        let tasks = first_tasks(alloc, programs)?;
        let processes = first_processes(alloc, programs)?;
        let screens = empty_screens(alloc)?;
        let pipes = PipeTable::new(alloc)?;
        let system = System {
            alloc,
            dependencies: Dependencies::new(alloc),
            footprints: Footprints::new(alloc),
            changes: Vec::new(alloc),
            files,
            tapes: TapeTable::new(tapes),
            pipes,
            processes,
            served: 0,
            screens,
            committer,
        };
        Ok(Running {
            history: Vec::new(alloc),
            ran: 0,
            tasks,
            out: 0,
            system,
            last_lent: 0,
        })
    }
}

/// The tapes hold bytes. A contract sees a tape as a list of numbers, so this goes over them for the clause alone.
fn hold_bytes(tapes: &[Bytes])
    ensures { AllByRecursion (λ (tape : List ℕ). AllByRecursion (λ (byte : ℕ). byte < 256) tape) tapes.now }
{
    for tape in tapes {
        are_bytes(tape.as_slice());
    }
}

fn are_bytes(bytes: &[u8])
    ensures { AllByRecursion (λ (byte : ℕ). byte < 256) bytes.now }
{}

fn first_tasks(alloc: Global, programs: &[Program]) -> Result<Vec<Task>, AllocError>
    requires { length programs.now ≤ most_programs }
    ensures { IfOk result (λ tasks. AreFirst programs.now tasks.items) }
{
    let mut tasks = Vec::new(alloc);
    for (place, program) in programs.iter().enumerate() {
        let machine = Machine::load(alloc, &program.image)?;
        let task = Task::new(alloc, place as u32 + 1, machine)?;
        tasks.push(task)?;
    }
    Ok(tasks)
}

/// Program i reads tape i.
fn first_processes(alloc: Global, programs: &[Program]) -> Result<ProcTable, AllocError>
    requires { length programs.now ≤ most_programs }
    ensures { IfOk result (λ processes. processes.parts ≡ parts_from 0 programs.now) }
{
    let mut processes = ProcTable::new(alloc);
    for (place, program) in programs.iter().enumerate() {
        processes.boot(place as u32, program.terminal)?;
    }
    Ok(processes)
}

fn empty_screens(alloc: Global) -> Result<Vec<Withheld<u8>>, AllocError>
    ensures { IfOk result (λ screens. AreEmpty 8 screens.items) }
{
    let mut screens = Vec::new(alloc);
    for _terminal in 0..TERMINALS {
        screens.push(Withheld::new(alloc))?;
    }
    Ok(screens)
}

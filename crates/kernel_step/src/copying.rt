//! Copies of the parts of a running kernel.
ghost use Rattle.std.specs.Prelude.{◌≡◌, map, IfOk};
ghost use Rattle.kernel_model.specs.World.{Boot};
ghost use Rattle.kernel_step.specs.Copies.{parts_of, screen_of, IsSameSystem};
ghost use Rattle.kernel_step.specs.Represents.{Represents, kernel_in};
ghost use Rattle.kernel_step.specs.Whereabouts.{state_in, quantum_in};

use crate::replicated::ReplicatedMachine;
use crate::running::Running;
use crate::system::System;
use crate::task::Task;
use crate::whereabouts::Whereabouts;
use disk_model::Change;
use held_output::Withheld;
use machine::SharedMachine;
use std::alloc::{AllocError, Global};
use std::sync::Arc;

impl ReplicatedMachine {
    /// A machine in the same state, without a replica, as `Machine::try_clone` makes it.
    fn try_clone(&self, alloc: Global) -> Result<ReplicatedMachine, AllocError>
        ensures { IfOk result (λ copy. copy ≡ self.now) }
    {
        let machine = self.machine().try_clone(alloc)?;
        Ok(ReplicatedMachine::new(SharedMachine::new(alloc, machine)?))
    }
}

impl Whereabouts {
    /// The same: where the machine is out on loan, the copy waits for it too.
    fn try_clone(&self, alloc: Global) -> Result<Whereabouts, AllocError>
        ensures state { IfOk result (λ copy. state_in copy ≡ state_in self.now) }
        ensures quantum { IfOk result (λ copy. quantum_in copy ≡ quantum_in self.now) }
    {
        match self {
            Whereabouts::Here(machine) => Ok(Whereabouts::Here(machine.try_clone(alloc)?)),
            Whereabouts::Out { began, quantum } => Ok(Whereabouts::Out {
                began: Arc::try_clone(began)?,
                quantum: *quantum,
            }),
        }
    }
}

impl Task {
    fn try_clone(&self, alloc: Global) -> Result<Task, AllocError>
        ensures { IfOk result (λ copy. parts_of copy ≡ parts_of self.now) }
    {
        Ok(Task {
            pid: self.pid,
            whereabouts: self.whereabouts.try_clone(alloc)?,
            trace: self.trace.try_clone(alloc)?,
            waited: self.waited,
            loans: self.loans,
        })
    }
}

fn tasks_of(alloc: Global, tasks: &[Task]) -> Result<Vec<Task>, AllocError>
    ensures { IfOk result (λ copies. map parts_of copies.items ≡ map parts_of tasks.now) }
{
    let mut copies = Vec::new(alloc);
    for task in tasks {
        copies.push(task.try_clone(alloc)?)?;
    }
    Ok(copies)
}

fn screens_of(alloc: Global, screens: &[Withheld<u8>]) -> Result<Vec<Withheld<u8>>, AllocError>
    ensures { IfOk result (λ copies. map screen_of copies.items ≡ map screen_of screens.now) }
{
    let mut copies = Vec::new(alloc);
    for screen in screens {
        copies.push(screen.try_clone(alloc)?)?;
    }
    Ok(copies)
}

fn copy_of(alloc: Global, change: &Change) -> Result<Change, AllocError>
    ensures { IfOk result (λ copy. copy ≡ change.now) }
{
    Ok(match change {
        Change::Create(name) => Change::Create(name.try_clone(alloc)?),
        Change::Write {
            file,
            offset,
            bytes,
        } => Change::Write {
            file: *file,
            offset: *offset,
            bytes: bytes.try_clone(alloc)?,
        },
        Change::Empty(file) => Change::Empty(*file),
        Change::Remove(file) => Change::Remove(*file),
        Change::Rename { file, name } => Change::Rename {
            file: *file,
            name: name.try_clone(alloc)?,
        },
    })
}

fn changes_of(alloc: Global, changes: &[Change]) -> Result<Vec<Change>, AllocError>
    ensures { IfOk result (λ copies. copies.items ≡ changes.now) }
{
    let mut copies = Vec::new(alloc);
    for change in changes {
        copies.push(copy_of(alloc, change)?)?;
    }
    Ok(copies)
}

impl System {
    fn try_clone(&self, alloc: Global) -> Result<System, AllocError>
        ensures { IfOk result (λ copy. IsSameSystem self.now copy) }
    {
        Ok(System {
            alloc,
            dependencies: self.dependencies.try_clone(alloc)?,
            footprints: self.footprints.try_clone(alloc)?,
            changes: changes_of(alloc, &self.changes)?,
            files: self.files.try_clone()?,
            tapes: self.tapes.try_clone()?,
            pipes: self.pipes.try_clone(alloc)?,
            processes: self.processes.try_clone(alloc)?,
            served: self.served,
            screens: screens_of(alloc, &self.screens)?,
            committer: self.committer.try_clone(alloc)?,
        })
    }
}

impl Running {
    /// As `Core::try_clone`.
    pub fn try_clone(&self, alloc: Global) -> Result<Running, AllocError>
        ensures stands { IfOk result (λ copy. (b : Boot) → Represents b self.now → Represents b copy) }
        ensures same { IfOk result (λ copy. (b : Boot) → kernel_in b copy ≡ kernel_in b self.now) }
    {
        Ok(Running {
            history: self.history.to_vec(alloc)?,
            ran: self.ran,
            tasks: tasks_of(alloc, &self.tasks)?,
            out: self.out,
            system: self.system.try_clone(alloc)?,
            last_lent: self.last_lent,
        })
    }
}

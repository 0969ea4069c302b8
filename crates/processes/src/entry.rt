//! One process of the table.
ghost use Rattle.std.specs.Prelude.{◌≡◌, ◌<◌, ◌≤◌, ◌∷◌, [], List, Option, IfOk, OnOk, OnErr, length};
ghost use Rattle.processes.specs.Parts.{boot_part, child_part, ended_part, with_child, with_slots, without_child};

use crate::descriptors::Descriptors;
use kernel_model::Slot;
use std::alloc::{AllocError, Global};
use std::marker::Model;

/// What is kept of a process beside its machine.
pub struct ProcEntry {
    descriptors: Descriptors,
    children: Vec<u32>,
    status: Option<u32>,
}

impl Drop for ProcEntry {
    fn drop(self) {
        let ProcEntry {
            descriptors: _descriptors,
            children: _children,
            status: _,
        } = self;
    }
}

impl Model for ProcEntry {
    ghost use Rattle.std.specs.Prelude.{◌≡◌, ◌-◌, length, vec_capacity, vec_len};
    ghost use Rattle.processes.specs.Entries.{Entry};

    ghost Value = { Entry };

    ghost view = { λ e. record {
      part = record { descriptors = e.descriptors; children = e.children.items; status = e.status };
      room = vec_capacity e.children - vec_len e.children;
    } };

    ghost invariant = { λ e. length e.descriptors ≡ 16 };
}

impl ProcEntry {
    /// A process at boot, with the number of its tape and its terminal. Takes no memory.
    pub fn new(alloc: Global, tape: u32, terminal: u32) -> ProcEntry
        ensures { result.part ≡ boot_part tape terminal }
    {
        ProcEntry {
            descriptors: Descriptors::new(tape, terminal),
            children: Vec::new(alloc),
            status: None,
        }
    }

    /// What its descriptors stand for.
    pub fn descriptors(&self) -> &Descriptors
        ensures value { result.now ≡ self.now.part.descriptors }
        ensures few { length result.now ≤ 16 }
    {
        &self.descriptors
    }

    /// Its children that it has not collected, by rising number.
    pub fn children(&self) -> &[u32]
        ensures { result.now ≡ self.now.part.children }
    {
        self.children.as_slice()
    }

    /// The status with which it has ended, if it has.
    pub fn status(&self) -> Option<u32>
        ensures { result ≡ self.now.part.status }
    {
        self.status
    }

    /// Has a descriptor stand for something else.
    pub fn set(&mut self, slot: Slot)
        ensures { self.new ≡ record self.old { part = with_slots (slot ∷ []) self.old.part } }
    {
        self.descriptors.set(slot);
    }

    /// Takes a child off those left to collect.
    pub fn collect(&mut self, child: u32)
        ensures { self.new.part ≡ without_child child self.old.part }
    {
        self.children.retain(|other| *other != child);
    }

    /// It has ended with a status: all its descriptors are closed.
    pub fn end(&mut self, status: u32)
        ensures { self.new ≡ record self.old { part = ended_part status self.old.part } }
    {
        self.descriptors.close_all();
        self.status = Some(status);
    }

    /// Makes room for one more child.
    pub fn reserve(&mut self) -> Result<(), AllocError>
        ensures ok { OnOk result (0 < self.new.room) }
        ensures err { OnErr result (self.old.room < 1) }
        ensures part { self.new.part ≡ self.old.part }
        ensures room { self.old.room ≤ self.new.room }
    {
        self.children.reserve(1)
    }

    /// One more child, for which there is room.
    pub fn add(&mut self, child: u32)
        requires { 0 < self.old.room }
        ensures { self.new.part ≡ with_child child self.old.part }
    {
        self.children.push(child).unwrap();
    }

    /// The child of a fork: the same descriptors, and no children. Takes no memory.
    pub fn child(&self, alloc: Global) -> ProcEntry
        ensures { result.part ≡ child_part self.now.part }
    {
        ProcEntry {
            descriptors: self.descriptors.duplicate(),
            children: Vec::new(alloc),
            status: None,
        }
    }

    /// The same, in memory of its own.
    pub fn try_clone(&self, alloc: Global) -> Result<ProcEntry, AllocError>
        ensures { IfOk result (λ copy. copy.part ≡ self.now.part) }
    {
        let descriptors = self.descriptors.duplicate();
        Ok(ProcEntry {
            descriptors,
            children: self.children.to_vec(alloc)?,
            status: self.status,
        })
    }
}

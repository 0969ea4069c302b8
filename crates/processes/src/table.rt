//! The table of all processes.
ghost use Rattle.std.specs.Prelude.{◌≡◌, ◌+◌, ◌<◌, ◌≤◌, ◌++◌, ◌∷◌, [], List, length, map, IfOk, OnOk, OnErr, IfSome, Some, None};
ghost use Rattle.std.specs.Option.{option_copied, option_map};
ghost use Rattle.machine_model.specs.declared.reply.Reply.{Reply};
ghost use Rattle.kernel_model.specs.Rows.{CallEffect, descriptor_at, first_ended, most_processes, row_fork, status_in};
ghost use Rattle.kernel_model.specs.State.{Process, process_at, put_process};
ghost use Rattle.kernel_model.specs.Steps.{after_end, after_reply, forked};
ghost use Rattle.processes.specs.Parts.{Part, part_of, part_at, place_in, with_part, descriptors_in, children_in, statuses_of, boot_part, with_slots, without_child, ended_part, after_fork};
ghost use Rattle.processes.specs.Entries.{Entry};
ghost use Rattle.processes.specs.Ended.{child_of};

use crate::descriptors::Descriptors;
use crate::entry::ProcEntry;
use kernel_model::{Descriptor, Slot};
use std::alloc::{AllocError, Global};
use std::marker::Model;

/// The most processes of a run.
pub const MOST_PROCESSES: usize = 1024;

/// A child that has ended, and its status.
#[derive(Clone, Copy, Debug, PartialEq, Eq)]
pub struct EndedChild {
    pub child: u32,
    pub status: u32,
}

/// All processes of a run, each by its number from 1. Numbers are not used again.
pub struct ProcTable {
    alloc: Global,
    entries: Vec<ProcEntry>,
}

impl Drop for ProcTable {
    fn drop(self) {
        let ProcTable {
            alloc: _,
            entries: _entries,
        } = self;
    }
}

impl Model for ProcTable {
    ghost use Rattle.std.specs.Prelude.{◌-◌, ◌≤◌, length, map, vec_capacity, vec_len};
    ghost use Rattle.kernel_model.specs.Rows.{most_processes};
    ghost use Rattle.processes.specs.Entries.{Entry};
    ghost use Rattle.processes.specs.Table.{Table};

    ghost Value = { Table };

    ghost view = { λ t. record {
      parts = map (λ (e : Entry). e.part) t.entries.items;
      room = vec_capacity t.entries - vec_len t.entries;
      child_rooms = map (λ (e : Entry). e.room) t.entries.items;
    } };

    ghost invariant = { λ t. length t.entries.items ≤ most_processes };
}

impl ProcTable {
    ghost use Rattle.processes.specs.Table.{HasRoom};

    /// No processes. Takes no memory.
    pub fn new(alloc: Global) -> ProcTable
        ensures { result.parts ≡ [] }
    {
        ProcTable {
            alloc,
            entries: Vec::new(alloc),
        }
    }

    /// The same processes, in memory of their own. Refused for want of memory alone.
    pub fn try_clone(&self, alloc: Global) -> Result<ProcTable, AllocError>
        ensures { IfOk result (λ copy. copy.parts ≡ self.now.parts) }
    {
        let mut entries = Vec::with_capacity(alloc, self.entries.len())?;
        for entry in &self.entries {
            entries.push(entry.try_clone(alloc)?)?;
        }
        Ok(ProcTable { alloc, entries })
    }

    /// How many processes there ever were; one that has ended keeps its entry.
    pub fn len(&self) -> usize
        ensures count { result ≡ length self.now.parts }
        ensures few { result ≤ most_processes }
    {
        self.entries.len()
    }

    /// Adds a process as it is booted, with the numbers of its tape and its terminal.
    pub fn boot(&mut self, tape: u32, terminal: u32) -> Result<(), AllocError>
        requires { length self.old.parts < most_processes }
        ensures ok { OnOk result (self.new.parts ≡ self.old.parts ++ boot_part tape terminal ∷ []) }
        ensures err { OnErr result (self.new.parts ≡ self.old.parts) }
    {
        self.entries
            .push(ProcEntry::new(self.alloc, tape, terminal))?;
        Ok(())
    }

    fn place(&self, pid: u32) -> Option<usize>
        ensures { result ≡ place_in (length self.now.parts) pid }
    {
        let place = (pid as usize).checked_sub(1)?;
        if place < self.entries.len() {
            Some(place)
        } else {
            None
        }
    }

    fn entry(&self, pid: u32) -> Option<&ProcEntry>
        ensures { option_map (λ (e : Entry). e.part) (option_copied result) ≡ part_at self.now.parts pid }
    {
        let place = self.place(pid)?;
        Some(&self.entries[place])
    }

    /// The descriptors of a process, if it is there.
    pub fn descriptors(&self, pid: u32) -> Option<&Descriptors>
        ensures value { option_copied result ≡ option_map (λ (part : Part). part.descriptors) (part_at self.now.parts pid) }
        ensures few { IfSome result (λ ds. length ds.now ≤ 16) }
    {
        Some(self.entry(pid)?.descriptors())
    }

    /// What a descriptor of a process stands for. None where it is free, where there is none of the number, or no such process.
    pub fn descriptor(&self, pid: u32, fd: u32) -> Option<Descriptor>
        ensures { result ≡ descriptor_at (descriptors_in (part_at self.now.parts pid)) fd }
    {
        self.entry(pid)?.descriptors().get(fd)
    }

    /// The children of a process that it has not collected, by rising number; none where there is no such process.
    pub fn children(&self, pid: u32) -> &[u32]
        ensures { result.now ≡ children_in (part_at self.now.parts pid) }
    {
        match self.entry(pid) {
            Some(entry) => entry.children(),
            None => &[],
        }
    }

    /// The status with which a process has ended; None where it has not, or where there is no such process.
    pub fn status(&self, pid: u32) -> Option<u32>
        ensures { result ≡ status_in (statuses_of self.now.parts) pid }
    {
        self.entry(pid)?.status()
    }

    /// The first child by number that has ended and that the process has not collected. Takes time in the number of its children
    /// left to collect.
    pub fn ended_child(&self, pid: u32) -> Option<EndedChild>
        ensures { option_map child_of result ≡ first_ended (statuses_of self.now.parts) (children_in (part_at self.now.parts pid)) }
    {
        let children = self.children(pid);
        for child in children {
            if let Some(status) = self.status(*child) {
                return Some(EndedChild {
                    child: *child,
                    status,
                });
            }
        }
        None
    }

    /// Has a descriptor of a process stand for something else. Nothing changes where there is none of the number, or no such
    /// process.
    pub fn set(&mut self, pid: u32, slot: Slot)
        ensures exact { self.new.parts ≡ with_part self.old.parts pid (part_at self.old.parts pid) (with_slots (slot ∷ [])) }
        ensures replied { (ps : List Process) (p : Process) (e : CallEffect) (r : Reply) → self.old.parts ≡ map part_of ps
            → process_at ps pid ≡ Some p → p.status ≡ None → e.slots ≡ slot ∷ [] → e.collects ≡ None → e.child ≡ None
            → self.new.parts ≡ map part_of (put_process ps pid (after_reply p e r)) }
    {
        if let Some(place) = self.place(pid) {
            let entry = &mut self.entries[place];
            entry.set(slot);
        }
    }

    /// Frees a descriptor of a process. Nothing changes where there is none of the number, or no such process.
    pub fn clear(&mut self, pid: u32, fd: u32)
        ensures { self.new.parts ≡ with_part self.old.parts pid (part_at self.old.parts pid) (with_slots (record { fd = fd; holds = None } ∷ [])) }
    {
        self.set(
            pid,
            Slot {
                fd: fd as usize,
                holds: None,
            },
        );
    }

    /// Takes a child off those that a process has left to collect.
    pub fn collect(&mut self, pid: u32, child: u32)
        ensures exact { self.new.parts ≡ with_part self.old.parts pid (part_at self.old.parts pid) (without_child child) }
        ensures replied { (ps : List Process) (p : Process) (e : CallEffect) (r : Reply) → self.old.parts ≡ map part_of ps
            → process_at ps pid ≡ Some p → p.status ≡ None → e.slots ≡ [] → e.collects ≡ Some child → e.child ≡ None
            → self.new.parts ≡ map part_of (put_process ps pid (after_reply p e r)) }
    {
        if let Some(place) = self.place(pid) {
            let parent = &mut self.entries[place];
            parent.collect(child);
        }
    }

    /// A process ends with a status: all its descriptors are closed. Its children stay its own, and nobody will collect them. Takes
    /// no memory.
    pub fn end(&mut self, pid: u32, status: u32)
        ensures exact { self.new.parts ≡ with_part self.old.parts pid (part_at self.old.parts pid) (ended_part status) }
        ensures ended { (ps : List Process) (p : Process) → self.old.parts ≡ map part_of ps → process_at ps pid ≡ Some p
            → self.new.parts ≡ map part_of (put_process ps pid (after_end p status)) }
    {
        if let Some(place) = self.place(pid) {
            let ended = &mut self.entries[place];
            ended.end(status);
        }
    }

    /// Makes room for a fork: one more process, and one more child of this one. The processes stay as they are, whether it succeeds
    /// or not.
    pub fn reserve(&mut self, pid: u32) -> Result<(), AllocError>
        requires from_1 { 0 < pid }
        requires there { pid ≤ length self.old.parts }
        ensures ok { OnOk result (HasRoom self.new pid) }
        ensures err { OnErr result (HasRoom self.old pid → ⊥) }
        ensures parts { self.new.parts ≡ self.old.parts }
    {
        self.entries.reserve(1)?;
        let parent = &mut self.entries[pid as usize - 1];
        parent.reserve()
    }

    /// Forks a process, and gives the child's number, which is the next. The child has the same descriptors and no children, and is
    /// noted as a child. Takes no memory: `reserve` has to have made room.
    pub fn fork(&mut self, pid: u32) -> u32
        requires from_1 { 0 < pid }
        requires there { pid ≤ length self.old.parts }
        requires few { length self.old.parts < most_processes }
        requires room { HasRoom self.old pid }
        ensures child { result ≡ length self.old.parts + 1 }
        ensures exact { self.new.parts ≡ after_fork self.old.parts pid (part_at self.old.parts pid) }
        ensures forks { (ps : List Process) (p : Process) (r : Reply) → self.old.parts ≡ map part_of ps
            → process_at ps pid ≡ Some p → p.status ≡ None
            → self.new.parts ≡ map part_of (put_process ps pid (after_reply p (row_fork (length ps) p.descriptors) r) ++ forked p (Some result)) }
    {
        let number = self.entries.len() as u32 + 1;
        let parent = &mut self.entries[pid as usize - 1];
        let child = parent.child(self.alloc);
        parent.add(number);
        self.entries.push(child).unwrap();
        number
    }
}

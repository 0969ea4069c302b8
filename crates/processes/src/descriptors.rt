//! The descriptors of a process.
ghost use Rattle.std.specs.Prelude.{◌≡◌, ◌+◌, ◌<◌, ◌∷◌, length, map, replicate, slice_set, IfSome};
ghost use Rattle.kernel_model.specs.Rows.{descriptor_at, free_after, free_descriptor};
ghost use Rattle.kernel_model.specs.declared.descriptor.Descriptor.TheVariants.{Tape, Terminal};

use kernel_model::{Descriptor, Slot};
use std::marker::Model;

/// How many descriptors a process has.
const DESCRIPTORS: usize = 16;

/// The descriptors of a process, 0 to 15: what each stands for, or None where it is free.
#[derive(Drop)]
pub struct Descriptors {
    slots: [Option<Descriptor>; DESCRIPTORS],
}

impl Model for Descriptors {
    ghost use Rattle.std.specs.Prelude.{◌≡◌, List, Option, length};
    ghost use Rattle.kernel_model.specs.declared.descriptor.Descriptor.{Descriptor};

    ghost Value = { List (Option Descriptor) };

    ghost view = { λ d. d.slots };

    ghost invariant = { λ d. length d.slots ≡ 16 };
}

fn first_free(slots: &[Option<Descriptor>]) -> Option<usize>
    ensures least { result ≡ free_descriptor slots.now }
    ensures below { IfSome result (λ fd. fd < length slots.now) }
{
    slots.iter().position(|slot| slot.is_none())
}

impl Descriptors {
    /// The descriptors of a process at boot: 0 stands for its tape and 1 for its terminal.
    pub fn new(tape: u32, terminal: u32) -> Descriptors
        ensures { result ≡ Some (Tape tape) ∷ Some (Terminal terminal) ∷ replicate 14 None }
    {
        let mut slots = [None; DESCRIPTORS];
        slots[0] = Some(Descriptor::Tape(tape));
        slots[1] = Some(Descriptor::Terminal(terminal));
        Descriptors { slots }
    }

    /// What each of them stands for, by their numbers.
    pub fn as_slice(&self) -> &[Option<Descriptor>]
        ensures value { result.now ≡ self.now }
        ensures count { length self.now ≡ 16 }
    {
        &self.slots
    }

    /// What a descriptor stands for; None where it is free or there is none of the number.
    pub fn get(&self, fd: u32) -> Option<Descriptor>
        ensures { result ≡ descriptor_at self.now fd }
    {
        self.slots.get(fd as usize).copied().flatten()
    }

    /// The least free descriptor; None where all 16 stand for something.
    pub fn free(&self) -> Option<usize>
        ensures least { result ≡ free_descriptor self.now }
        ensures below { IfSome result (λ fd. fd < 16) }
    {
        first_free(&self.slots)
    }

    /// The least free descriptor after this one: the second of a new pipe's two.
    pub fn free_after(&self, fd: usize) -> Option<usize>
        requires { fd < 16 }
        ensures least { result ≡ free_after self.now (Some fd) }
        ensures below { IfSome result (λ other. other < 16) }
    {
        let after = fd + 1;
        let further = first_free(&self.slots[after..])?;
        Some(after + further)
    }

    /// Has a descriptor stand for something else. Nothing changes where there is none of the number.
    pub fn set(&mut self, slot: Slot)
        ensures { self.new ≡ slice_set self.old slot.fd slot.holds }
    {
        if slot.fd < DESCRIPTORS {
            self.slots[slot.fd] = slot.holds;
        }
    }

    /// The same descriptors once more, for the child of a fork.
    pub fn duplicate(&self) -> Descriptors
        ensures { result ≡ self.now }
    {
        Descriptors { slots: self.slots }
    }

    /// Frees all of them, as the end of a process does.
    pub fn close_all(&mut self)
        ensures { self.new ≡ map (λ d. None) self.old }
    {
        self.slots = [None; DESCRIPTORS];
    }
}

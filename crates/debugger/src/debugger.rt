//! The debugger.
ghost use Rattle.std.specs.Prelude.{◌≡◌, ◌≢◌, ℕ, [], ◌∷◌, ◌++◌, ◌+◌, ◌-◌, ◌*◌, ◌/◌, ◌%◌, ◌^◌, ◌<◌, ◌≤◌, ◌==◌, Ok, None, Some, IfSome, IfOk, IfErr, OnOk, OnErr, IsTrue, ◌↔◌};
ghost use Rattle.std.specs.Option.{option_or};
ghost use Rattle.debugger.specs.Accesses.{LeavesOutside, next_access_of};
ghost use Rattle.debugger.specs.Coasts.{Coasts, HasAll};
ghost use Rattle.debugger.specs.Edits.{Changes};
ghost use Rattle.debugger.specs.Hits.{last_below};
ghost use Rattle.debugger.specs.Keeping.{Advances, CountsKept};
ghost use Rattle.debugger.specs.Sessions.{TakesMemory, begins, break_count, break_of, halt_at, place_at};
ghost use Rattle.debugger.specs.Stops.{after_step, answer_of, least_from};
ghost use Rattle.debugger.specs.declared.fault.DebugFault.TheVariants.{BreakTableFull, NoSuchBreak, OutOfMemory, PastTrace};
ghost use Rattle.debugger.specs.declared.stops.Stepped.TheVariants.{Went};

use crate::access::Access;
use crate::breakpoints::{addresses_of, least_at};
use crate::fault::DebugFault;
use crate::halt::Halt;
use crate::hits::Hit;
use crate::kept::KeptPlace;
use crate::place::Place;
use crate::stops::{Stepped, stepped_by};
use machine::{Image, Machine, Reply};
use slab::Slab;
use std::alloc::Global;
use std::marker::Model;

/// The most instructions that a machine does: 2^40.
pub const MOST_INSTRUCTIONS: u64 = 1 << 40;

/// The places at counts that are multiples of this are kept.
pub(crate) const SPAN: u64 = 1024;

/// The most blocks of 256 bytes that a state has: those of all addresses.
const MOST_BLOCKS: u64 = 1 << 24;

/// The most breakpoints that are set at a time.
const MOST_BREAKS: usize = 64;

/// A program's machine that goes forwards and back along a trace. Its calls take the replies of the trace in order, each counting
/// as one instruction. The trace ends at a call for which no reply is left, and at one whose reply has bytes that may not be
/// written. The state is kept at each count that is a multiple of 1,024.
pub struct Debugger {
    alloc: Global,
    image: Image,
    replies: Vec<Reply>,
    place: Place,
    /// The places at the counts that are multiples of 1,024, in order: all up to the present one, and those beyond that were
    /// reached before a rewind. Each shares with the one before it what did not change.
    kept: Vec<KeptPlace>,
    /// How many blocks of 256 bytes were copied for them.
    kept_blocks: u64,
    breaks: Slab<u32>,
    reran: u64,
}

impl Drop for Debugger {
    fn drop(self) {
        let Debugger {
            alloc: _,
            image: _image,
            replies: _replies,
            place: _place,
            kept: _kept,
            kept_blocks: _,
            breaks: _breaks,
            reran: _,
        } = self;
    }
}

impl Model for Debugger {
    ghost use Rattle.debugger.specs.Sessions.{Session, session_code};

    ghost Value = { Session };

    ghost coded = { session_code };

    ghost use Rattle.debugger.specs.Keeping.{Keeps, session_of};

    ghost view = { λ d. session_of d.image d.replies.items d.place d.breaks d.reran };

    ghost invariant = { λ d. Keeps d.image d.replies.items d.place d.kept.items d.breaks };
}

impl Debugger {
    /// A program at its first state, with the replies that its calls will take, and no breakpoints.
    pub fn new(alloc: Global, image: Image, replies: Vec<Reply>) -> Result<Debugger, DebugFault>
        ensures first { IfOk result (λ debugger. debugger ≡ begins image replies.items) }
        ensures memory { IfErr result (λ why. why ≡ OutOfMemory) }
    {
        let place = Place {
            machine: Machine::load(alloc, &image)?,
            taken: 0,
        };
        let first = place.keep(alloc, None)?;
        let kept_blocks = first.own_blocks();
        let kept = vec![in alloc; first]?;
        let breaks = Slab::with_capacity(alloc, MOST_BREAKS)?;
        Ok(Debugger {
            alloc,
            image,
            replies,
            place,
            kept,
            kept_blocks,
            breaks,
            reran: 0,
        })
    }

    /// Adds a reply at the end of the trace. The states that were reached before stay, and so does what is kept. Refused, with
    /// nothing changed: OutOfMemory.
    pub fn extend(&mut self, reply: Reply) -> Result<(), DebugFault>
        ensures longer { OnOk result (self.new ≡ record self.old { replies = self.old.replies ++ reply ∷ [] }) }
        ensures stays { OnOk result ((n : ℕ) → n ≤ self.old.count → (place_at self.new n).state ≡ (place_at self.old n).state) }
        ensures memory { IfErr result (λ why. why ≡ OutOfMemory) }
        ensures same { OnErr result (self.new ≡ self.old) }
    {
        self.replies.push(reply)?;
        Ok(())
    }

    /// The trace.
    pub fn replies(&self) -> &[Reply]
        ensures { result.now ≡ self.now.replies }
    {
        self.replies.as_slice()
    }

    /// The machine as it stands.
    pub fn state(&self) -> &Machine
        ensures state { result.now ≡ (place_at self.now self.now.count).state }
        ensures count { result.now.count ≡ self.now.count }
    {
        &self.place.machine
    }

    /// Does one instruction; a call takes the next reply. At a trap it answers that, and nothing changes. Refused, with nothing
    /// changed: Budget, where the count is 2^40, which is tested first; PastTrace, where the trace ends here; OutOfMemory. Memory
    /// is taken only on the way to a count that is a multiple of 1,024, and over a call whose reply has an image.
    pub fn step(&mut self) -> Result<Stepped, DebugFault>
        ensures answer { IfOk result (λ how. answer_of self.old ≡ Ok how) }
        ensures refused { IfErr result (λ why. why ≢ OutOfMemory → answer_of self.old ≡ Err why) }
        ensures memory { IfErr result (λ why. why ≡ OutOfMemory → (answer_of self.old ≡ Ok Went) × TakesMemory self.old) }
        ensures after { self.new ≡ after_step self.old result }
    {
        if self.count() == MOST_INSTRUCTIONS {
            return Err(DebugFault::Budget);
        }
        let halt = self.go(1)?;
        stepped_by(halt)
    }

    /// Sets a breakpoint at an address, and answers its number. Takes no memory. Refused: BreakTableFull, where 64 are set.
    pub fn break_at(&mut self, at: u32) -> Result<usize, DebugFault>
        ensures free { IfOk result (λ number. break_of self.old number ≡ None) }
        ensures set { IfOk result (λ number. Changes self.old number (Some at) self.new) }
        ensures full { IfErr result (λ why. (why ≡ BreakTableFull) × (break_count self.old ≡ 64)) }
        ensures few { OnOk result (break_count self.old < 64) }
        ensures same { OnErr result (self.new ≡ self.old) }
    {
        if self.breaks.len() == MOST_BREAKS {
            return Err(DebugFault::BreakTableFull);
        }
        Ok(self.breaks.insert_reserved(at))
    }

    /// Frees the number of a breakpoint. Refused: NoSuchBreak, where none has it.
    pub fn clear(&mut self, number: usize) -> Result<(), DebugFault>
        ensures there { OnOk result (break_of self.old number ≢ None) }
        ensures freed { OnOk result (Changes self.old number None self.new) }
        ensures none { IfErr result (λ why. (why ≡ NoSuchBreak) × (break_of self.old number ≡ None)) }
        ensures same { OnErr result (self.new ≡ self.old) }
    {
        match self.breaks.try_remove(number) {
            Some(_) => Ok(()),
            None => Err(DebugFault::NoSuchBreak),
        }
    }

    /// The least number of a breakpoint at an address.
    pub fn number_at(&self, address: u32) -> Option<usize>
        ensures { result ≡ least_from 0 self.now.breaks address }
    {
        least_at(&self.breaks, address)
    }

    /// Whether no breakpoint is set.
    pub fn has_no_break(&self) -> bool
        ensures count { result ≡ (break_count self.now == 0) }
        ensures none { IsTrue result → (address : ℕ) → least_from 0 self.now.breaks address ≡ None }
    {
        self.breaks.is_empty()
    }

    /// Takes the machine back to its state after n instructions. It runs again from the greatest kept count not above n. Refused,
    /// with nothing changed: PastTrace, where n is above the present count; OutOfMemory.
    pub fn rewind(&mut self, n: u64) -> Result<(), DebugFault>
        ensures back { OnOk result (self.new ≡ record self.old { count = n; reran = n % 1024 }) }
        ensures within { OnOk result (n ≤ self.old.count) }
        ensures past { IfErr result (λ why. why ≢ OutOfMemory → (why ≡ PastTrace) × (self.old.count < n)) }
        ensures memory { IfErr result (λ why. why ≡ OutOfMemory → n ≤ self.old.count) }
        ensures same { OnErr result (self.new ≡ self.old) }
    {
        if self.place.machine.count() < n {
            return Err(DebugFault::PastTrace);
        }
        let kept = &self.kept[(n / SPAN) as usize];
        let mut place = kept.place(self.alloc)?;
        let from = place.machine.count();
        place.advance_to(self.alloc, self.replies.as_slice(), n)?;
        self.reran = place.machine.count() - from;
        self.place = place;
        Ok(())
    }

    /// How many instructions the last successful rewind ran again: n modulo 1,024 after `rewind(n)`, and 0 before any.
    pub fn reran(&self) -> u64
        ensures { result ≡ self.now.reran }
    {
        self.reran
    }

    /// What the next step loads or stores: an instruction its bytes, and a call the bytes of its reply, or all of the memory where
    /// that has an image. None where the step does neither, or where a trap or the end of the trace keeps the machine from it.
    /// What the kernel reads at a call is no load.
    pub fn next_access(&self) -> Option<Access>
        ensures access { result ≡ next_access_of (place_at self.now self.now.count) }
        ensures outside { LeavesOutside (place_at self.now self.now.count) result }
    {
        self.place.next_access(self.replies.as_slice())
    }

    /// How many bytes the kept states hold, for whoever is to end a run before it fills the host. It counts 1,024 for each state, and 384
    /// for each block of 256 bytes that was copied for one, since it was not the same in the state kept before. That is counted as
    /// states are kept, and only grows. The clause says that it is such a sum, and how many states and blocks there are at least and
    /// at most; no clause says what is shared.
    pub fn kept_bytes(&self) -> u64
        ensures least { 1024 * (self.now.count / 1024 + 1) ≤ result }
        ensures counts { CountsKept self.now.count result }
    {
        let states = self.kept.len() as u64;
        let blocks = self.kept_blocks.min(MOST_BLOCKS * states);
        1024 * states + 384 * blocks
    }

    pub(crate) fn count(&self) -> u64
        ensures value { result ≡ self.now.count }
        ensures within { result ≤ 2 ^ 40 }
    {
        self.place.machine.count()
    }

    /// The least number of a breakpoint where the machine stands.
    pub(crate) fn break_here(&self) -> Option<usize>
        ensures { result ≡ least_from 0 self.now.breaks (place_at self.now self.now.count).state.architectural.pc }
    {
        self.number_at(self.place.machine.pc())
    }

    /// The last hit below a count, if it stands where the part of 1,024 instructions begins in which that count ends, or later.
    pub(crate) fn last_hit_of_part(&self, end: u64) -> Result<Option<Hit>, DebugFault>
        requires some { 0 < end }
        requires reached { end ≤ self.now.count }
        ensures hit { IfOk result (λ hit. last_below self.now end ≡ option_or hit (last_below self.now (1024 * ((end - 1) / 1024)))) }
        ensures memory { IfErr result (λ why. why ≡ OutOfMemory) }
    {
        let kept = &self.kept[((end - 1) / SPAN) as usize];
        let mut start = kept.place(self.alloc)?;
        let hit = start.last_hit(self.alloc, self.replies.as_slice(), &self.breaks, end)?;
        Ok(hit)
    }

    /// The addresses of the breakpoints. None where memory is short.
    pub(crate) fn stops(&self) -> Option<Vec<u32>>
        ensures { IfSome result (λ stops. HasAll self.now.breaks stops.items) }
    {
        addresses_of(self.alloc, &self.breaks).ok()
    }

    /// Goes on by the machine alone, up to a count at most, and up to one of these addresses. It does not go to a count at which a
    /// state is kept: that is left to `go`, as calls are.
    pub(crate) fn coast(&mut self, stops: &[u32], limit: u64)
        requires all { HasAll self.old.breaks stops.now }
        requires ahead { self.old.count ≤ limit }
        requires budget { limit ≤ 2 ^ 40 }
        ensures { Coasts self.old limit self.new }
    {
        let count = self.place.machine.count();
        let room = SPAN * self.kept.len() as u64 - 1 - count;
        let few = (limit - count).min(room).min(u64::from(u32::MAX)) as u32;
        self.place.coast(self.alloc, stops, few);
    }

    /// Goes on by at most `max` instructions, and at least one where nothing keeps the machine from going on. Refused, with nothing
    /// changed: OutOfMemory, where `step` takes memory too.
    pub(crate) fn go(&mut self, max: u64) -> Result<Option<Halt>, DebugFault>
        requires some { 0 < max }
        requires budget { self.old.count + max ≤ 2 ^ 40 }
        ensures advances { IfOk result (λ halt. Advances self.old max halt self.new) }
        ensures cause { IfErr result (λ why. why ≡ OutOfMemory) }
        ensures onward { OnErr result (halt_at self.old self.old.count ≡ None) }
        ensures takes { OnErr result (TakesMemory self.old) }
        ensures same { OnErr result (self.new ≡ self.old) }
    {
        let room = SPAN * self.kept.len() as u64 - 1 - self.place.machine.count();
        if room == 0 {
            if let Some(halt) = self.place.halt(self.replies.as_slice()) {
                return Ok(Some(halt));
            }
            let next = self.place.next(self.alloc, self.replies.as_slice())?;
            let kept = next.keep(self.alloc, self.kept.last())?;
            let blocks = kept.own_blocks();
            self.kept.push(kept)?;
            self.kept_blocks = self.kept_blocks.saturating_add(blocks);
            self.place = next;
            return Ok(None);
        }
        let few = max.min(room).min(u64::from(u32::MAX)) as u32;
        let halt = self
            .place
            .advance(self.alloc, self.replies.as_slice(), few)?;
        Ok(halt)
    }
}

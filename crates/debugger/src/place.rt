//! A machine on its way along a trace.
ghost use Rattle.std.specs.Prelude.{◌≡◌, ◌≢◌, ℕ, ◌+◌, ◌-◌, ◌<◌, ◌≤◌, ◌^◌, true, None, Some, IfOk, OnOk, OnErr, drop, length};
ghost use Rattle.machine_model.specs.States.{stopped_at};
ghost use Rattle.debugger.specs.Traces.{EntersNext, Moves, Rests, along, brings_image, halt_of, next_at_call, next_of};
ghost use Rattle.debugger.specs.Ways.{Came, Leads, traced_at};

use crate::halt::Halt;
use machine::{Machine, Reply, Stop};
use std::alloc::{AllocError, Global};

/// How a stretch of instructions ended.
#[derive(Clone, Copy)]
enum StretchEnd {
    /// It did all that it might, or a call took its reply.
    Done,
    /// Something keeps the machine from going on.
    Halted(Halt),
    /// The machine stands at a call whose reply has an image.
    Entering,
}

/// A machine, and how many replies of the trace its calls took.
pub struct Place {
    pub machine: Machine,
    pub taken: usize,
}

impl Drop for Place {
    fn drop(self) {
        let Place {
            machine: _machine,
            taken: _,
        } = self;
    }
}

impl Place {
    /// The same place again.
    pub fn try_clone(&self, alloc: Global) -> Result<Place, AllocError>
        ensures { IfOk result (λ place. place ≡ self.now) }
    {
        Ok(Place {
            machine: self.machine.try_clone(alloc)?,
            taken: self.taken,
        })
    }

    /// What keeps the machine from going on, if anything does.
    pub fn halt(&self, replies: &[Reply]) -> Option<Halt>
        ensures { result ≡ halt_of (next_of (traced_at replies.now self.now)) }
    {
        match self.machine.stopped() {
            None => None,
            Some(Stop::Trap(cause)) => Some(Halt::Trap(cause)),
            Some(Stop::Call) => self.call_halt(replies),
            Some(Stop::Limit) => Some(Halt::EndOfTrace),
        }
    }

    fn call_halt(&self, replies: &[Reply]) -> Option<Halt>
        ensures { result ≡ halt_of (next_at_call self.now.machine (drop self.now.taken replies.now)) }
    {
        let Some(reply) = replies.get(self.taken) else {
            return Some(Halt::EndOfTrace);
        };
        if self.machine.space().takes(reply.at(), reply.bytes()) {
            None
        } else {
            Some(Halt::EndOfTrace)
        }
    }

    /// Gives the call at which the machine stands its reply, unless that has an image. Says why it did not, and then changes
    /// nothing.
    fn take_reply(&mut self, replies: &[Reply]) -> StretchEnd
        requires stands { stopped_at self.old.machine ≡ Some Stop.Call }
        requires budget { self.old.machine.count < 2 ^ 40 }
        ensures taken { result ≡ StretchEnd.Done → next_at_call self.old.machine (drop self.old.taken replies.now) ≡ Moves (traced_at replies.now self.new) }
        ensures halted { (why : Halt) → result ≡ StretchEnd.Halted why → halt_of (next_at_call self.old.machine (drop self.old.taken replies.now)) ≡ Some why }
        ensures onward { result ≡ StretchEnd.Entering → halt_of (next_at_call self.old.machine (drop self.old.taken replies.now)) ≡ None }
        ensures image { result ≡ StretchEnd.Entering → brings_image (drop self.old.taken replies.now) ≡ true }
        ensures left { result ≢ StretchEnd.Done → self.new ≡ self.old }
        ensures bound { self.old.taken ≤ length replies.now → self.new.taken ≤ length replies.now }
    {
        if let Some(halt) = self.call_halt(replies) {
            return StretchEnd::Halted(halt);
        }
        let reply = &replies[self.taken];
        if reply.has_image() {
            return StretchEnd::Entering;
        }
        self.machine.reply(reply);
        self.taken += 1;
        StretchEnd::Done
    }

    /// Enters the image of the next reply. Where memory runs out nothing changes.
    fn enter(&mut self, alloc: Global, replies: &[Reply]) -> Result<(), AllocError>
        requires enters { EntersNext (traced_at replies.now self.old) }
        requires onward { halt_of (next_of (traced_at replies.now self.old)) ≡ None }
        requires budget { self.old.machine.count < 2 ^ 40 }
        ensures leads { OnOk result (Leads 1 (traced_at replies.now self.old) (traced_at replies.now self.new)) }
        ensures same { OnErr result (self.new ≡ self.old) }
        ensures bound { self.old.taken ≤ length replies.now → self.new.taken ≤ length replies.now }
    {
        if let Some(image) = replies[self.taken].image() {
            self.machine.enter(alloc, image)?;
            self.taken += 1;
        }
        Ok(())
    }

    /// Goes on by at most `max` instructions, and at least one where nothing keeps the machine from going on. It ends before `max`
    /// at what keeps the machine, and before a call whose reply has an image. Such a call is done alone, since it takes memory.
    /// Where that runs out nothing changes.
    pub fn advance(
        &mut self,
        alloc: Global,
        replies: &[Reply],
        max: u32,
    ) -> Result<Option<Halt>, AllocError>
        requires some { 0 < max }
        requires budget { self.old.machine.count + max ≤ 2 ^ 40 }
        ensures came { IfOk result (λ halt. Came max (traced_at replies.now self.old) halt (traced_at replies.now self.new)) }
        ensures onward { OnErr result (halt_of (next_of (traced_at replies.now self.old)) ≡ None) }
        ensures enters { OnErr result (EntersNext (traced_at replies.now self.old)) }
        ensures same { OnErr result (self.new ≡ self.old) }
        ensures bound { self.old.taken ≤ length replies.now → self.new.taken ≤ length replies.now }
    {
        let mut done = 0;
        while done < max {
            let (n, end) = self.stretch(replies, max - done);
            done += n;
            match end {
                StretchEnd::Done => {},
                StretchEnd::Halted(halt) => return Ok(Some(halt)),
                StretchEnd::Entering => {
                    if done == 0 {
                        self.enter(alloc, replies)?;
                    }
                    return Ok(None);
                },
            }
        }
        Ok(None)
    }

    /// Goes on up to a count, which is at most 1,023 instructions away. Nothing keeps the machine from going on before it. Where
    /// memory runs out it stands somewhere on the way.
    pub fn advance_to(
        &mut self,
        alloc: Global,
        replies: &[Reply],
        count: u64,
    ) -> Result<(), AllocError>
        requires ahead { self.old.machine.count ≤ count }
        requires near { count ≤ self.old.machine.count + 1023 }
        requires budget { count ≤ 2 ^ 40 }
        requires onward { (n : ℕ) → self.old.machine.count + n < count → halt_of (next_of (along n (traced_at replies.now self.old))) ≡ None }
        ensures leads { OnOk result (Leads (count - self.old.machine.count) (traced_at replies.now self.old) (traced_at replies.now self.new)) }
        ensures bound { self.old.taken ≤ length replies.now → self.new.taken ≤ length replies.now }
    {
        while self.machine.count() < count {
            let rest = (count - self.machine.count()) as u32;
            let _ = self.advance(alloc, replies, rest)?;
        }
        Ok(())
    }

    /// The place one instruction on, which nothing keeps the machine from doing.
    pub fn next(&self, alloc: Global, replies: &[Reply]) -> Result<Place, AllocError>
        requires onward { halt_of (next_of (traced_at replies.now self.now)) ≡ None }
        requires budget { self.now.machine.count < 2 ^ 40 }
        ensures leads { IfOk result (λ place. Leads 1 (traced_at replies.now self.now) (traced_at replies.now place)) }
        ensures bound { IfOk result (λ place. self.now.taken ≤ length replies.now → place.taken ≤ length replies.now) }
    {
        let mut next = self.try_clone(alloc)?;
        let _ = next.advance(alloc, replies, 1)?;
        Ok(next)
    }

    /// Goes on up to a call and over it, unless its reply has an image. Says how many instructions were done: at most `max`, and at
    /// least one where it ended with neither.
    fn stretch(&mut self, replies: &[Reply], max: u32) -> (u32, StretchEnd)
        requires some { 0 < max }
        requires budget { self.old.machine.count + max ≤ 2 ^ 40 }
        ensures leads { Leads result.0 (traced_at replies.now self.old) (traced_at replies.now self.new) }
        ensures within { result.0 ≤ max }
        ensures progress { result.1 ≡ StretchEnd.Done → 0 < result.0 }
        ensures short { result.1 ≢ StretchEnd.Done → result.0 < max }
        ensures stands { (why : Halt) → result.1 ≡ StretchEnd.Halted why → halt_of (next_of (traced_at replies.now self.new)) ≡ Some why }
        ensures onward { result.1 ≡ StretchEnd.Entering → halt_of (next_of (traced_at replies.now self.new)) ≡ None }
        ensures enters { result.1 ≡ StretchEnd.Entering → EntersNext (traced_at replies.now self.new) }
        ensures taken { result.1 ≢ StretchEnd.Done → self.new.taken ≡ self.old.taken }
        ensures bound { self.old.taken ≤ length replies.now → self.new.taken ≤ length replies.now }
    {
        let (done, stop) = self.machine.run(max);
        match stop {
            Stop::Limit => (done, StretchEnd::Done),
            Stop::Trap(cause) => (done, StretchEnd::Halted(Halt::Trap(cause))),
            Stop::Call => match self.take_reply(replies) {
                StretchEnd::Done => (done + 1, StretchEnd::Done),
                StretchEnd::Halted(halt) => (done, StretchEnd::Halted(halt)),
                StretchEnd::Entering => (done, StretchEnd::Entering),
            },
        }
    }
}

//! The last breakpoint on a part of a way.
ghost use Rattle.std.specs.Prelude.{◌≡◌, ℕ, ◌+◌, ◌-◌, ◌<◌, ◌≤◌, ◌^◌, None, IfOk};
ghost use Rattle.debugger.specs.Hits.{hit_with, last_hit as last_hit_of};
ghost use Rattle.debugger.specs.Stops.{least_from};
ghost use Rattle.debugger.specs.Traces.{along, halt_of, next_of};
ghost use Rattle.debugger.specs.Ways.{traced_at};

use crate::breakpoints::{addresses_of, least_at};
use crate::place::Place;
use machine::Reply;
use slab::Slab;
use std::alloc::{AllocError, Global};

/// A count at which a breakpoint stands.
#[derive(Clone, Copy)]
pub struct Hit {
    pub count: u64,
    /// The least number of a breakpoint there.
    pub number: usize,
}

impl Place {
    /// The hit at this place, if a breakpoint stands there.
    fn hit(&self, breaks: &Slab<u32>) -> Option<Hit>
        ensures { result ≡ hit_with self.now.machine.count (least_from 0 breaks.now.slots self.now.machine.architectural.pc) }
    {
        let number = least_at(breaks, self.machine.pc())?;
        Some(Hit {
            count: self.machine.count(),
            number,
        })
    }

    /// Goes on up to a count, and answers the last hit on the way there; a breakpoint at that count is none. Nothing keeps the
    /// machine from going on before it. Where memory runs out it stands somewhere on the way.
    pub fn last_hit(
        &mut self,
        alloc: Global,
        replies: &[Reply],
        breaks: &Slab<u32>,
        end: u64,
    ) -> Result<Option<Hit>, AllocError>
        requires ahead { self.old.machine.count ≤ end }
        requires budget { end ≤ 2 ^ 40 }
        requires onward { (n : ℕ) → self.old.machine.count + n < end → halt_of (next_of (along n (traced_at replies.now self.old))) ≡ None }
        ensures { IfOk result (λ hit. hit ≡ last_hit_of breaks.now.slots (traced_at replies.now self.old) self.old.machine.count (end - self.old.machine.count)) }
    {
        let stops = addresses_of(alloc, breaks)?;
        let mut last = None;
        while self.machine.count() < end {
            last = self.hit(breaks).or(last);
            let _ = self.advance(alloc, replies, 1)?;
            let rest = end.saturating_sub(self.machine.count()).min(1023) as u32;
            self.coast(alloc, stops.as_slice(), rest);
        }
        Ok(last)
    }
}

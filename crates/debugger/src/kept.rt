//! Places as they were.
ghost use Rattle.std.specs.Prelude.{◌≡◌, IfOk};

use crate::place::Place;
use machine::KeptMachine;
use std::alloc::{AllocError, Global};
use std::marker::Model;

/// A place as it was. It shares with the one that was kept before it each block of 256 bytes that did not change.
pub struct KeptPlace {
    machine: KeptMachine,
    taken: usize,
}

impl Drop for KeptPlace {
    fn drop(self) {
        let KeptPlace {
            machine: _machine,
            taken: _,
        } = self;
    }
}

impl Model for KeptPlace {
    ghost use Rattle.debugger.specs.Places.{place_code};
    ghost use Rattle.debugger.specs.declared.place.Place.{Place};

    ghost Value = { Place };

    ghost coded = { place_code };

    ghost view = { λ k. record { machine = k.machine; taken = k.taken } };
}

impl Place {
    /// This place as it is now.
    pub fn keep(&self, alloc: Global, before: Option<&KeptPlace>) -> Result<KeptPlace, AllocError>
        ensures { IfOk result (λ kept. kept ≡ self.now) }
    {
        Ok(KeptPlace {
            machine: self.machine.keep(alloc, before.map(|kept| &kept.machine))?,
            taken: self.taken,
        })
    }
}

impl KeptPlace {
    /// A place that is as that one was.
    pub fn place(&self, alloc: Global) -> Result<Place, AllocError>
        ensures { IfOk result (λ place. place ≡ self.now) }
    {
        Ok(Place {
            machine: self.machine.machine(alloc)?,
            taken: self.taken,
        })
    }

    /// How many blocks of 256 bytes it holds that nothing else does: right after it was kept, those that were copied for it.
    pub fn own_blocks(&self) -> u64 {
        self.machine.own_blocks() as u64
    }
}

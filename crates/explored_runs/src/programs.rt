//! What is explored: programs, tapes, and the files on the disk. They are booted once.
ghost use Rattle.std.specs.Prelude.{◌≡◌, [], IfOk};

use faults::Fault;
use kernel::Core;
use scripts::Launch;
use std::alloc::{AllocError, Global};

/// Programs that were booted, before any event. Each run begins with a copy of that core.
pub struct Programs {
    pub booted: Core,
    ghost fresh: { booted.history ≡ [] },
}

impl Drop for Programs {
    fn drop(self) {
        let Programs { booted: _booted } = self;
    }
}

impl Programs {
    /// Boots them.
    pub fn of_launch(alloc: Global, launch: &Launch) -> Result<Programs, Fault> {
        let booted = launch.boot(alloc, None)?;
        Ok(Programs { booted })
    }

    /// A core of the programs before any event.
    pub fn core(&self, alloc: Global) -> Result<Core, AllocError>
        ensures boot { IfOk result (λ core. core.boot ≡ self.now.booted.boot) }
        ensures history { IfOk result (λ core. core.history ≡ []) }
    {
        self.booted.try_clone(alloc)
    }
}

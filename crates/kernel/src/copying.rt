//! Copies of a core.
ghost use Rattle.std.specs.Prelude.{◌≡◌, IfOk};

use crate::cores::Core;
use std::alloc::{AllocError, Global};
use std::sync::Arc;

impl Core {
    /// The same core once more. The two share what the programs were booted from, and the bytes of the disk until one of them completes
    /// a write. Pages of programs that may be written are copied, the others shared. A loan that is out comes back to either.
    /// Refused for want of memory alone.
    pub fn try_clone(&self, alloc: Global) -> Result<Core, AllocError>
        ensures { IfOk result (λ copy. copy ≡ self.now) }
    {
        Ok(Core {
            booted: Arc::try_clone(&self.booted)?,
            running: self.running.try_clone(alloc)?,
            sums: self.sums,
        })
    }
}

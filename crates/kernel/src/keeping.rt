//! What every core keeps.
ghost use Rattle.kernel.specs.Keeping.{KeepsLimits};

use crate::cores::Core;
use kernel_laws::groups_in_flight;

impl Core {
    /// A law of every core, by the invariant of its type: how it was booted, that each event of its history was accepted, and how
    /// far its counts go. So whoever is handed a core knows it, whatever came before. It does nothing.
    pub fn keeps_limits(&self)
        ensures { KeepsLimits self.now }
    {
        groups_in_flight();
        // Called for its clause: at most 2^50.
        let _ran = self.running.ran();
    }
}

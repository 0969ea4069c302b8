//! Runs back to a breakpoint.
ghost use Rattle.std.specs.Prelude.{◌≡◌, ◌≢◌, ◌<◌, ◌≤◌, IfOk, IfErr, OnOk, OnErr};
ghost use Rattle.debugger.specs.Backward.{GoesBack};
ghost use Rattle.debugger.specs.Hits.{IsLast};
ghost use Rattle.debugger.specs.declared.fault.DebugFault.TheVariants.{OutOfMemory, PastTrace};

use crate::debugger::{Debugger, SPAN};
use crate::fault::DebugFault;
use crate::hits::Hit;

impl Debugger {
    /// Goes back to the greatest count below the present one at which a breakpoint stands, and answers the least number of one
    /// there. Where none stands it goes to its first state, and answers None. Refused, with nothing changed: OutOfMemory.
    ///
    /// It goes by the kept states, 1,024 instructions at a time, and runs each of these parts again.
    pub fn back(&mut self) -> Result<Option<usize>, DebugFault>
        ensures back { IfOk result (λ number. GoesBack self.old 0 number self.new) }
        ensures memory { IfErr result (λ why. why ≡ OutOfMemory) }
        ensures same { OnErr result (self.new ≡ self.old) }
    {
        self.back_to(0)
    }

    /// As `back`, but to no count below `least`: where no breakpoint stands from there on, it goes to `least`, and answers None.
    /// Refused, with nothing changed: PastTrace, where `least` is above the present count; OutOfMemory.
    pub fn back_to(&mut self, least: u64) -> Result<Option<usize>, DebugFault>
        ensures back { IfOk result (λ number. GoesBack self.old least number self.new) }
        ensures within { OnOk result (least ≤ self.old.count) }
        ensures past { IfErr result (λ why. why ≢ OutOfMemory → (why ≡ PastTrace) × (self.old.count < least)) }
        ensures memory { IfErr result (λ why. why ≡ OutOfMemory → least ≤ self.old.count) }
        ensures same { OnErr result (self.new ≡ self.old) }
    {
        if self.count() < least {
            return Err(DebugFault::PastTrace);
        }
        match self.last_hit(least)? {
            Some(hit) => {
                self.rewind(hit.count)?;
                Ok(Some(hit.number))
            }
            None => {
                self.rewind(least)?;
                Ok(None)
            }
        }
    }
    /// The last hit below the present count, if it stands from a least one on.
    fn last_hit(&self, least: u64) -> Result<Option<Hit>, DebugFault>
        requires { least ≤ self.now.count }
        ensures last { IfOk result (λ hit. IsLast self.now least hit) }
        ensures memory { IfErr result (λ why. why ≡ OutOfMemory) }
    {
        if self.has_no_break() {
            return Ok(None);
        }
        let mut end = self.count();
        while least < end {
            if let Some(hit) = self.last_hit_of_part(end)? {
                if hit.count < least {
                    return Ok(None);
                }
                return Ok(Some(hit));
            }
            end = (end - 1) / SPAN * SPAN;
        }
        Ok(None)
    }
}

//! Runs to a breakpoint, and past all of them.
ghost use Rattle.std.specs.Prelude.{◌≡◌, ◌≤◌, IfOk, IfErr, OnErr};
ghost use Rattle.debugger.specs.Stops.{Stops, StopsShort, limit_of, stop_at, stop_before};
ghost use Rattle.debugger.specs.declared.fault.DebugFault.TheVariants.{OutOfMemory};

use crate::debugger::{Debugger, MOST_INSTRUCTIONS};
use crate::fault::DebugFault;
use crate::stops::{Stopped, stopped_by};

impl Debugger {
    /// The count at which a run of at most so many instructions ends at the latest.
    fn latest(&self, max: u64) -> u64
        ensures limit { result ≡ limit_of self.now max }
        ensures ahead { self.now.count ≤ result }
    {
        let from = self.count();
        from + max.min(MOST_INSTRUCTIONS - from)
    }

    /// Goes on to the first of its stops. Before each instruction: Limit, where `max` were done or the count is 2^40; then Trap or
    /// EndOfTrace. After it: Break, with the least number of a breakpoint at the program counter. Refused: OutOfMemory, which
    /// leaves the machine where the next step takes memory.
    ///
    /// Between calls, kept counts and breakpoints it goes at the speed of the machine's own runs.
    pub fn run_to_break(&mut self, max: u64) -> Result<Stopped, DebugFault>
        ensures stops { IfOk result (λ why. Stops (stop_at self.old max) self.old why self.new) }
        ensures memory { IfErr result (λ why. why ≡ OutOfMemory) }
        ensures short { OnErr result (StopsShort (stop_at self.old max) self.old self.new) }
    {
        let limit = self.latest(max);
        let stops = self.stops();
        while self.count() < limit {
            if let Some(halt) = self.go(1)? {
                return Ok(stopped_by(halt));
            }
            if let Some(stops) = &stops {
                self.coast(stops, limit);
            }
            if let Some(number) = self.break_here() {
                return Ok(Stopped::Break(number));
            }
        }
        Ok(Stopped::Limit)
    }

    /// As `run_to_break`, but past breakpoints.
    pub fn run(&mut self, max: u64) -> Result<Stopped, DebugFault>
        ensures stops { IfOk result (λ why. Stops (stop_before self.old max) self.old why self.new) }
        ensures memory { IfErr result (λ why. why ≡ OutOfMemory) }
        ensures short { OnErr result (StopsShort (stop_before self.old max) self.old self.new) }
    {
        let limit = self.latest(max);
        while self.count() < limit {
            let rest = limit - self.count();
            if let Some(halt) = self.go(rest)? {
                return Ok(stopped_by(halt));
            }
        }
        Ok(Stopped::Limit)
    }
}

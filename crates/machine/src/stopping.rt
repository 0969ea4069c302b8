//! Runs that stop before the instructions at some addresses, as a debugger's breakpoints need it.
ghost use Rattle.std.specs.Prelude.{◌≡◌, ◌+◌, ◌≤◌, ◌^◌};
ghost use Rattle.machine_model.specs.States.{reached_at};
ghost use Rattle.machine_model.specs.Stopping.{run_to as run_up_to};

use crate::machine::Machine;
use interpreter::{copies_of, run_to};
use machine_model::Stop;
use std::alloc::{AllocError, Global};

impl Machine {
    /// As `run`, but it does no instruction at one of these addresses: it stops there, as at its limit, also where it begins at
    /// one. A machine that `prepare_stops` made ready does this at the speed of a run, and another decodes each word anew that may
    /// not be written.
    pub fn run_to(&mut self, stops: &[u32], max: u32) -> (u32, Stop)
        requires { self.old.count + max ≤ 2 ^ 40 }
        ensures run { run_up_to stops.now max self.old ≡ reached_at result.0 self.new result.1 }
        ensures within { result.0 ≤ max }
        ensures count { self.new.count ≡ self.old.count + result.0 }
    {
        let (done, stop) = run_to(&mut self.architectural, &mut self.own, stops, max);
        self.count += u64::from(done);
        (done, stop)
    }

    /// Makes ready for `run_to`: the machine gets decoded words of its own also where they may not be written, since those that it
    /// shares have to stay whole for others. The runs of `run_to` drop the words at which they stop, and a later run decodes
    /// them again where it comes to them.
    pub fn prepare_stops(&mut self, alloc: Global) -> Result<(), AllocError>
        ensures { self.new ≡ self.old }
    {
        if self.own.len() == self.runs.len() {
            let mut copies = copies_of(alloc, &self.tables)?;
            self.own.append(&mut copies)?;
        }
        Ok(())
    }
}

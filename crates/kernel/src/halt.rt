//! The end of a run: what it leaves on the disk, and what a crash at any moment would.
ghost use Rattle.std.specs.Prelude.{◌≡◌, true, IfOk};
ghost use Rattle.disk_model.specs.Runs.{quiet};
ghost use Rattle.disk_model.specs.Storage.{is_quiet};
ghost use Rattle.simdisk.specs.Room.{crashed};
ghost use Rattle.kernel_laws.specs.Crashes.{HoldsPrefix};
ghost use Rattle.kernel_laws.specs.Resuming.{IsSound, MayLeave};
ghost use Rattle.kernel_model.specs.Answers.{now};

use crate::cores::Core;
use kernel_laws::crashes_keep_the_committed;
use simdisk::{SimDisk, fills_are_crashes};
use std::alloc::AllocError;

impl Core {
    /// The disk that a crash leaves now. The ranges of writes in flight or failed take these bytes, by rising place, again and
    /// again from the start; an empty fill leaves the completed bytes. It holds the files after a prefix of the run's changes, with
    /// every committed one in it. A core can be booted on it: `runs_go_on` says with which files. Takes no memory.
    pub fn halt(self, fill: &[u8]) -> SimDisk
        ensures device { result ≡ quiet (crashed (now self).storage.device fill.now) }
        ensures quiet { is_quiet result ≡ true }
        ensures sound { IsSound self.boot }
        ensures left { MayLeave (now self) result.disk }
        ensures holds { HoldsPrefix self.boot (now self) result.disk }
    {
        crashes_keep_the_committed();
        fills_are_crashes();
        self.into_running().crash(fill)
    }

    /// The disk that `halt` would leave for this fill now, in memory of its own: 2 MiB are copied. The core goes on. Fails for
    /// want of memory alone.
    pub fn after_crash(&self, fill: &[u8]) -> Result<SimDisk, AllocError>
        ensures device { IfOk result (λ disk. disk ≡ quiet (crashed (now self.now).storage.device fill.now)) }
        ensures quiet { IfOk result (λ disk. is_quiet disk ≡ true) }
        ensures sound { IsSound self.now.boot }
        ensures left { IfOk result (λ disk. MayLeave (now self.now) disk.disk) }
        ensures holds { IfOk result (λ disk. HoldsPrefix self.now.boot (now self.now) disk.disk) }
    {
        crashes_keep_the_committed();
        fills_are_crashes();
        self.running.after_crash(fill)
    }
}

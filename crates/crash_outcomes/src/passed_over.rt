//! `PassedOver`: how many disks no crash of a run leaves.
ghost use Rattle.std.specs.Prelude.{◌≡◌, ◌+◌, ◌-◌, ◌<◌, ◌^◌};

use kernel::{Answer, Core};
use std::fmt;

/// How many disks no crash of a run leaves. It prints as the end of a line, empty where there are none.
#[derive(Clone, Copy)]
pub struct PassedOver {
    /// Those between changes of one group, which come to the disk at once.
    between: u64,
    /// Those after changes that were never cut.
    uncut: u64,
    /// How many changes were cut since the last boot.
    cut: u64,
}

impl PassedOver {
    /// None yet.
    pub const NONE: PassedOver = PassedOver {
        between: 0,
        uncut: 0,
        cut: 0,
    };

    /// Counts a group of so many changes.
    fn cut_group(&mut self, changes: u64)
        ensures between { self.old.between + changes < 2 ^ 64 → self.new.between ≡ self.old.between + (changes - 1) }
        ensures cut { self.old.cut + changes < 2 ^ 64 → self.new.cut ≡ self.old.cut + changes }
    {
        self.between = self.between.saturating_add(changes.saturating_sub(1));
        self.cut = self.cut.saturating_add(changes);
    }

    /// Counts what was never cut of so many changes.
    fn leave(&mut self, changes: u64)
        ensures uncut { self.old.uncut + changes < 2 ^ 64 → self.new.uncut ≡ self.old.uncut + (changes - self.old.cut) }
        ensures cut { self.new.cut ≡ 0 }
    {
        self.uncut = self.uncut.saturating_add(changes.saturating_sub(self.cut));
        self.cut = 0;
    }

    /// Is told of each event.
    pub fn after(&mut self, answer: Answer) {
        if let Answer::Cut { changes, .. } = answer {
            self.cut_group(changes);
        }
    }

    /// Is told at the end of a run, and before a `crash` line ends one.
    pub fn end(&mut self, core: &Core) {
        self.leave(core.changes());
    }
}

impl fmt::Display for PassedOver {
    fn fmt<W: fmt::Write>(&self, f: &mut fmt::Formatter<W>) -> fmt::Result {
        let (between, uncut) = (self.between, self.uncut);
        if between > 0 {
            write!(
                f,
                "; {between} disks between changes of one group were not tried"
            )?;
        }
        if uncut > 0 {
            write!(
                f,
                "; {uncut} disks after changes that were never cut were not tried"
            )?;
        }
        Ok(())
    }
}

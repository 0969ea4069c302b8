//! `Completions`: counts the completions of a run, one of which may have to fail.
ghost use Rattle.std.specs.Prelude.{◌≡◌, unwrap_or};
ghost use Rattle.durable_disk.specs.Stages.{completes, left_after};

use std::marker::Model;

/// Which completion is to fail. Contracts see its number among those that are still to come, the first being 1. By 0 none is.
#[derive(Drop)]
pub struct Completions {
    fails: u32,
}

impl Model for Completions {
    ghost use Rattle.std.specs.Prelude.{ℕ};

    ghost Value = { ℕ };

    ghost view = { λ c. c.fails };
}

impl Completions {
    /// None as yet. The completion of this number fails, the first being 1; by None, or by 0, none does.
    pub fn none(fails: Option<u32>) -> Completions
        ensures { result ≡ unwrap_or fails 0 }
    {
        Completions {
            fails: fails.unwrap_or(0),
        }
    }

    /// Whether a write that ends is complete: it is stored, and its completion is not the one that fails. One that is stored counts.
    pub fn is_complete(&mut self, is_stored: bool) -> bool
        ensures complete { result ≡ completes is_stored self.old }
        ensures left { self.new ≡ left_after is_stored self.old }
    {
        if !is_stored {
            return false;
        }
        let fails = self.fails == 1;
        self.fails = self.fails.saturating_sub(1);
        !fails
    }
}

//! `Gate`: what may hold a worker in its turn, at a desk as at a seat of a pool.
ghost use Rattle.std.specs.Prelude.{ℕ};

/// What stands between a loan and its run. A test holds workers there, to have them at work at the same time.
pub trait Gate {
    // Relates the gate before a call of `hold`, the process, and the gate after it.
    ghost holds: { Self → ℕ → Self → Type 0 } = { λ _ _ _. Unit {0} };

    /// Holds the worker, which has a loan of this process.
    fn hold(&mut self, pid: u32)
        ensures { holds self.old pid self.new };
}

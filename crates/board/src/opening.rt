//! The pair with which a board opens.
ghost use Rattle.std.specs.Prelude.{ℕ};

use std::marker::Brand;

/// The pair with which a run's board opens. It exists in proofs alone, and the caller that makes the board picks it.
pub trait Opening {
    ghost committed: { ℕ };

    ghost changes: { ℕ };
}

impl Opening for Brand {
    ghost committed = { 0 };

    ghost changes = { 0 };
}

//! What takes bytes.
ghost use Rattle.std.specs.Prelude.{ℕ, List, Result};
ghost use Rattle.std.specs.declared.io.Error.{Error};
ghost use Rattle.std.specs.Io.{WritesAtMost};
ghost use Rattle.console.specs.Writers.{writer_answers};

use std::io::{self, Write};

/// What takes bytes; each writer is one. Its contract names each of its answers, as a writer's cannot.
pub trait Sink {
    // What it may answer to bytes, and what it is then.
    ghost answers: { Self → List ℕ → Result ℕ Error → Self → Type 0 };

    /// Offers bytes. Gives how many of the first it took, or why it failed.
    fn offer(&mut self, bytes: &[u8]) -> io::Result<usize>
        ensures count { WritesAtMost result bytes.now }
        ensures answered { answers self.old bytes.now result self.new };
}

impl<W: Write> Sink for W {
    ghost answers = { writer_answers W.contents };

    fn offer(&mut self, bytes: &[u8]) -> io::Result<usize> {
        self.write(bytes)
    }
}

//! How far a text was told.
ghost use Rattle.std.specs.Prelude.{◌≡◌, drop, length};

use std::marker::Model;

/// How far a text was told that only grows at its end: how many of its bytes.
#[derive(Clone, Copy)]
pub struct Cursor {
    told: usize,
}

impl Model for Cursor {
    ghost use Rattle.std.specs.Prelude.{ℕ};

    ghost Value = { ℕ };

    ghost view = { λ c. c.told };

    ghost inverse = { λ told. record { told = told } };
}

impl Cursor {
    /// Nothing is told.
    pub fn new() -> Cursor
        ensures { result ≡ 0 }
    {
        Cursor { told: 0 }
    }

    /// What of a text comes after what was told. All of it is told then.
    pub fn rest<'t>(&mut self, text: &'t [u8]) -> &'t [u8]
        ensures rest { result.now ≡ drop self.old text.now }
        ensures told { self.new ≡ length text.now }
    {
        let rest = text.get(self.told..).unwrap_or_default();
        self.told = text.len();
        rest
    }
}

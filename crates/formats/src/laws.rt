//! The law that joins the two definitions of the instruction table.
ghost use Rattle.std.specs.Prelude.{◌≡◌, ◌↔◌, ℕ, Some};
ghost use Rattle.formats.specs.Meaning.{Means};
ghost use Rattle.formats.specs.Table.{instr_of};

use crate::instr::Instr;

/// A law: the relation of the instruction table, a clause a row, and the function that computes agree on every word. It does
/// nothing when it runs.
pub fn meanings()
    ensures { (w : ℕ) (i : Instr) → Means w i ↔ (instr_of w ≡ Some i) }
{}

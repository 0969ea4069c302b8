//! What the definitions say of every source.
ghost use Rattle.std.specs.Prelude.{◌≡◌, ◌⊎◌, ℕ, List};
ghost use Rattle.asm_text.specs.Text.{IsText, FirstFault};
ghost use Rattle.asm_text.specs.declared.token.Line.{Line};

/// A law: a source has either lines or a first fault, and never both.
pub fn one_reading()
    ensures some { (source : List ℕ) → ((ls : List Line) × IsText source ls) ⊎ ((line : ℕ) × (column : ℕ) × FirstFault source line column) }
    ensures lines { (source : List ℕ) (ls ms : List Line) → IsText source ls → IsText source ms → ls ≡ ms }
    ensures not_both { (source : List ℕ) (ls : List Line) (line column : ℕ) → IsText source ls → FirstFault source line column → ⊥ }
    ensures fault { (source : List ℕ) (j c k d : ℕ) → FirstFault source j c → FirstFault source k d → (j ≡ k) × (c ≡ d) }
{}

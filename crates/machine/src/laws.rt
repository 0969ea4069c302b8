//! What the definitions say of every program that may be loaded.
ghost use Rattle.std.specs.Prelude.{◌≡◌, ℕ, ◌+◌, ◌<◌, Some, All, slice_index};
ghost use Rattle.std.specs.FinMap.{get};
ghost use Rattle.memory_model.specs.Access.{cell_with};
ghost use Rattle.machine_model.specs.declared.image.Segment.{Segment};
ghost use Rattle.machine_model.specs.Images.{Program, IsProfile};
ghost use Rattle.machine_model.specs.First.{first_state};

/// A law of the first state of a program that may be loaded. Each address of each segment holds the segment's byte, with the
/// segment's rights. The byte is 0 after those of the file.
pub fn segments_are_loaded()
    ensures { (p : Program) → IsProfile p → All (λ (s : Segment). (k : ℕ) → k < s.memsz
        → get (first_state p).architectural.memory (s.vaddr + k) ≡ Some (cell_with s.rights (slice_index s.bytes k))) p.segments }
{}

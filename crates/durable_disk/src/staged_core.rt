//! `StagedCore`: a core whose writes in flight a file is to hold.
ghost use Rattle.std.specs.Prelude.{◌≡◌, List, [], ◌∷◌, ◌++◌, length, IfOk, OnOk, OnErr};
ghost use Rattle.disk_model.specs.declared.change.Piece.{Piece};
ghost use Rattle.durable_disk.specs.declared.core_call.CoreCall.{CoreCall};
ghost use Rattle.durable_disk.specs.declared.core_call.CoreCall.TheVariants as core_call;
ghost use Rattle.durable_disk.specs.Stages.{call_of_end};

use disk_model::Piece;

/// A core, under a lock say, with a record that exists in proofs alone: its calls that it did not refuse, in order.
pub trait StagedCore {
    /// Why it refuses what it is asked or told.
    type Refusal: Drop;

    ghost calls_of: { Self → List CoreCall };

    // Whether these may be its writes in flight.
    ghost submitted: { List Piece → Type 0 };

    /// The writes in flight, in the order in which they were submitted, copied. It is refused for want of memory alone.
    fn stage(&mut self) -> Result<Vec<Piece>, Self::Refusal>
        ensures submitted { IfOk result (λ pieces. submitted pieces.items) }
        ensures ok { IfOk result (λ pieces. calls_of self.new ≡ calls_of self.old ++ core_call.InFlight (length pieces.items) ∷ []) }
        ensures err { OnErr result (calls_of self.new ≡ calls_of self.old) };

    /// The write in flight that begins at this offset of the disk is complete, or else it has failed.
    fn tell(&mut self, at: u32, is_complete: bool) -> Result<(), Self::Refusal>
        ensures ok { OnOk result (calls_of self.new ≡ calls_of self.old ++ call_of_end is_complete at ∷ []) }
        ensures err { OnErr result (calls_of self.new ≡ calls_of self.old) };
}

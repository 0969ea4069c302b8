//! `report`: tells a core what came of the writes of a stage.
ghost use Rattle.std.specs.Prelude.{OnOk, OnErr};
ghost use Rattle.durable_disk.specs.Stages.{IsToldAll, IsToldSome};

use crate::completions::Completions;
use crate::staged_core::StagedCore;
use disk_model::Piece;

/// Tells the core of each piece of a stage, in order, up to the first that it refuses. One is complete if it is stored, and is not the
/// one that fails all the same. Else it has failed.
#[tactic(auto, using(crate::proofs::TellingSteps::one_more, crate::proofs::TellingSteps::some_told, crate::proofs::TellingSteps::all_told))]
pub fn report<C: StagedCore>(
    core: &mut C,
    pieces: &[Piece],
    is_stored: bool,
    completions: &mut Completions,
) -> Result<(), C::Refusal>
    ensures ok { OnOk result (IsToldAll is_stored pieces.now (C.calls_of core.old) completions.old (C.calls_of core.new) completions.new) }
    ensures err { OnErr result (IsToldSome is_stored pieces.now (C.calls_of core.old) completions.old (C.calls_of core.new)) }
{
    for piece in pieces {
        core.tell(piece.at, completions.is_complete(is_stored))?;
    }
    Ok(())
}

//! Laws: each step of a board keeps its rule.
ghost use Rattle.std.specs.Prelude.{◌≡◌, ◌≤◌, true, slice_index};
ghost use Rattle.crossbeam_utils.specs.Seq.{cell_view};
ghost use Rattle.crossbeam_utils.specs.Register.{Turns, Forks};
ghost use Rattle.board.specs.Pairs.{newcomer, Follows, Loaded, Published};

use crate::board::Pass;

/// A load by this pass keeps the rule.
pub(crate) fn loads_keep_the_rule(pass: &Pass)
    ensures { Turns Follows pass.now.id (cell_view pass.now) (λ x. x) Loaded }
{}

/// A store of this pair by this pass keeps the rule, where it publishes and neither number is below the one published last.
pub(crate) fn stores_keep_the_rule(pass: &Pass, pair: &[u64; 2])
    requires publishes { (cell_view pass.now).publishes ≡ true }
    requires rises { ((cell_view pass.now).committed ≤ slice_index pair.now 0) × ((cell_view pass.now).changes ≤ slice_index pair.now 1) }
    ensures { Turns Follows pass.now.id (cell_view pass.now) (λ _. pair.now) Published }
{}

/// Where a new pass that loads comes from this one, the rule is kept.
pub(crate) fn new_passes_keep_the_rule(pass: &Pass)
    ensures { Forks Follows pass.now.id (cell_view pass.now) (cell_view pass.now) newcomer }
{}

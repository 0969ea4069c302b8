//! `board_of`: the board of a core.
ghost use Rattle.std.specs.Prelude.{◌≡◌, IfOk};
ghost use Rattle.crossbeam_utils.specs.Seq.{cell_view};
ghost use Rattle.kernel_model.specs.Answers.{now, committed as committed_in, changes as changes_in};
ghost use Rattle.board.specs.Pairs.{publisher, newcomer};

use crate::naming::Naming;
use board::{Board, Pass, Writer};
use kernel::Core;
use std::alloc::{AllocError, Global};

/// The board of this core, which opens with the core's pair, the pass that publishes, and a pass that loads.
pub fn board_of<N: Naming>(
    alloc: Global,
    core: &Core,
) -> Result<(Board<N>, Writer, Pass), AllocError>
    requires committed { committed_in (now core.now) ≡ N.committed }
    requires changes { changes_in (now core.now) ≡ N.changes }
    ensures writer { IfOk result (λ b. (b.1.pass.table_id ≡ b.0.cell.table.shared.table_id) × (cell_view b.1.pass ≡ publisher N.committed N.changes)) }
    ensures pass { IfOk result (λ b. (b.2.table_id ≡ b.0.cell.table.shared.table_id) × (cell_view b.2 ≡ newcomer)) }
{
    Board::new(alloc, core.committed(), core.changes())
}

//! `BoardReader`: reads the board without the lock.
ghost use Rattle.std.specs.Prelude.{◌≡◌};

use bursts::{Board, Naming, Pass};
use std::sync::Wait;

/// The board with a pass, by which a thread reads the board without the lock.
#[derive(Drop)]
pub struct BoardReader<'a, N: Naming> {
    board: &'a Board<N>,
    pass: Pass,
    ghost of_board: { pass.table_id ≡ board.now.cell.table.shared.table_id },
}

impl<'a, N: Naming> BoardReader<'a, N> {
    /// A reader of this board, by this pass.
    pub fn new(board: &'a Board<N>, pass: Pass) -> BoardReader<'a, N>
        requires { pass.table_id ≡ board.now.cell.table.shared.table_id }
    {
        BoardReader { board, pass }
    }

    /// What the board shows: how many changes are committed, and how many there are.
    pub fn seen<R: Wait>(&mut self, rt: &R) -> (u64, u64) {
        self.board.seen(rt, &mut self.pass)
    }
}

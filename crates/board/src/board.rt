//! The board: how many changes are committed and how many there are, for any thread to read without a lock.
ghost use Rattle.std.specs.Prelude.{◌≡◌, ◌+◌, ◌≤◌, true, IfOk};
ghost use Rattle.crossbeam_utils.specs.Seq.{cell_view};
ghost use Rattle.board.specs.Pairs.{publisher, newcomer, pair_of};

use crate::opening::Opening;
use crate::steps::{loads_keep_the_rule, new_passes_keep_the_rule, stores_keep_the_rule};
use atomic_table::Split;
use crossbeam_utils::atomic::seq_cell::{Pass as CellPass, RuledSeqCell};
use crossbeam_utils::rule::{Outcome, Protocol};
use std::alloc::{AllocError, Global};
use std::marker::PhantomData;
use std::sync::Wait;

/// What a pass shows: whether it publishes, how many loads it made, and the pair that it published or loaded last. It exists in
/// proofs alone: no value of it is made.
pub struct View {
    pub publishes: bool,
    pub loads: u64,
    pub committed: u64,
    pub changes: u64,
}

/// The rule of a board, which each load and each store keeps.
pub struct Rule<N> {
    of: PhantomData<N>,
}

impl<N: Opening> Protocol<[u64; 2], View> for Rule<N> {
    ghost use Rattle.board.specs.Pairs.{publisher, Follows};

    ghost holds = { Follows };

    ghost first = { publisher N.committed N.changes };
}

/// What a load tells its pass.
struct Loads;

impl Outcome<[u64; 2], View> for Loads {
    ghost use Rattle.board.specs.Pairs.{Loaded};

    ghost then = { Loaded };
}

/// What a store tells the publishing pass.
struct Publishes;

impl Outcome<[u64; 2], View> for Publishes {
    ghost use Rattle.board.specs.Pairs.{Published};

    ghost then = { Published };
}

/// How a pass that loads comes from another pass, which keeps what it shows.
struct Reading;

impl Split<View> for Reading {
    ghost use Rattle.board.specs.Pairs.{newcomer};

    ghost left = { λ v. v };

    ghost right = { λ v. newcomer };
}

/// A pass that loads: a ghost token, without bytes.
pub type Pass = CellPass<[u64; 2], View>;

/// The pass that publishes. A board has one.
#[derive(Drop)]
pub struct Writer {
    pub pass: Pass,
}

/// A pair of numbers, how many changes are committed and how many there are, which are read and written together.
#[derive(Drop)]
pub struct Board<N: Opening> {
    pub cell: RuledSeqCell<[u64; 2], View, Rule<N>, 2>,
}

impl<N: Opening> Board<N> {
    /// A board that opens with this pair, the pass that publishes, and a pass that loads.
    pub fn new(
        alloc: Global,
        committed: u64,
        changes: u64,
    ) -> Result<(Board<N>, Writer, Pass), AllocError>
        requires committed { committed ≡ N.committed }
        requires changes { changes ≡ N.changes }
        ensures writer { IfOk result (λ b. (b.1.pass.table_id ≡ b.0.cell.table.shared.table_id) × (cell_view b.1.pass ≡ publisher N.committed N.changes)) }
        ensures pass { IfOk result (λ b. (b.2.table_id ≡ b.0.cell.table.shared.table_id) × (cell_view b.2 ≡ newcomer)) }
    {
        let (cell, mut pass) = RuledSeqCell::ruled(alloc, [committed, changes])?;
        new_passes_keep_the_rule(&pass);
        let reader = cell.split_pass::<Reading>(&mut pass);
        Ok((Board { cell }, Writer { pass }, reader))
    }

    /// The committed changes and all changes, as they were last published. It takes no lock, and may wait for a store. The pass is
    /// of this board, and then shows one load more, and the pair.
    pub fn seen<R: Wait>(&self, rt: &R, pass: &mut Pass) -> (u64, u64)
        requires { pass.old.table_id ≡ self.now.cell.table.shared.table_id }
        ensures same { pass.new.table_id ≡ pass.old.table_id }
        ensures load { (cell_view pass.new).loads ≡ (cell_view pass.old).loads + 1 }
        ensures pair { result ≡ pair_of (cell_view pass.new) }
        ensures rises { ((cell_view pass.old).committed ≤ result.0) × ((cell_view pass.old).changes ≤ result.1) }
    {
        loads_keep_the_rule(pass);
        let pair = self.cell.load_as::<Loads, R>(rt, pass);
        (pair[0], pair[1])
    }

    /// Publishes a pair. Neither number may be below the one published last.
    pub fn publish<R: Wait>(&self, rt: &R, writer: &mut Writer, committed: u64, changes: u64)
        requires board { writer.old.pass.table_id ≡ self.now.cell.table.shared.table_id }
        requires publishes { (cell_view writer.old.pass).publishes ≡ true }
        requires rises { ((cell_view writer.old.pass).committed ≤ committed) × ((cell_view writer.old.pass).changes ≤ changes) }
        ensures same { writer.new.pass.table_id ≡ writer.old.pass.table_id }
        ensures publishes { (cell_view writer.new.pass).publishes ≡ true }
        ensures pair { pair_of (cell_view writer.new.pass) ≡ (committed, changes) }
    {
        let pair = [committed, changes];
        stores_keep_the_rule(&writer.pass, &pair);
        self.cell
            .swap_as::<Publishes, R>(rt, &mut writer.pass, pair);
    }
}

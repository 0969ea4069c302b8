//! A machine as it was at a moment: a snapshot.
ghost use Rattle.std.specs.Prelude.{◌≡◌, IfOk};

use crate::machine::Machine;
use interpreter::{ArchitecturalState, Run, Table, own_tables_of};
use isa_table::Regs;
use memory::KeptSpace;
use std::alloc::{AllocError, Global};
use std::marker::Model;
use std::sync::Arc;

/// A machine as it was at a moment: a snapshot. It shares with the snapshot kept before it each page of 4,096 bytes that was the
/// same then. With the machine it shares what a clone would share.
pub struct KeptMachine {
    regs: Regs,
    space: KeptSpace,
    count: u64,
    tables: Arc<Vec<Table>>,
    runs: Arc<Vec<Run>>,
}

impl Drop for KeptMachine {
    fn drop(self) {
        let KeptMachine {
            regs: _,
            space: _space,
            count: _,
            tables: _tables,
            runs: _runs,
        } = self;
    }
}

impl Model for KeptMachine {
    ghost use Rattle.machine_model.specs.States.{State, state_code, state, architectural};
    ghost use Rattle.interpreter.specs.Tables.{AllFixed, AllMatch};

    ghost Value = { State };

    ghost coded = { state_code };

    ghost view = { λ m. state (architectural m.regs.x m.regs.pc m.space) m.count };

    ghost invariant = { λ m. AllMatch m.tables.value.items m.space × AllFixed m.tables.value.items m.space };
}

impl Machine {
    /// This machine as it is now. Of the pages that may be written it copies only those that differ from the same page of `before`.
    pub fn keep(
        &self,
        alloc: Global,
        before: Option<&KeptMachine>,
    ) -> Result<KeptMachine, AllocError>
        ensures { IfOk result (λ k. k ≡ self.now) }
    {
        Ok(KeptMachine {
            regs: self.architectural.regs,
            space: self
                .architectural
                .space
                .keep(alloc, before.map(|kept| &kept.space))?,
            count: self.count,
            tables: Arc::try_clone(&self.tables)?,
            runs: Arc::try_clone(&self.runs)?,
        })
    }
}

impl KeptMachine {
    /// A machine in that state. Pages that may be written are copied, and their words decoded anew; the rest is shared.
    pub fn machine(&self, alloc: Global) -> Result<Machine, AllocError>
        ensures { IfOk result (λ m. m ≡ self.now) }
    {
        let space = self.space.space(alloc)?;
        let own = own_tables_of(alloc, &space, &self.runs)?;
        Ok(Machine {
            architectural: ArchitecturalState {
                regs: self.regs,
                space,
            },
            count: self.count(),
            tables: Arc::try_clone(&self.tables)?,
            runs: Arc::try_clone(&self.runs)?,
            own,
            spare: None,
        })
    }

    /// How many instructions were done.
    pub fn count(&self) -> u64
        ensures { result ≡ self.now.count }
    {
        self.count
    }

    /// How many blocks of 256 bytes it holds that nothing else does. Right after it was kept these are the blocks that were copied for
    /// it. A measure of memory, of which no clause says anything.
    pub fn own_blocks(&self) -> usize {
        self.space.own_blocks()
    }
}

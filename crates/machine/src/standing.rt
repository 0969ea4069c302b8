//! Machines that stand still, with room for a copy.
ghost use Rattle.std.specs.Prelude.{◌≡◌, IfOk, IfErr};
ghost use Rattle.interpreter.specs.Tables.{AllFixed, AllMatch};

use crate::machine::Machine;
use interpreter::{ArchitecturalState, Run, Table};
use memory::Space;
use std::alloc::{AllocError, Global};
use std::marker::Model;
use std::mem;
use std::sync::Arc;

/// A machine that stands still, so that others may look at it, and all that a copy of it takes.
pub struct StillMachine {
    from: Arc<Machine>,
    room: Space,
    tables: Arc<Vec<Table>>,
    runs: Arc<Vec<Run>>,
    own: Vec<Table>,
}

impl Drop for StillMachine {
    fn drop(self) {
        let StillMachine {
            from: _from,
            room: _room,
            tables: _tables,
            runs: _runs,
            own: _own,
        } = self;
    }
}

impl Model for StillMachine {
    ghost use Rattle.machine_model.specs.States.{State, state_code};
    ghost use Rattle.interpreter.specs.Tables.{AllFixed, AllMatch};
    ghost use Rattle.memory.specs.Rooms.{IsRoomFor};

    ghost Value = { State };

    ghost coded = { state_code };

    ghost view = { λ m. m.from.value };

    ghost invariant = { λ m. IsRoomFor m.room m.from.value.architectural.memory × AllMatch m.tables.value.items m.from.value.architectural.memory × AllFixed m.tables.value.items m.from.value.architectural.memory × AllMatch m.own.items m.from.value.architectural.memory };
}

impl Machine {
    /// This machine, which stands still from now on. The room for a copy is that of an earlier state, if one was kept. Else its
    /// pages are copied here. Where memory runs out the machine comes back.
    pub(crate) fn into_still(mut self, alloc: Global) -> Result<StillMachine, Machine>
        ensures ok { IfOk result (λ m. m ≡ self) }
        ensures err { IfErr result (λ m. m ≡ self) }
    {
        let spare = self.take_spare();
        let Ok(room) = self.space().room(alloc, spare) else {
            return Err(self);
        };
        let Ok((tables, runs)) = self.decoded() else {
            return Err(self);
        };
        let own = self.take_own(alloc);
        match Arc::new(alloc, self) {
            Ok(from) => Ok(StillMachine {
                from,
                room,
                tables,
                runs,
                own,
            }),
            Err(failed) => {
                let mut machine = failed.value;
                machine.put_own(own);
                Err(machine)
            }
        }
    }

    fn take_spare(&mut self) -> Option<Space>
        ensures { self.new ≡ self.old }
    {
        self.spare.take()
    }

    /// Keeps pages as room for the next copy.
    pub(crate) fn put_spare(&mut self, spare: Option<Space>)
        ensures { self.new ≡ self.old }
    {
        self.spare = spare;
    }

    /// Its decoded words that may not be written, shared.
    fn decoded(&self) -> Result<(Arc<Vec<Table>>, Arc<Vec<Run>>), AllocError>
        ensures matches { IfOk result (λ r. AllMatch r.0.value.items self.now.architectural.memory) }
        ensures fixed { IfOk result (λ r. AllFixed r.0.value.items self.now.architectural.memory) }
    {
        let tables = Arc::try_clone(&self.tables)?;
        let runs = Arc::try_clone(&self.runs)?;
        Ok((tables, runs))
    }

    /// Takes its decoded words that may be written out of it.
    fn take_own(&mut self, alloc: Global) -> Vec<Table>
        ensures same { self.new ≡ self.old }
        ensures matches { AllMatch result.items self.old.architectural.memory }
    {
        mem::replace(&mut self.own, Vec::new(alloc))
    }

    fn put_own(&mut self, own: Vec<Table>)
        requires { AllMatch own.items self.old.architectural.memory }
        ensures { self.new ≡ self.old }
    {
        self.own = own;
    }

    /// A machine in the same state, of these parts.
    fn with_parts(
        &self,
        space: Space,
        tables: Arc<Vec<Table>>,
        runs: Arc<Vec<Run>>,
        own: Vec<Table>,
    ) -> Machine
        requires space { space ≡ self.now.architectural.memory }
        requires matches { AllMatch tables.value.items self.now.architectural.memory }
        requires fixed { AllFixed tables.value.items self.now.architectural.memory }
        requires own { AllMatch own.items self.now.architectural.memory }
        ensures { result ≡ self.now }
    {
        Machine {
            architectural: ArchitecturalState {
                regs: self.architectural.regs,
                space,
            },
            count: self.count,
            tables,
            runs,
            own,
            spare: None,
        }
    }
}

impl StillMachine {
    /// The machine that stands still.
    pub fn sight(&self) -> &Machine
        ensures { result.now ≡ self.now }
    {
        &self.from
    }

    /// The same, shared. It takes no block of memory.
    pub fn share(&self) -> Result<Arc<Machine>, AllocError>
        ensures { IfOk result (λ m. m.value ≡ self.now) }
    {
        let share = Arc::try_clone(&self.from)?;
        Ok(share)
    }

    /// A machine that may go on. It is the one that stood still, if nobody else looks at that, and keeps the room. Else it is the
    /// copy, made in the room. Takes no memory.
    pub fn machine(self) -> Machine
        ensures { result ≡ self }
    {
        let StillMachine {
            from,
            mut room,
            tables,
            runs,
            own,
        } = self;
        match Arc::try_unwrap(from) {
            Ok(mut machine) => {
                machine.put_own(own);
                machine.put_spare(Some(room));
                machine
            }
            Err(from) => {
                room.fill(from.space());
                from.with_parts(room, tables, runs, own)
            }
        }
    }
}

/// The pages of a machine, if nobody else looks at it.
pub fn pages_of(machine: Arc<Machine>) -> Option<Space> {
    let machine = Arc::into_inner(machine)?;
    Some(machine.into_space())
}

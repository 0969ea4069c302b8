//! Machines that others may look at while they stand still.
ghost use Rattle.std.specs.Prelude.{◌≡◌, ◌≢◌, ◌↔◌, ◌+◌, ◌<◌, ◌≤◌, ◌^◌, true, length, Some, None, IfOk, IsTrue, OnOk};
ghost use Rattle.memory_model.specs.Access.{is_writable};
ghost use Rattle.machine_model.specs.States.{run as run_from, reached_at, stopped_at};
ghost use Rattle.machine_model.specs.Replies.{replied};
ghost use Rattle.machine.specs.Shared.{state_of, is_there, is_whole, is_still};

use crate::machine::Machine;
use crate::standing::{StillMachine, pages_of};
use machine_model::{Reply, Stop};
use std::alloc::{AllocError, Global};
use std::marker::Model;
use std::mem;
use std::sync::Arc;

/// How a machine is kept that may be shared.
#[derive(Drop)]
pub enum Form {
    /// Nobody else looks at it.
    Whole(Machine),
    /// Others may look at it, so that it is copied before it goes on.
    Still(StillMachine),
    /// It was taken away, to be put back in another form.
    Gone,
}

impl Form {
    fn is_still(&self) -> bool
        ensures { result ≡ is_still self.now }
    {
        matches!(self, Form::Still(_))
    }

    fn machine(&self) -> &Machine
        requires { is_there self.now ≡ true }
        ensures { result.now ≡ state_of self.now }
    {
        match self {
            Form::Whole(machine) => machine,
            Form::Still(still) => still.sight(),
            Form::Gone => unreachable!(),
        }
    }

    /// Makes it a machine that may go on. Takes no memory.
    fn make_whole(&mut self)
        requires { is_there self.old ≡ true }
        ensures same { state_of self.new ≡ state_of self.old }
        ensures whole { is_whole self.new ≡ true }
    {
        if matches!(self, Form::Whole(_)) {
            return;
        }
        let Form::Still(still) = mem::replace(self, Form::Gone) else {
            unreachable!()
        };
        *self = Form::Whole(still.machine());
    }

    /// Makes it one that others may look at.
    fn make_still(&mut self, alloc: Global) -> Result<(), AllocError>
        requires { is_there self.old ≡ true }
        ensures same { state_of self.new ≡ state_of self.old }
        ensures there { is_there self.new ≡ true }
        ensures still { OnOk result (is_still self.new ≡ true) }
    {
        if matches!(self, Form::Still(_)) {
            return Ok(());
        }
        let Form::Whole(machine) = mem::replace(self, Form::Gone) else {
            unreachable!()
        };
        match machine.into_still(alloc) {
            Ok(still) => {
                *self = Form::Still(still);
                Ok(())
            }
            Err(machine) => {
                *self = Form::Whole(machine);
                Err(AllocError)
            }
        }
    }
}

/// A machine that others may look at while it stands still. Before it goes on it is copied, if others still look. The copy takes no
/// memory: `share` takes the room for it. It stands in a box, since it goes from hand to hand with each loan.
pub struct SharedMachine {
    form: Box<Form>,
}

impl Drop for SharedMachine {
    fn drop(self) {
        let SharedMachine { form: _form } = self;
    }
}

impl Model for SharedMachine {
    ghost use Rattle.std.specs.Prelude.{◌≡◌, true};
    ghost use Rattle.machine_model.specs.States.{State, state_code};

    ghost Value = { State };

    ghost coded = { state_code };

    ghost use Rattle.machine.specs.Shared.{state_of, is_there};

    ghost view = { λ m. state_of m.form.value };

    ghost invariant = { λ m. is_there m.form.value ≡ true };
}

impl SharedMachine {
    /// A machine that nobody else looks at.
    pub fn new(alloc: Global, machine: Machine) -> Result<SharedMachine, AllocError>
        ensures { IfOk result (λ m. m ≡ machine) }
    {
        let form = Box::new(alloc, Form::Whole(machine))?;
        Ok(SharedMachine { form })
    }

    /// The machine, as long as this one stays as it is.
    pub fn machine(&self) -> &Machine
        ensures { result.now ≡ self.now }
    {
        self.form.machine()
    }

    /// The machine as it stands now, for others to look at. The room for a copy is that of an earlier state (`reuse`). Where there is
    /// none of the same pages, they are copied here. Nothing is done where others may look already.
    pub fn share(&mut self, alloc: Global) -> Result<Arc<Machine>, AllocError>
        ensures same { self.new ≡ self.old }
        ensures share { IfOk result (λ m. m.value ≡ self.old) }
    {
        self.form.make_still(alloc)?;
        match &*self.form {
            Form::Still(still) => still.share(),
            _ => unreachable!(),
        }
    }

    /// Keeps the pages of a machine that stood still as room for a copy, if nobody else looks at it. Takes no memory.
    pub fn reuse(&mut self, old: Arc<Machine>)
        ensures { self.new ≡ self.old }
    {
        if let Form::Whole(machine) = &mut *self.form {
            machine.put_spare(pages_of(old));
        }
    }

    /// As `Machine::run`. One that stands at a call or a trap is not copied.
    pub fn run(&mut self, max: u32) -> (u32, Stop)
        requires { self.old.count + max ≤ 2 ^ 40 }
        ensures run { run_from max self.old ≡ reached_at result.0 self.new result.1 }
        ensures within { result.0 ≤ max }
        ensures count { self.new.count ≡ self.old.count + result.0 }
        ensures limit { (result.1 ≡ Stop.Limit) ↔ (result.0 ≡ max) }
        ensures standing { result.1 ≢ Stop.Limit → stopped_at self.new ≡ Some result.1 }
    {
        if max > 0 && self.form.is_still() {
            if let Some(stop) = self.stopped() {
                return (0, stop);
            }
        }
        self.form.make_whole();
        match &mut *self.form {
            Form::Whole(machine) => machine.run(max),
            _ => unreachable!(),
        }
    }

    /// As `Machine::stopped`.
    pub fn stopped(&self) -> Option<Stop>
        ensures { result ≡ stopped_at self.now }
    {
        self.machine().stopped()
    }

    /// As `Machine::reply`.
    pub fn reply(&mut self, reply: &Reply)
        requires stands { stopped_at self.old ≡ Some Stop.Call }
        requires budget { self.old.count < 2 ^ 40 }
        requires none { reply.now.image ≡ None }
        requires place { is_writable self.old.architectural.memory reply.now.at (length reply.now.bytes) ≡ true }
        ensures { self.new ≡ replied self.old reply.now }
    {
        self.form.make_whole();
        match &mut *self.form {
            Form::Whole(machine) => machine.reply(reply),
            _ => unreachable!(),
        }
    }
}

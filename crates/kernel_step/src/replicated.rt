//! A machine in the kernel, with a replica of it.
ghost use Rattle.std.specs.Prelude.{◌≡◌, ◌+◌, ◌≤◌, ◌^◌, IfOk, IfErr, IfSome};
ghost use Rattle.machine_model.specs.States.{State, run as run_from, reached_at};
ghost use Rattle.machine_model.specs.Replies.{replied};
ghost use Rattle.kernel_step.specs.Replicas.{MayBeReplied};

use crate::task::LIMIT;
use machine::{Machine, SharedMachine};
use machine_model::{Reply, Stop};
use std::alloc::{AllocError, Global};
use std::marker::Model;
use std::sync::Arc;

/// The longest burst that a replica runs again, which takes about what a copy of six pages takes.
const LONGEST_REPLAY: u32 = 256;

/// A machine in the kernel. Where it came back from a short burst it has a replica: the state from which that began, which ran the
/// burst again. So the next loan copies no page. The replica stays as the state from which the loan begins, and the machine leaves.
pub struct ReplicatedMachine {
    machine: SharedMachine,
    replica: Option<Arc<Machine>>,
}

impl Drop for ReplicatedMachine {
    fn drop(self) {
        let ReplicatedMachine {
            machine: _machine,
            replica: _replica,
        } = self;
    }
}

impl Model for ReplicatedMachine {
    ghost use Rattle.std.specs.Prelude.{◌≡◌, IfSome};
    ghost use Rattle.machine_model.specs.States.{State, state_code};

    ghost Value = { State };

    ghost coded = { state_code };

    ghost view = { λ m. m.machine };

    ghost invariant = { λ m. IfSome m.replica (λ r. r.value ≡ m.machine) };
}

/// A machine that nobody else looks at goes on, for at most a quantum. Where somebody does it comes back as it was.
fn run_again(mut machine: Arc<Machine>, quantum: u32) -> Result<Arc<Machine>, Arc<Machine>>
    ensures ran { IfOk result (λ m. m.value ≡ (run_from quantum machine.value).state) }
    ensures same { IfErr result (λ m. m.value ≡ machine.value) }
{
    let Some(own) = Arc::get_mut(&mut machine) else {
        return Err(machine);
    };
    if own.count() > LIMIT - u64::from(quantum) {
        return Err(machine);
    }
    own.run(quantum);
    Ok(machine)
}

/// The replica gets the reply too, where nobody else looks at it. Takes no memory.
fn replied_too(replica: Option<Arc<Machine>>, reply: &Reply) -> Option<Arc<Machine>>
    requires { IfSome replica (λ r. MayBeReplied r.value reply.now) }
    ensures { (s : State) → IfSome replica (λ r. r.value ≡ s) → IfSome result (λ r. r.value ≡ replied s reply.now) }
{
    let mut replica = replica?;
    let own = Arc::get_mut(&mut replica)?;
    own.reply(reply);
    Some(replica)
}

impl ReplicatedMachine {
    /// Without a replica.
    pub fn new(machine: SharedMachine) -> ReplicatedMachine
        ensures { result ≡ machine }
    {
        ReplicatedMachine {
            machine,
            replica: None,
        }
    }

    /// The machine alone.
    pub fn into_machine(self) -> SharedMachine
        ensures { result ≡ self }
    {
        let ReplicatedMachine {
            machine,
            replica: _replica,
        } = self;
        machine
    }

    /// The machine, as long as this one stays as it is.
    pub fn machine(&self) -> &Machine
        ensures { result.now ≡ self.now }
    {
        self.machine.machine()
    }

    /// It came from the state `began` by a burst of `count` instructions, at most a quantum. After a short one that state becomes its
    /// replica, else room for a copy, if nobody else looks at it. Takes no memory.
    pub fn replicate(&mut self, began: Arc<Machine>, quantum: u32, count: u32)
        requires { (run_from quantum began.value).state ≡ self.old }
        ensures { self.new ≡ self.old }
    {
        if count > LONGEST_REPLAY {
            self.machine.reuse(began);
            return;
        }
        match run_again(began, quantum) {
            Ok(replica) => self.replica = Some(replica),
            Err(began) => self.machine.reuse(began),
        }
    }

    /// Another machine takes this one's place. Takes no memory.
    pub fn put(&mut self, machine: SharedMachine)
        ensures { self.new ≡ machine }
    {
        self.replica = None;
        self.machine = machine;
    }

    /// The state from which its next loan begins: the replica, or else the machine, by `SharedMachine::share`. Before its first loan
    /// a machine has no room for a copy. So it is copied here, and the machine itself goes on.
    pub fn share(&mut self, alloc: Global, is_first: bool) -> Result<Arc<Machine>, AllocError>
        ensures same { self.new ≡ self.old }
        ensures share { IfOk result (λ m. m.value ≡ self.old) }
    {
        if let Some(replica) = &self.replica {
            return Arc::try_clone(replica);
        }
        if is_first {
            return self.copy(alloc);
        }
        self.machine.share(alloc)
    }

    /// A machine in the same state.
    fn copy(&self, alloc: Global) -> Result<Arc<Machine>, AllocError>
        ensures { IfOk result (λ m. m.value ≡ self.now) }
    {
        let machine = self.machine().try_clone(alloc)?;
        Ok(Arc::new(alloc, machine)?)
    }

    /// As `Machine::run`. The pages of its replica become room for a copy.
    pub fn run(&mut self, max: u32) -> (u32, Stop)
        requires { self.old.count + max ≤ 2 ^ 40 }
        ensures run { run_from max self.old ≡ reached_at result.0 self.new result.1 }
        ensures within { result.0 ≤ max }
        ensures count { self.new.count ≡ self.old.count + result.0 }
    {
        if let Some(replica) = self.replica.take() {
            self.machine.reuse(replica);
        }
        self.machine.run(max)
    }

    /// As `Machine::reply`.
    pub fn reply(&mut self, reply: &Reply)
        requires { MayBeReplied self.old reply.now }
        ensures { self.new ≡ replied self.old reply.now }
    {
        let replica = self.replica.take();
        self.replica = replied_too(replica, reply);
        self.machine.reply(reply);
    }
}

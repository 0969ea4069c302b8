//! A Turn, or time slice: a process runs.
ghost use Rattle.std.specs.Prelude.{◌≡◌, ◌+◌, ◌≤◌, vec_len, vec_capacity, IfOk, IfErr, OnOk, OnErr};
ghost use Rattle.kernel_model.specs.Answers.{Refuses};
ghost use Rattle.kernel_model.specs.World.{Boot};
ghost use Rattle.kernel_step.specs.Parts.{IsOwnNoted};
ghost use Rattle.kernel_step.specs.Represents.{Represents, Steps};
ghost use Rattle.kernel_step.specs.Trying.{is_history_full, MayTryTurn, IsTurnAccepted, IsTurnRefused};
ghost use Rattle.kernel_step.specs.Tests.{turn_refusal_of};

use crate::running::Running;
use crate::tasks::{run_at, turn_place};
use commit_deps::{Carrier, Dependencies};
use footprints::footprints_grow;
use kernel_model::{Answer, Event, Refused};
use std::alloc::AllocError;

/// Makes room for so many more events, which write so many carriers.
pub fn reserve(
    history: &mut Vec<Event>,
    dependencies: &mut Dependencies,
    events: usize,
    writes: usize,
) -> Result<(), AllocError>
    ensures history { OnOk result (vec_len history.new + events ≤ vec_capacity history.new) }
    ensures writes { OnOk result (writes ≤ dependencies.new.room) }
    ensures same_history { history.new.items ≡ history.old.items }
    ensures same_marks { dependencies.new.marks ≡ dependencies.old.marks }
{
    history.reserve(events)?;
    dependencies.reserve(writes)
}

/// Notes an event of a process that touches nothing but the process. Takes no memory.
pub fn note_own(dependencies: &mut Dependencies, pid: u32)
    requires { 1 ≤ dependencies.old.room }
    ensures noted { IsOwnNoted pid dependencies.old.marks dependencies.new.marks }
    ensures room { dependencies.old.room ≤ dependencies.new.room + 1 }
{
    let own = Carrier::Proc(pid);
    let mark = dependencies.mark_with(own, &[], None);
    dependencies.note(&[own], mark);
}

impl Running {
    /// The process runs at most n instructions. Refused as `Core::apply` says.
    pub(crate) fn turn(&mut self, pid: u32, n: u32) -> Result<Answer, Refused>
        requires { (b : Boot) × Represents b self.old }
        ensures { (b : Boot) → Represents b self.old → Steps b (Event.Turn pid n) self.old self.new result }
    {
        footprints_grow();
        self.try_turn(pid, n)
    }

    /// As `turn`, by a contract over the parts alone.
    fn try_turn(&mut self, pid: u32, n: u32) -> Result<Answer, Refused>
        requires { MayTryTurn self.old }
        ensures done { IfOk result (IsTurnAccepted pid n self.old self.new) }
        ensures refused { IfErr result (Refuses (turn_refusal_of self.old.tasks.items (is_history_full self.old) pid n)) }
        ensures same { OnErr result (IsTurnRefused self.old self.new) }
    {
        let full = self.is_full();
        let place = turn_place(&self.tasks, full, pid, n)?;
        reserve(&mut self.history, &mut self.system.dependencies, 1, 1)?;
        let (count, stop) = run_at(&mut self.tasks, place, n)?;
        note_own(&mut self.system.dependencies, pid);
        self.history.push(Event::Turn { pid, n }).unwrap();
        self.ran += u64::from(count);
        Ok(Answer::Ran { count, stop })
    }
}

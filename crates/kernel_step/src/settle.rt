//! Loans' results taken back.
ghost use Rattle.std.specs.Prelude.{◌≡◌, ◌++◌, ◌∷◌, [], ◌↔◌, IsTrue, true, Some, IfOk, IfErr, OnOk, OnErr};
ghost use Rattle.machine_model.specs.States.{stopped_at};
ghost use Rattle.kernel_model.specs.World.{Boot};
ghost use Rattle.kernel_step.specs.Known.{IsKnownResult, MayBeLoanOf};
ghost use Rattle.kernel_step.specs.Represents.{Represents, TakesBack, kernel_in};
ghost use Rattle.kernel_model.specs.declared.answer.Outcome.{Outcome};
ghost use Rattle.held_output.specs.Withheld.{IsSame};
ghost use Rattle.kernel_step.specs.Entering.{IsSameSystem, unboxed};
ghost use Rattle.kernel_step.specs.Ready.{MayEnter, HasRoomForEnter, IsPrepared};
ghost use Rattle.kernel_step.specs.Settling.{IsLoanOf, IsBack, MaySettleTurn, IsTurnSettled, IsTurnEntered, MaySettleCall, IsCallSettled, IsNotSettled, LackedMemory};
ghost use Rattle.kernel_step.specs.Unchanged.{AreUnchanged};

use crate::enter::join;
use crate::finishing::carry_out;
use crate::loan::{Done, Rejected};
use crate::plan::{Caller, EnterPlan};
use crate::replicated::ReplicatedMachine;
use crate::room::prepare;
use crate::running::Running;
use crate::system::System;
use crate::task::Task;
use crate::tasks::place_of;
use crate::turn::{note_own, reserve};
use crate::whereabouts::Whereabouts;
use disk_model::{checkpoints_fit, made_files_change};
use footprints::footprints_grow;
use held_output::Trace;
use kernel_model::{Answer, Event, Refused, tables_keep_their_limits};
use machine_model::Stop;
use pipes::{ends_grow_by_one, steps_are_shown};
use std::alloc::AllocError;

/// Whether a result is of the loan that a task is out on. Where it is known that it began from the state which the task keeps, if
/// the numbers agree, the two states are not compared.
fn is_of_loan(task: &Task, done: &Done, is_known: bool) -> bool
    requires { is_known ≡ true → MayBeLoanOf task.now done.now }
    ensures { IsTrue result ↔ IsLoanOf task.now done.now }
{
    match &task.whereabouts {
        Whereabouts::Here(_) => false,
        Whereabouts::Out { began, quantum } => {
            *quantum == done.quantum
                && task.loans == done.number
                && (is_known || began.is_same(&done.began))
        }
    }
}

/// The process is back with the machine of this result. The state with which it was lent, which the task no longer shares, becomes
/// the machine's replica, or room for a copy. Where the process ends it goes, since no loan comes after this one.
fn come_back(task: &mut Task, done: Done, is_last: bool)
    ensures back { IsBack done.machine task.old task.new }
    ensures trace { task.new.trace ≡ task.old.trace }
{
    let Done {
        quantum,
        began,
        machine,
        count,
        ..
    } = done;
    task.whereabouts = Whereabouts::Here(ReplicatedMachine::new(machine));
    if is_last {
        return;
    }
    task.whereabouts.replicate(began, quantum, count);
}

/// As `prepare`, of a result whose machine stands at this call or trap.
fn prepare_done(
    history: &mut Vec<Event>,
    system: &mut System,
    done: &Done,
    standing: Stop,
    trace: &mut Trace,
) -> Result<EnterPlan, AllocError>
    requires fine { MayEnter system.old done.now.pid done.now.machine trace.old }
    requires stands { stopped_at done.now.machine ≡ Some standing }
    ensures history { history.new.items ≡ history.old.items }
    ensures trace { IsSame trace.old trace.new }
    ensures prepared { IfOk result (λ e. IsPrepared done.now.pid done.now.machine trace.old system.old system.new e) }
    ensures holds { IfOk result (λ e. HasRoomForEnter history.new trace.new system.new e) }
    ensures err { OnErr result (IsSameSystem system.old system.new) }
{
    let machine = done.machine.machine();
    let caller = Caller {
        pid: done.pid,
        machine,
        stop: standing,
    };
    prepare(history, system, &caller, trace)
}

/// Takes a result back of a task whose machine stands at this call or trap: it becomes a Turn and an Enter. Gives what the Enter
/// came to, and the process that it made.
fn settle_enter(
    history: &mut Vec<Event>,
    system: &mut System,
    task: &mut Task,
    done: Done,
    standing: Stop,
) -> Result<(Answer, Option<Box<Task>>), Rejected>
    requires fine { MayEnter system.old done.pid done.machine task.old.trace }
    requires stands { stopped_at done.machine ≡ Some standing }
    ensures done { IfOk result (λ r. (o : Outcome) × (r.0 ≡ Answer.Settled done.count done.stop (Some o))
        × IsTurnEntered done.pid done.machine task.old task.new system.old system.new o (unboxed r.1)) }
    ensures history { OnOk result (history.new.items ≡ history.old.items ++ Event.Turn done.pid done.count ∷ Event.Enter done.pid ∷ []) }
    ensures err { OnErr result (AreUnchanged task.old task.new system.old system.new history.old.items history.new.items) }
    ensures back { IfErr result (LackedMemory done) }
{
    let pid = done.pid;
    let Ok(entering) = prepare_done(history, system, &done, standing, &mut task.trace) else {
        return Err(Rejected {
            why: Refused::OutOfMemory,
            done,
        });
    };
    let (count, stop) = (done.count, done.stop);
    note_own(&mut system.dependencies, pid);
    history.push(Event::Turn { pid, n: count }).unwrap();
    come_back(task, done, entering.ends());
    let (outcome, child) = carry_out(history, system, task, entering);
    let answer = Answer::Settled {
        count,
        stop,
        outcome: Some(outcome),
    };
    Ok((answer, child))
}

impl Running {
    /// As `Core::settle`. The clause speaks of every boot of which these are the parts.
    pub fn settle(&mut self, done: Done) -> Result<Answer, Rejected>
        requires { (b : Boot) × Represents b self.old }
        ensures { (b : Boot) → Represents b self.old → TakesBack b done self.old self.new result }
    {
        self.take_back(done, false)
    }

    /// As `Core::settle_known`. The clause speaks of every boot of which these are the parts.
    pub fn settle_known(&mut self, done: Done) -> Result<Answer, Rejected>
        requires { (b : Boot) × Represents b self.old × IsKnownResult (kernel_in b self.old) done }
        ensures { (b : Boot) → Represents b self.old → TakesBack b done self.old self.new result }
    {
        self.take_back(done, true)
    }

    /// As `settle`, and where it is known from which state the result began, as `settle_known`.
    fn take_back(&mut self, done: Done, is_known: bool) -> Result<Answer, Rejected>
        requires { (b : Boot) × Represents b self.old × (is_known ≡ true → IsKnownResult (kernel_in b self.old) done) }
        ensures { (b : Boot) → Represents b self.old → TakesBack b done self.old self.new result }
    {
        checkpoints_fit();
        made_files_change();
        steps_are_shown();
        ends_grow_by_one();
        tables_keep_their_limits();
        footprints_grow();
        let Some(place) = place_of(&self.tasks, done.pid) else {
            return Err(Rejected {
                why: Refused::Stranger,
                done,
            });
        };
        let task = &self.tasks[place];
        if !is_of_loan(task, &done, is_known) {
            return Err(Rejected {
                why: Refused::Stranger,
                done,
            });
        }
        match done.standing() {
            None => self.settle_turn(done, place),
            Some(standing) => self.settle_call(done, place, standing),
        }
    }

    /// Takes a result back of the process at this place, whose machine stands nowhere: it becomes a Turn. Refused, with nothing
    /// changed: OutOfMemory.
    fn settle_turn(&mut self, done: Done, place: usize) -> Result<Answer, Rejected>
        requires { MaySettleTurn place self.old }
        ensures done { IfOk result (IsTurnSettled done place self.old self.new) }
        ensures same { OnErr result (IsNotSettled place self.old self.new) }
        ensures back { IfErr result (LackedMemory done) }
    {
        if reserve(&mut self.history, &mut self.system.dependencies, 1, 1).is_err() {
            return Err(Rejected {
                why: Refused::OutOfMemory,
                done,
            });
        }
        let (pid, count, stop) = (done.pid, done.count, done.stop);
        note_own(&mut self.system.dependencies, pid);
        come_back(&mut self.tasks[place], done, false);
        self.out -= 1;
        self.history.push(Event::Turn { pid, n: count }).unwrap();
        self.ran += u64::from(count);
        Ok(Answer::Settled {
            count,
            stop,
            outcome: None,
        })
    }

    /// As `settle_turn`, of a machine that stands at this call or trap: an Enter comes after the Turn.
    fn settle_call(&mut self, done: Done, place: usize, standing: Stop) -> Result<Answer, Rejected>
        requires fine { MaySettleCall done place self.old }
        requires stands { stopped_at done.machine ≡ Some standing }
        ensures done { IfOk result (IsCallSettled done place self.old self.new) }
        ensures same { OnErr result (IsNotSettled place self.old self.new) }
        ensures back { IfErr result (LackedMemory done) }
    {
        if self.tasks.reserve(1).is_err() {
            return Err(Rejected {
                why: Refused::OutOfMemory,
                done,
            });
        }
        let task = &mut self.tasks[place];
        let count = u64::from(done.count);
        let (answer, child) = settle_enter(
            &mut self.history,
            &mut self.system,
            task,
            done,
            standing,
        )?;
        join(&mut self.tasks, child);
        self.out -= 1;
        self.ran += count;
        Ok(answer)
    }
}

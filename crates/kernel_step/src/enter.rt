//! An Enter, by a system call or a trap: a process is told what that comes to.
ghost use Rattle.std.specs.Prelude.{◌≡◌, ◌<◌, ◌++◌, ◌∷◌, [], None, Some, vec_len, vec_capacity, option_to_list, IfOk, IfErr, OnOk, OnErr};
ghost use Rattle.machine_model.specs.States.{stopped_at};
ghost use Rattle.kernel_model.specs.Answers.{Refuses, entered as answer_to};
ghost use Rattle.kernel_model.specs.World.{Boot};
ghost use Rattle.kernel_step.specs.Represents.{Represents, Steps};
ghost use Rattle.kernel_step.specs.Entering.{IsDone, unboxed};
ghost use Rattle.kernel_step.specs.Ready.{MayEnter};
ghost use Rattle.kernel_step.specs.Trying.{is_history_full, MayTryEnter, IsEnterAccepted, IsEnterRefused};
ghost use Rattle.kernel_step.specs.Tasks.{machine_of, out_of};
ghost use Rattle.kernel_step.specs.Tests.{enter_refusal_of};
ghost use Rattle.kernel_step.specs.Unchanged.{AreUnchanged};

use crate::finishing::carry_out;
use crate::plan::Caller;
use crate::room::prepare;
use crate::running::Running;
use crate::system::System;
use crate::task::Task;
use crate::tasks::enter_place;
use disk_model::{checkpoints_fit, made_files_change};
use footprints::footprints_grow;
use kernel_model::{Answer, Event, Outcome, Refused, tables_keep_their_limits};
use machine_model::Stop;
use pipes::{ends_grow_by_one, steps_are_shown};
use std::alloc::AllocError;

fn entered(outcome: Outcome) -> Answer
    ensures { result ≡ answer_to outcome }
{
    match outcome {
        Outcome::Entered => Answer::Entered,
        Outcome::Waits => Answer::Waits,
        Outcome::Ended => Answer::Ended,
    }
}

/// A process that was made comes after the others. Takes no memory.
pub fn join(tasks: &mut Vec<Task>, child: Option<Box<Task>>)
    requires { vec_len tasks.old < vec_capacity tasks.old }
    ensures { tasks.new.items ≡ tasks.old.items ++ option_to_list (unboxed child) }
{
    if let Some(child) = child {
        tasks.push(Box::into_inner(child)).unwrap();
    }
}

/// A process enters the kernel whose machine is here and stands at this call or trap. Gives what the Enter came to, and the process
/// that it made, if it made one. Where memory runs out nothing has changed.
fn enter_task(
    history: &mut Vec<Event>,
    system: &mut System,
    pid: u32,
    stop: Stop,
    task: &mut Task,
) -> Result<(Outcome, Option<Box<Task>>), AllocError>
    requires here { out_of task.old ≡ None }
    requires stands { stopped_at (machine_of task.old) ≡ Some stop }
    requires fine { MayEnter system.old pid (machine_of task.old) task.old.trace }
    ensures done { IfOk result (λ r. IsDone pid task.old task.new system.old system.new r.0 (unboxed r.1)) }
    ensures history { OnOk result (history.new.items ≡ history.old.items ++ Event.Enter pid ∷ []) }
    ensures err { OnErr result (AreUnchanged task.old task.new system.old system.new history.old.items history.new.items) }
{
    let machine = task.whereabouts.machine();
    let caller = Caller { pid, machine, stop };
    let entering = prepare(history, system, &caller, &mut task.trace)?;
    Ok(carry_out(history, system, task, entering))
}

impl Running {
    /// The process enters the kernel by the call or the trap at which it stands. Refused as `Core::apply` says.
    pub(crate) fn enter(&mut self, pid: u32) -> Result<Answer, Refused>
        requires { (b : Boot) × Represents b self.old }
        ensures { (b : Boot) → Represents b self.old → Steps b (Event.Enter pid) self.old self.new result }
    {
        tables_keep_their_limits();
        footprints_grow();
        self.try_enter(pid)
    }

    /// As `enter`, by a contract over the parts alone.
    fn try_enter(&mut self, pid: u32) -> Result<Answer, Refused>
        requires { MayTryEnter self.old }
        ensures done { IfOk result (IsEnterAccepted pid self.old self.new) }
        ensures refused { IfErr result (Refuses (enter_refusal_of self.old.tasks.items (is_history_full self.old) pid)) }
        ensures same { OnErr result (IsEnterRefused self.old self.new) }
    {
        checkpoints_fit();
        made_files_change();
        steps_are_shown();
        ends_grow_by_one();
        let full = self.is_full();
        let (place, stop) = enter_place(&self.tasks, full, pid)?;
        self.tasks.reserve(1)?;
        let task = &mut self.tasks[place];
        let (outcome, child) = enter_task(&mut self.history, &mut self.system, pid, stop, task)?;
        join(&mut self.tasks, child);
        Ok(entered(outcome))
    }
}

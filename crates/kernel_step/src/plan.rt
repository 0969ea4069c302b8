//! What an Enter comes to, found before anything changes.
ghost use Rattle.std.specs.Prelude.{◌≡◌, ◌+◌, ◌<◌, ◌≤◌, ◌^◌, ◌∷◌, length, IfOk, Some, None, true, is_some};
ghost use Rattle.machine_model.specs.Numbers.{cause_number};
ghost use Rattle.machine_model.specs.States.{stopped_at};
ghost use Rattle.machine_model.specs.Replies.{replied};
ghost use Rattle.processes.specs.Parts.{descriptors_in, part_at};
ghost use Rattle.kernel_model.specs.Shown.{end_in};
ghost use Rattle.kernel_model.specs.Steps.{zero_reply};
ghost use Rattle.held_output.specs.Withheld.{whats};
ghost use Rattle.kernel_model.specs.declared.carrier.Carrier.TheVariants.{Proc};
ghost use Rattle.kernel_step.specs.Entering.{sight_in, writes_of, in_image_by, MayBeTold, MayPlan, AreSteps, IsSpare, PlansEnter, IsEntering, IsChild, unboxed};
ghost use Rattle.kernel_step.specs.Ready.{MayEnter};

use crate::system::System;
use crate::task::Task;
use calls::{CallPlan, PipeStep, Verdict, plan_call, plan_end, request_of};
use commit_deps::Carrier;
use held_output::Trace;
use machine::{Machine, SharedMachine};
use machine_model::{Cause, Reply, Stop};
use pipes::Pipe;
use processes::{Descriptors, ProcTable};
use std::alloc::{AllocError, Global};

/// A process that enters the kernel: its number, its machine, and the call or the trap at which that stands, which was asked for once.
#[derive(Clone, Copy)]
pub struct Caller<'a> {
    pub pid: u32,
    pub machine: &'a Machine,
    pub stop: Stop,
}

/// What an Enter of a process comes to; the process is not told anything yet. `writes` are all carriers that its event writes.
/// `spare` and `child` are the pipe and the process that it makes, if it makes one. The process goes on with `next`, if its reply
/// has an image. `child` and `next` stand in boxes: few calls have them, and each call moves this value.
#[derive(Drop)]
pub struct EnterPlan {
    pub pid: u32,
    pub plan: CallPlan,
    pub writes: Vec<Carrier>,
    pub spare: Option<Pipe>,
    pub child: Option<Box<Task>>,
    pub next: Option<SharedMachine>,
}

fn trap_status(cause: Cause) -> u32
    ensures { result ≡ 256 + cause_number cause }
{
    256 + u32::from(cause.number())
}

fn descriptors_of(processes: &ProcTable, pid: u32) -> &Descriptors
    requires from_1 { 0 < pid }
    requires there { pid ≤ length processes.now.parts }
    ensures { result.now ≡ descriptors_in (part_at processes.now.parts pid) }
{
    processes.descriptors(pid).unwrap()
}

/// The plan of the Enter of a process whose machine stands here, at a call or at a trap.
fn plan_enter(system: &System, caller: &Caller<'_>) -> Result<CallPlan, AllocError>
    requires stands { stopped_at caller.now.machine.now ≡ Some caller.now.stop }
    requires fine { MayPlan (sight_in system.now) caller.now.pid }
    ensures { IfOk result (λ plan. PlansEnter (sight_in system.now) caller.now.pid caller.now.machine.now plan) }
{
    match caller.stop {
        Stop::Trap(cause) => {
            let descriptors = descriptors_of(&system.processes, caller.pid);
            plan_end(system.alloc, descriptors, trap_status(cause))
        }
        _ => {
            let request = request_of(system.alloc, caller.machine)?;
            plan_call(system.alloc, &system.tables(), caller.pid, request)
        }
    }
}

/// The process's own carrier, and these.
fn with_own(alloc: Global, pid: u32, carriers: &[Carrier]) -> Result<Vec<Carrier>, AllocError>
    ensures { IfOk result (λ all. all.items ≡ Proc pid ∷ carriers.now) }
{
    let mut all = Vec::new(alloc);
    all.push(Carrier::Proc(pid))?;
    all.extend_from_slice(carriers)?;
    Ok(all)
}

/// The carriers that the event of a plan writes: none where the process has to wait.
fn all_writes(alloc: Global, pid: u32, plan: &CallPlan) -> Result<Vec<Carrier>, AllocError>
    ensures { IfOk result (λ all. all.items ≡ writes_of pid plan.now.verdict plan.now.writes.items) }
{
    match &plan.verdict {
        Verdict::Waits => Ok(Vec::new(alloc)),
        Verdict::Replies(_) => with_own(alloc, pid, &plan.writes),
        Verdict::Ends(_) => with_own(alloc, pid, &plan.writes),
    }
}

/// The pipe that these steps make, if they make one.
fn spare_pipe(alloc: Global, steps: &[PipeStep]) -> Result<Option<Pipe>, AllocError>
    requires { AreSteps steps.now }
    ensures { IfOk result (λ spare. IsSpare steps.now spare) }
{
    match steps.first() {
        Some(PipeStep::Open) => {
            let pipe = Pipe::new(alloc)?;
            Ok(Some(pipe))
        }
        _ => Ok(None),
    }
}

/// The machine of a process that a fork makes: its parent's, told 0.
fn forked_machine(alloc: Global, machine: &Machine) -> Result<Machine, AllocError>
    requires stands { stopped_at machine.now ≡ Some Stop.Call }
    requires budget { machine.now.count < 2 ^ 40 }
    ensures { IfOk result (λ m. m ≡ replied machine.now zero_reply) }
{
    let mut child = machine.try_clone(alloc)?;
    child.reply(&Reply::number(0));
    Ok(child)
}

/// The process of this number, if an Enter makes one, where its parent's machine and trace are these.
fn prepare_child(
    alloc: Global,
    number: Option<u32>,
    machine: &Machine,
    trace: &Trace,
) -> Result<Option<Box<Task>>, AllocError>
    requires stands { is_some number ≡ true → stopped_at machine.now ≡ Some Stop.Call }
    requires budget { machine.now.count < 2 ^ 40 }
    requires running { end_in (whats trace.now.items) ≡ None }
    ensures { IfOk result (λ child. IsChild number machine.now trace.now (unboxed child)) }
{
    let Some(pid) = number else {
        return Ok(None);
    };
    let machine = forked_machine(alloc, machine)?;
    let trace = trace.forked(alloc)?;
    let child = Box::new(alloc, Task::made(alloc, pid, machine, trace)?)?;
    Ok(Some(child))
}

/// The machine with which a process goes on that is told this, if its reply has an image.
fn prepare_next(
    alloc: Global,
    verdict: &Verdict,
    machine: &Machine,
) -> Result<Option<SharedMachine>, AllocError>
    requires fine { MayBeTold machine.now verdict.now }
    requires budget { machine.now.count < 2 ^ 40 }
    ensures { IfOk result (λ next. next ≡ in_image_by machine.now verdict.now) }
{
    let Verdict::Replies(reply) = verdict else {
        return Ok(None);
    };
    match reply.image() {
        Some(image) => {
            let next = SharedMachine::new(alloc, machine.entered(alloc, image)?)?;
            Ok(Some(next))
        }
        None => Ok(None),
    }
}

impl EnterPlan {
    /// Finds what an Enter comes to of a process whose trace is this; nothing changes. Refused for want of memory alone.
    pub fn new(system: &System, caller: &Caller<'_>, trace: &Trace) -> Result<EnterPlan, AllocError>
        requires fine { MayEnter system.now caller.now.pid caller.now.machine.now trace.now }
        requires stands { stopped_at caller.now.machine.now ≡ Some caller.now.stop }
        ensures { IfOk result (λ e. IsEntering (sight_in system.now) caller.now.pid caller.now.machine.now trace.now e) }
    {
        let alloc = system.alloc;
        let plan = plan_enter(system, caller)?;
        let writes = all_writes(alloc, caller.pid, &plan)?;
        let spare = spare_pipe(alloc, &plan.pipes)?;
        let child = prepare_child(alloc, plan.child, caller.machine, trace)?;
        let next = prepare_next(alloc, &plan.verdict, caller.machine)?;
        Ok(EnterPlan {
            pid: caller.pid,
            plan,
            writes,
            spare,
            child,
            next,
        })
    }

    /// Whether the process ends by it.
    pub fn ends(&self) -> bool {
        matches!(&self.plan.verdict, Verdict::Ends(_))
    }
}

//! The rest of an Enter, once nothing of it may fail.
ghost use Rattle.std.specs.Prelude.{ℕ, ◌≡◌, ◌<◌, ◌≤◌, ◌^◌, ◌++◌, ◌∷◌, [], Option, length, Some, None, is_some, if◌then◌else◌, vec_len, vec_capacity, option_to_list};
ghost use Rattle.std.specs.List.{AllByRecursion};
ghost use Rattle.machine_model.specs.States.{State};
ghost use Rattle.calls.specs.Plans.{MayAllStep, OpensNone, all_seen};
ghost use Rattle.pipes.specs.Stepping.{seen_after, MayStep};
ghost use Rattle.processes.specs.Parts.{part_at, with_part, with_slots};
ghost use Rattle.kernel_model.specs.Answers.{outcome_of};
ghost use Rattle.kernel_model.specs.Entries.{Item};
ghost use Rattle.kernel_model.specs.State.{read_by};
ghost use Rattle.held_output.specs.Withheld.{Withheld};
ghost use Rattle.kernel_step.specs.Entering.{entry_of, item_of, parts_after, with_children, IsSpare, IsTold, HasSpaceFor, ArePrinted, IsChild, MakesTask, IsNoted, IsFinished, IsCarriedOut, unboxed};
ghost use Rattle.kernel_step.specs.Ready.{MayChangeParts, MayChangeSystem, IsReady, MayBeNoted};
ghost use Rattle.kernel_step.specs.Waiting.{served_after};

use crate::plan::EnterPlan;
use crate::replies::{tell, tell_child};
use crate::system::System;
use crate::task::Task;
use calls::{CallPlan, PipeStep, Slot, Verdict};
use commit_deps::{Carrier, Dependencies, Mark};
use disk_model::Change;
use held_output::Withheld;
use kernel_model::{Event, Outcome, Output};
use pipes::{Pipe, PipeTable};
use processes::ProcTable;

/// The number of a plan's change, if it makes one; they are counted from 0.
fn change_number(change: &Option<Change>, changes: usize) -> Option<u64>
    ensures { result ≡ (if is_some change.now then Some changes else None) }
{
    match change {
        Some(_) => Some(changes as u64),
        None => None,
    }
}

/// Notes the event of an Enter that is prepared, where there are so many changes, and gives its mark. Takes no memory.
fn note_enter(dependencies: &mut Dependencies, entering: &EnterPlan, changes: usize) -> Mark
    requires room { length entering.now.writes.items ≤ dependencies.old.room }
    requires few { changes < 2 ^ 63 }
    requires writes { entering.now.writes.items ≡ (entry_of entering.now.pid entering.now.plan).writes }
    ensures { IsNoted (entry_of entering.now.pid entering.now.plan) changes dependencies.old.marks dependencies.new.marks result }
{
    let change = change_number(&entering.plan.change, changes);
    let own = Carrier::Proc(entering.pid);
    let mark = dependencies.mark_with(own, &entering.plan.reads, change);
    dependencies.note(&entering.writes, mark);
    mark
}

/// Appends an event's output to its terminal, if there is one of its number. Takes no memory.
fn print(screens: &mut Vec<Withheld<u8>>, output: &Option<Output>, mark: Mark)
    requires { HasSpaceFor output.now screens.old.items }
    ensures { ArePrinted output.now mark screens.old.items screens.new.items }
{
    let Some(output) = output else {
        return;
    };
    let place = output.terminal as usize;
    if place >= screens.len() {
        return;
    }
    let screen = &mut screens[place];
    screen.extend(output.bytes.as_slice(), mark);
}

/// One step of a pipe that was made before. Takes no memory.
fn step_pipe(pipes: &mut PipeTable, step: &PipeStep)
    requires plain { OpensNone step.now }
    requires may { MayStep pipes.old step.now }
    ensures { pipes.new ≡ seen_after pipes.old step.now }
{
    match step {
        PipeStep::Open => unreachable!(),
        PipeStep::Put { pipe, bytes } => pipes.put(*pipe, bytes.as_slice()),
        PipeStep::Take { pipe, count } => pipes.take(*pipe, *count),
        PipeStep::Add(end) => pipes.add_end(*end),
        PipeStep::Drop(end) => pipes.drop_end(*end),
    }
}

/// Steps of pipes that were made before. Takes no memory.
fn step_all(pipes: &mut PipeTable, steps: &[PipeStep])
    requires plain { AllByRecursion OpensNone steps.now }
    requires may { MayAllStep pipes.old steps.now }
    ensures { pipes.new ≡ all_seen pipes.old steps.now }
{
    for step in steps {
        step_pipe(pipes, step);
    }
}

/// The steps of a plan. A pipe that is ready becomes the next by number, or pipes that were made before are used. Takes no memory.
fn step_pipes(pipes: &mut PipeTable, steps: &[PipeStep], spare: Option<Pipe>)
    requires spare { IsSpare steps.now spare }
    requires may { MayAllStep pipes.old steps.now }
    ensures { pipes.new ≡ all_seen pipes.old steps.now }
{
    match spare {
        Some(pipe) => pipes.push(pipe),
        None => step_all(pipes, steps),
    }
}

/// Descriptors of a process stand for something else from now on. Takes no memory.
fn set_all(processes: &mut ProcTable, pid: u32, slots: &[Slot])
    ensures { processes.new.parts ≡ with_part processes.old.parts pid (part_at processes.old.parts pid) (with_slots slots.now) }
{
    for slot in slots {
        processes.set(pid, *slot);
    }
}

/// A process makes a child, or collects one. Takes no memory.
fn change_children(processes: &mut ProcTable, pid: u32, plan: &CallPlan)
    requires { MayChangeParts processes.old pid plan.now }
    ensures { processes.new.parts ≡ with_children processes.old.parts pid plan.now }
{
    match plan.child {
        Some(_) => {
            let _ = processes.fork(pid);
        }
        None => {
            if let Some(child) = plan.collects {
                processes.collect(pid, child);
            }
        }
    }
}

fn change_parts(processes: &mut ProcTable, pid: u32, plan: &CallPlan)
    requires { MayChangeParts processes.old pid plan.now }
    ensures { processes.new.parts ≡ parts_after processes.old.parts pid plan.now }
{
    change_children(processes, pid, plan);
    match &plan.verdict {
        Verdict::Waits => {}
        Verdict::Replies(_) => set_all(processes, pid, &plan.slots),
        Verdict::Ends(status) => processes.end(pid, *status),
    }
}

fn count_served(verdict: &Verdict, served: u64) -> u64
    requires { served < 2 ^ 63 }
    ensures { result ≡ served_after verdict.now served }
{
    match verdict {
        Verdict::Waits => served,
        Verdict::Replies(_) => served + 1,
        Verdict::Ends(_) => served + 1,
    }
}

/// Does what an Enter changes that is shared, beside its output and its change of the files. Takes no memory.
fn change_system(system: &mut System, pid: u32, plan: &CallPlan, spare: Option<Pipe>)
    requires { MayChangeSystem system.old pid plan.now spare }
    ensures system { system.new ≡ record system.old {
      tapes = read_by system.old.tapes plan.now.tape;
      pipes = all_seen system.old.pipes plan.now.pipes.items;
      processes = system.new.processes;
      served = served_after plan.now.verdict system.old.served;
    } }
    ensures parts { system.new.processes.parts ≡ parts_after system.old.processes.parts pid plan.now }
{
    if let Some(read) = plan.tape {
        system.tapes.advance(read);
    }
    step_pipes(&mut system.pipes, &plan.pipes, spare);
    change_parts(&mut system.processes, pid, plan);
    system.served = count_served(&plan.verdict, system.served);
}

/// A change of the files, if there is one, comes after the others. Takes no memory.
fn keep(changes: &mut Vec<Change>, change: Option<Change>)
    requires { vec_len changes.old < vec_capacity changes.old }
    ensures { changes.new.items ≡ changes.old.items ++ option_to_list change }
{
    if let Some(change) = change {
        changes.push(change).unwrap();
    }
}

/// Does the rest of an Enter that is prepared and whose event is noted with this mark. The process's machine is here. Gives what it
/// came to, and the process that it made, if it made one. Takes no memory.
fn finish(
    task: &mut Task,
    system: &mut System,
    entering: EnterPlan,
    mark: Mark,
) -> (Outcome, Option<Box<Task>>)
    requires { IsReady task.old system.old entering }
    ensures outcome { result.0 ≡ outcome_of (item_of entering.plan.verdict) }
    ensures task { IsTold entering.plan.verdict mark system.old.served task.old task.new }
    ensures system { IsFinished entering.pid entering.plan mark system.old system.new }
    ensures child { (number : Option ℕ) (s : State) (parent : Withheld Item) → IsChild number s parent (unboxed entering.child) → MakesTask number mark s parent (unboxed result.1) }
{
    let before = system.served;
    let EnterPlan {
        pid,
        plan,
        spare,
        child,
        next,
        ..
    } = entering;
    print(&mut system.screens, &plan.output, mark);
    change_system(system, pid, &plan, spare);
    let (verdict, change) = plan.into_verdict_and_change();
    keep(&mut system.changes, change);
    let outcome = tell(task, verdict, next, before, mark);
    (outcome, tell_child(child, mark))
}

/// Carries out an Enter that is prepared, of a process whose machine is here. Its event is noted and joins the history, as does what
/// it read and wrote, and the rest of it is done. Gives what it came to, and the process that it made, if it made one. Takes no
/// memory.
pub fn carry_out(
    history: &mut Vec<Event>,
    system: &mut System,
    task: &mut Task,
    entering: EnterPlan,
) -> (Outcome, Option<Box<Task>>)
    requires ready { IsReady task.old system.old entering }
    requires noting { MayBeNoted system.old entering }
    requires events { vec_len history.old < vec_capacity history.old }
    ensures carried { IsCarriedOut entering task.old task.new system.old system.new result.0 (unboxed result.1) }
    ensures history { history.new.items ≡ history.old.items ++ Event.Enter entering.pid ∷ [] }
{
    let pid = entering.pid;
    let mark = note_enter(&mut system.dependencies, &entering, system.changes.len());
    system
        .footprints
        .note(&entering.plan.reads, &entering.writes);
    let (outcome, child) = finish(task, system, entering, mark);
    history.push(Event::Enter { pid }).unwrap();
    (outcome, child)
}

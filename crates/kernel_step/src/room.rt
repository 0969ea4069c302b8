//! The memory for an Enter, taken before anything of it is done.
ghost use Rattle.std.specs.Prelude.{◌≡◌, ◌+◌, ◌^◌, ◌<◌, ◌≤◌, Some, length, IfOk, OnOk, OnErr};
ghost use Rattle.machine_model.specs.States.{stopped_at};
ghost use Rattle.kernel_model.specs.State.{changed_by};
ghost use Rattle.held_output.specs.Withheld.{IsSame};
ghost use Rattle.kernel_step.specs.Entering.{HasSpaceFor, StayScreens, IsSameSystem, IsSystemWith};
ghost use Rattle.kernel_step.specs.Ready.{MayEnter, HasRoomForPlan, HasRoomForEnter, IsPrepared};

use crate::plan::{Caller, EnterPlan};
use crate::system::System;
use crate::turn::reserve;
use calls::CallPlan;
use disk_model::Change;
use files::FileTable;
use held_output::{Trace, Withheld};
use kernel_model::{Event, Output};
use std::alloc::AllocError;

/// Makes room for an event's output on its terminal, if there is one of its number.
fn reserve_output(
    screens: &mut Vec<Withheld<u8>>,
    output: &Option<Output>,
) -> Result<(), AllocError>
    ensures room { OnOk result (HasSpaceFor output.now screens.new.items) }
    ensures same { StayScreens screens.old.items screens.new.items }
{
    let Some(output) = output else {
        return Ok(());
    };
    let place = output.terminal as usize;
    if place >= screens.len() {
        return Ok(());
    }
    let screen = &mut screens[place];
    screen.reserve(output.bytes.as_slice().len())
}

/// Does a change of the files, if there is one. Where memory runs out nothing has changed.
fn change_files(files: &mut FileTable, change: &Option<Change>) -> Result<(), AllocError>
    requires { files.old.made + 1 < 2 ^ 64 }
    ensures ok { OnOk result (files.new ≡ changed_by files.old change.now) }
    ensures err { OnErr result (files.new ≡ files.old) }
{
    match change {
        Some(change) => files.change(change),
        None => Ok(()),
    }
}

/// Takes the memory that an Enter of this plan takes of what is shared. Then does its change of the files, the last step that may
/// fail. Where memory runs out nothing has changed.
fn ready(system: &mut System, pid: u32, plan: &CallPlan) -> Result<(), AllocError>
    requires from_1 { 0 < pid }
    requires there { pid ≤ length system.old.processes.parts }
    requires fresh { system.old.files.made + 1 < 2 ^ 64 }
    ensures holds { OnOk result (HasRoomForPlan system.new pid plan.now) }
    ensures room { system.old.dependencies.room ≤ system.new.dependencies.room }
    ensures footprints { system.new.footprints ≡ system.old.footprints }
    ensures done { OnOk result (IsSystemWith (changed_by system.old.files plan.now.change) system.old system.new) }
    ensures err { OnErr result (IsSameSystem system.old system.new) }
{
    system.processes.reserve(pid)?;
    system.changes.reserve(1)?;
    reserve_output(&mut system.screens, &plan.output)?;
    change_files(&mut system.files, &plan.change)
}

/// Takes the rest of the memory for an Enter that comes to this, and for the Turn that a loan's result has before it. Then does its
/// change of the files, the last step that may fail. Where memory runs out nothing has changed.
fn take_room(
    history: &mut Vec<Event>,
    system: &mut System,
    trace: &mut Trace,
    entering: &EnterPlan,
) -> Result<(), AllocError>
    requires from_1 { 0 < entering.now.pid }
    requires there { entering.now.pid ≤ length system.old.processes.parts }
    requires fresh { system.old.files.made + 1 < 2 ^ 64 }
    ensures history { history.new.items ≡ history.old.items }
    ensures trace { IsSame trace.old trace.new }
    ensures holds { OnOk result (HasRoomForEnter history.new trace.new system.new entering.now) }
    ensures done { OnOk result (IsSystemWith (changed_by system.old.files entering.now.plan.change) system.old system.new) }
    ensures err { OnErr result (IsSameSystem system.old system.new) }
{
    reserve(
        history,
        &mut system.dependencies,
        2,
        entering.writes.len() + 1,
    )?;
    let carriers = entering.plan.reads.len() + entering.writes.len();
    system.footprints.reserve(1, carriers)?;
    trace.reserve()?;
    ready(system, entering.pid, &entering.plan)?;
    Ok(())
}

/// Finds what an Enter comes to of a process whose trace is this, and takes all memory for it and for a Turn before it. Then does
/// its change of the files, the last step that may fail. Where memory runs out nothing has changed.
pub fn prepare(
    history: &mut Vec<Event>,
    system: &mut System,
    caller: &Caller<'_>,
    trace: &mut Trace,
) -> Result<EnterPlan, AllocError>
    requires fine { MayEnter system.old caller.now.pid caller.now.machine.now trace.old }
    requires stands { stopped_at caller.now.machine.now ≡ Some caller.now.stop }
    ensures history { history.new.items ≡ history.old.items }
    ensures trace { IsSame trace.old trace.new }
    ensures prepared { IfOk result (λ e. IsPrepared caller.now.pid caller.now.machine.now trace.old system.old system.new e) }
    ensures holds { IfOk result (λ e. HasRoomForEnter history.new trace.new system.new e) }
    ensures err { OnErr result (IsSameSystem system.old system.new) }
{
    let entering = EnterPlan::new(system, caller, trace)?;
    take_room(history, system, trace, &entering)?;
    Ok(entering)
}

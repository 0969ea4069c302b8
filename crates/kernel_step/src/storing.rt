//! The device's events: a group is cut, and a write is complete or has failed.
ghost use Rattle.std.specs.Prelude.{◌≡◌, ◌++◌, ◌∷◌, [], drop, IfOk, IfErr, OnOk, OnErr};
ghost use Rattle.std.specs.List.{AllByRecursion};
ghost use Rattle.disk_model.specs.Files.{IsFormed, IsMade};
ghost use Rattle.kernel_model.specs.Answers.{Refuses, cut_refusal, write_refusal};
ghost use Rattle.kernel_step.specs.Advanced.{AreAdvanced, AreMoved};
ghost use Rattle.kernel_step.specs.Storing.{WasCut, IsUncut, IsCompleted, HasFailed};

use crate::system::System;
use crate::task::Task;
use crate::tasks::hand_all;
use disk_model::Change;
use group_commit::{CommitRefusal, Committer};
use held_output::Withheld;
use kernel_model::{Answer, Event, Refused};

fn uncommitted(changes: &[Change], committed: u64) -> &[Change]
    ensures { result.now ≡ drop committed changes.now }
{
    &changes[changes.len().min(committed as usize)..]
}

/// Why a cut of these uncommitted changes is refused, memory aside.
fn cut_refused(committer: &Committer, changes: &[Change], full: bool) -> Option<Refused>
    ensures { result ≡ cut_refusal committer.now changes.now full }
{
    if full {
        return Some(Refused::Budget);
    }
    match committer.may_cut(changes) {
        Ok(()) => None,
        Err(CommitRefusal::DiskFailed) => Some(Refused::DiskFailed),
        Err(CommitRefusal::GroupInFlight) => Some(Refused::GroupInFlight),
        Err(_) => Some(Refused::NothingToCut),
    }
}

/// Submits a group of the first uncommitted changes, or a checkpoint, to the device. Refused, with nothing changed: Budget, where
/// the history is full; DiskFailed; GroupInFlight; NothingToCut; OutOfMemory.
pub fn cut(history: &mut Vec<Event>, system: &mut System, full: bool) -> Result<Answer, Refused>
    requires possible { IsMade system.old.files.living }
    requires formed { AllByRecursion IsFormed (drop system.old.committer.committed system.old.changes.items) }
    ensures done { IfOk result (WasCut system.old.committer system.new.committer system.old.changes.items system.old.files.living full history.old.items history.new.items) }
    ensures refused { IfErr result (Refuses (cut_refusal system.old.committer (drop system.old.committer.committed system.old.changes.items) full)) }
    ensures same { OnErr result (IsUncut system.old.committer system.new.committer history.old.items history.new.items) }
    ensures only { system.new ≡ record system.old { committer = system.new.committer } }
{
    let rest = uncommitted(&system.changes, system.committer.committed());
    if let Some(why) = cut_refused(&system.committer, rest, full) {
        return Err(why);
    }
    history.reserve(1)?;
    match system.committer.cut(system.alloc, rest, &system.files) {
        Err(_) => Err(Refused::OutOfMemory),
        Ok((changes, writes)) => {
            history.push(Event::Cut).unwrap();
            Ok(Answer::Cut { changes, writes })
        }
    }
}

/// Why a Complete or a Fail of the write in flight that begins there is refused, memory aside.
fn write_refused(committer: &Committer, at: u32, full: bool) -> Option<Refused>
    ensures { result ≡ write_refusal committer.now at full }
{
    if full {
        return Some(Refused::Budget);
    }
    if !committer.is_in_flight(at) {
        return Some(Refused::NoSuchWrite);
    }
    None
}

/// The write in flight that begins there is complete. Gives how many changes are committed then. Refused, with nothing changed:
/// Budget, where the history is full; NoSuchWrite; OutOfMemory.
pub fn complete(
    history: &mut Vec<Event>,
    full: bool,
    committer: &mut Committer,
    at: u32,
) -> Result<u64, Refused>
    ensures done { IfOk result (IsCompleted committer.old committer.new at full) }
    ensures history { OnOk result (history.new.items ≡ history.old.items ++ Event.Complete at ∷ []) }
    ensures refused { IfErr result (Refuses (write_refusal committer.old at full)) }
    ensures same_history { OnErr result (history.new.items ≡ history.old.items) }
    ensures same_committer { OnErr result (committer.new ≡ committer.old) }
{
    if let Some(why) = write_refused(committer, at, full) {
        return Err(why);
    }
    history.reserve(1)?;
    match committer.completed(at) {
        Err(_) => Err(Refused::OutOfMemory),
        Ok(committed) => {
            history.push(Event::Complete { at }).unwrap();
            Ok(committed)
        }
    }
}

/// The write in flight that begins there has failed. Refused as `complete` is.
pub fn fail(
    history: &mut Vec<Event>,
    full: bool,
    committer: &mut Committer,
    at: u32,
) -> Result<Answer, Refused>
    ensures done { IfOk result (HasFailed committer.old committer.new at full) }
    ensures history { OnOk result (history.new.items ≡ history.old.items ++ Event.Fail at ∷ []) }
    ensures refused { IfErr result (Refuses (write_refusal committer.old at full)) }
    ensures same_history { OnErr result (history.new.items ≡ history.old.items) }
    ensures same_committer { OnErr result (committer.new ≡ committer.old) }
{
    if let Some(why) = write_refused(committer, at, full) {
        return Err(why);
    }
    history.reserve(1)?;
    match committer.failed(at) {
        Err(_) => Err(Refused::OutOfMemory),
        Ok(()) => {
            history.push(Event::Fail { at }).unwrap();
            Ok(Answer::Failed)
        }
    }
}

fn show_all(screens: &mut [Withheld<u8>], committed: u64)
    ensures { AreAdvanced committed screens.old screens.new }
{
    for screen in screens.iter_mut() {
        screen.advance(committed);
    }
}

/// More may be shown of all terminals and handed out of what processes were told, now that so many changes are committed. Where no
/// more are than before, it looks at none of them.
pub fn release(tasks: &mut Vec<Task>, screens: &mut Vec<Withheld<u8>>, before: u64, committed: u64)
    requires told { AreMoved before tasks.old.items tasks.old.items }
    requires written { AreAdvanced before screens.old.items screens.old.items }
    ensures tasks { AreMoved committed tasks.old.items tasks.new.items }
    ensures screens { AreAdvanced committed screens.old.items screens.new.items }
{
    if committed == before {
        return;
    }
    show_all(screens, committed);
    hand_all(tasks, committed);
}

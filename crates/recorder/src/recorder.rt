//! `Recorder`: runs a core on until one process has further replies, and hands these over.
ghost use Rattle.std.specs.Prelude.{◌≡◌, ◌+◌, ◌<◌, ◌≤◌, true, false, None, Some, is_some, IfOk, IfErr, IfSome, OnOk, OnErr, MatchOption, length};
ghost use Rattle.kernel_model.specs.Answers.{Kernel, now, process_of};
ghost use Rattle.kernel_model.specs.Drains.{IsAllCommitted};
ghost use Rattle.kernel_model.specs.Loans.{is_over, pick, standing_of};
ghost use Rattle.kernel_model.specs.Shown.{end_in, handed};
ghost use Rattle.kernel_model.specs.declared.standing.Standing.TheVariants.{Ended};
ghost use Rattle.recorder.specs.Recording.{Finds, GoesNoFurther, Grows, HasNone, Lengthens, MayRefuse, Rests, Tells, loans_given, quantum};
ghost use Rattle.recorder.specs.declared.recorded.Recorded.TheVariants.{Going, Waits};

use crate::copies::copies_of;
use crate::recorded::Recorded;
use crate::running::{QUANTUM, commit, run_next};
use crate::traces::{ends_are_handed_out, nothing_is_lost, traces_only_grow};
use kernel::{Core, Refused, Standing};
use std::alloc::Global;
use std::marker::Model;

/// A core that runs on for one process, whose replies are recorded. Processes take turns, by rising number and round again. All
/// changes are committed before a call ends well: so its caller sees what rests on committed changes alone.
pub struct Recorder {
    alloc: Global,
    core: Core,
    process: u32,
    /// How many replies of the process's trace were taken.
    taken: usize,
}

impl Drop for Recorder {
    fn drop(self) {
        let Recorder {
            alloc: _,
            core: _core,
            process: _,
            taken: _,
        } = self;
    }
}

impl Model for Recorder {
    ghost use Rattle.recorder.specs.Recording.{Recording, recording_code};

    ghost Value = { Recording };

    ghost coded = { recording_code };

    ghost view = { λ r. record { kernel = r.core; process = r.process; taken = r.taken } };
}

impl Recorder {
    /// A recorder of a process, before any of its replies is taken. A fork may make the process later. Takes no memory.
    pub fn new(alloc: Global, core: Core, process: u32) -> Recorder
        ensures { result ≡ record { kernel = core; process = process; taken = 0 } }
    {
        Recorder {
            alloc,
            core,
            process,
            taken: 0,
        }
    }

    /// The core as it stands.
    pub fn core(&self) -> &Core
        ensures { result.now ≡ self.now.kernel }
    {
        &self.core
    }

    /// Runs the core on until the process has replies that were not taken, and takes them. Runs at most `loans` loans, of 65,536
    /// instructions each. The trace of a process that a fork made begins with its parent's trace up to the fork, and a reply of 0.
    /// A trace only grows at its end. So a debugger that has the replies so far goes on with those that are taken, and what it
    /// reached before stays. What the process has already, replies or its end, is found without a loan, if `loans` is not 0.
    ///
    /// Refused, where what ran stays, and no reply is taken:
    /// - NoProcess: there is no such process, and none runs on;
    /// - Lent: no process is lendable while one is out on loan elsewhere;
    /// - Budget: the process is free, and has no room for as many instructions; or the history has none for events;
    /// - DiskFailed: a write of the disk had failed before;
    /// - OutOfMemory.
    pub fn more(&mut self, loans: u32) -> Result<Recorded, Refused>
        ensures finds { IfOk result (λ recorded. Finds self.old.taken self.new recorded) }
        ensures tells { IfOk result (λ recorded. 0 < loans → (HasNone self.old → ⊥) → Tells recorded) }
        ensures going { IfOk result (λ recorded. recorded ≡ Going → length self.old.kernel.history + loans ≤ length self.new.kernel.history) }
        ensures few { loans_given self.new.kernel ≤ loans_given self.old.kernel + loans }
        ensures committed { OnOk result (IsAllCommitted (now self.new.kernel)) }
        ensures refused { IfErr result (λ why. GoesNoFurther self.new why) }
        ensures taken { OnErr result (self.new.taken ≡ self.old.taken) }
        ensures grows { Grows self.old.kernel self.new.kernel }
        ensures trace { Lengthens self.old.kernel self.new.kernel self.new.process }
        ensures process { self.new.process ≡ self.old.process }
    {
        traces_only_grow();
        self.run_on(loans)
    }

    /// Does what `more` does.
    fn run_on(&mut self, loans: u32) -> Result<Recorded, Refused>
        ensures finds { IfOk result (λ recorded. Finds self.old.taken self.new recorded) }
        ensures tells { IfOk result (λ recorded. 0 < loans → (HasNone self.old → ⊥) → Tells recorded) }
        ensures going { IfOk result (λ recorded. recorded ≡ Going → length self.old.kernel.history + loans ≤ length self.new.kernel.history) }
        ensures few { loans_given self.new.kernel ≤ loans_given self.old.kernel + loans }
        ensures committed { OnOk result (IsAllCommitted (now self.new.kernel)) }
        ensures refused { IfErr result (λ why. GoesNoFurther self.new why) }
        ensures taken { OnErr result (self.new.taken ≡ self.old.taken) }
        ensures grows { Grows self.old.kernel self.new.kernel }
        ensures process { self.new.process ≡ self.old.process }
    {
        nothing_is_lost();
        self.commit()?;
        for _ in 0..loans {
            if let Some(recorded) = self.found()? {
                return Ok(recorded);
            }
            if self.is_over() {
                return self.rest();
            }
            if !self.run_next()? {
                return Err(Refused::Lent);
            }
        }
        Ok(Recorded::Going)
    }

    /// Commits every change.
    fn commit(&mut self) -> Result<(), Refused>
        ensures committed { OnOk result (IsAllCommitted (now self.new.kernel)) }
        ensures refused { IfErr result (λ why. GoesNoFurther self.new why) }
        ensures few { loans_given self.new.kernel ≤ loans_given self.old.kernel }
        ensures grows { Grows self.old.kernel self.new.kernel }
        ensures process { self.new.process ≡ self.old.process }
        ensures taken { self.new.taken ≡ self.old.taken }
    {
        commit(&mut self.core)
    }

    /// Whether no process runs on.
    fn is_over(&self) -> bool
        ensures { result ≡ is_over self.now.kernel quantum }
    {
        self.core.over(QUANTUM)
    }

    /// Runs the next process on loan, and commits what it changed. False where no process is lendable.
    fn run_next(&mut self) -> Result<bool, Refused>
        ensures ran { IfOk result (λ ran. ran ≡ true → length self.old.kernel.history < length self.new.kernel.history) }
        ensures idle { IfOk result (λ ran. ran ≡ false → (pick self.old.kernel quantum ≡ None) × (self.new.kernel ≡ self.old.kernel)) }
        ensures committed { OnOk result (IsAllCommitted (now self.old.kernel) → IsAllCommitted (now self.new.kernel)) }
        ensures refused { IfErr result (λ why. GoesNoFurther self.new why) }
        ensures few { loans_given self.new.kernel ≤ loans_given self.old.kernel + 1 }
        ensures grows { (first : Kernel) → Grows first self.old.kernel → Grows first self.new.kernel }
        ensures process { self.new.process ≡ self.old.process }
        ensures taken { self.new.taken ≡ self.old.taken }
    {
        run_next(&mut self.core)
    }

    /// Takes the replies that were not taken, and gives them. Where there are none, it gives the process's end, if that is handed out,
    /// and else None.
    fn found(&mut self) -> Result<Option<Recorded>, Refused>
        requires committed { IsAllCommitted (now self.old.kernel) }
        ensures finds { IfOk result (λ found. MatchOption found (HasNone self.new × (self.new.taken ≡ self.old.taken)) (λ recorded. Finds self.old.taken self.new recorded)) }
        ensures tells { IfOk result (λ found. IfSome found (λ recorded. Tells recorded)) }
        ensures refused { IfErr result (λ why. GoesNoFurther self.new why) }
        ensures taken { OnErr result (self.new.taken ≡ self.old.taken) }
        ensures kernel { self.new.kernel ≡ self.old.kernel }
        ensures process { self.new.process ≡ self.old.process }
    {
        let Ok(trace) = self.core.trace(self.process) else {
            return Ok(None);
        };
        let count = trace.len();
        if self.taken < count {
            let replies = copies_of(self.alloc, &trace[self.taken..])?;
            self.taken = count;
            return Ok(Some(Recorded::Replies(replies)));
        }
        match self.end() {
            Some(status) => Ok(Some(Recorded::Ended(status))),
            None => Ok(None),
        }
    }

    /// The status with which the process ended, where its end is handed out.
    fn end(&self) -> Option<u32>
        requires committed { IsAllCommitted (now self.now.kernel) }
        ensures handed { is_some (process_of self.now.kernel self.now.process) ≡ true → result ≡ end_in (handed (now self.now.kernel) self.now.process) }
        ensures status { IfSome result (λ status. end_in (handed (now self.now.kernel) self.now.process) ≡ Some status) }
        ensures ended { IfSome result (λ status. standing_of self.now.kernel self.now.process ≡ Ended) }
    {
        ends_are_handed_out();
        match self.core.ended(self.process) {
            Ok(status) => status,
            Err(_) => None,
        }
    }

    /// How the process stands where no process runs on.
    fn rest(&self) -> Result<Recorded, Refused>
        requires none { HasNone self.now }
        requires over { Rests self.now.kernel }
        requires committed { IsAllCommitted (now self.now.kernel) }
        ensures finds { IfOk result (λ recorded. Finds self.now.taken self.now recorded) }
        ensures waits { IfOk result (λ recorded. recorded ≡ Waits) }
        ensures refused { IfErr result (λ why. GoesNoFurther self.now why) }
    {
        ends_are_handed_out();
        match self.core.standing(self.process)? {
            Standing::Waits => Ok(Recorded::Waits),
            _ => Err(Refused::Budget),
        }
    }
}

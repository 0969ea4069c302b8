//! The player of scripts. Read `Visitor` first: whoever has a script played gives one, and the player tells it what happens.
use crate::steps::{Action, Question, Step};
use kernel::{Answer, Core, Event, Refused};
use std::alloc::AllocError;

/// What a line came to that is no `crash` line. A refusal here is never for want of memory, which ends the run.
#[derive(Clone, Copy)]
pub enum LineAnswer {
    Applied(Result<Answer, Refused>),
    Drained(Result<(), Refused>),
    Asked(Question),
}

/// What a caller has done while a script is played: before and after each event, after each line, and at each crash.
pub trait Visitor {
    /// Why the run ends before its end.
    type Fault: From<AllocError> + Drop;

    /// Called before each event, of a line or of a drain. The event may then be refused.
    fn before(&mut self, _core: &Core, _event: Event) -> Result<(), Self::Fault> {
        Ok(())
    }

    /// Called after each event that was accepted.
    fn after(&mut self, _core: &Core, _event: Event, _answer: Answer) -> Result<(), Self::Fault> {
        Ok(())
    }

    /// Called after each line that is no `crash` line, once all its events are done.
    fn answered(&mut self, _core: &Core, _answer: LineAnswer) -> Result<(), Self::Fault> {
        Ok(())
    }

    /// Called at a `crash` line. Ends the core with these bytes in the ranges of writes in flight or failed, and boots the next
    /// one.
    fn crash(&mut self, core: Core, fill: &[u8]) -> Result<Core, Self::Fault>;
}

#[derive(Drop)]
struct Player<'a, V> {
    visitor: &'a mut V,
}

impl<V: Visitor> Player<'_, V> {
    fn apply(
        &mut self,
        core: &mut Core,
        event: Event,
    ) -> Result<Result<Answer, Refused>, V::Fault> {
        self.visitor.before(core, event)?;
        let answer = core.apply(event);
        match answer {
            Ok(answer) => self.visitor.after(core, event, answer)?,
            Err(Refused::OutOfMemory) => return Err(V::Fault::from(AllocError)),
            Err(_) => {}
        }
        Ok(answer)
    }

    /// Applies the events of `Core::drain` one by one, and is refused where `Core::drain` is.
    fn drain(&mut self, core: &mut Core) -> Result<Result<(), Refused>, V::Fault> {
        if core.has_failed() {
            return Ok(Err(Refused::DiskFailed));
        }
        for _ in 0..u64::MAX {
            let Some(event) = core.next_of_drain() else {
                break;
            };
            if let Err(why) = self.apply(core, event)? {
                return Ok(Err(why));
            }
        }
        Ok(Ok(()))
    }

    fn act(&mut self, core: &mut Core, action: Action) -> Result<(), V::Fault> {
        let answer = match action {
            Action::Apply(event) => LineAnswer::Applied(self.apply(core, event)?),
            Action::Drain => LineAnswer::Drained(self.drain(core)?),
            Action::Ask(question) => LineAnswer::Asked(question),
        };
        self.visitor.answered(core, answer)
    }

    /// Does a step. A `crash` line gives another core than the one that was handed in.
    fn step(&mut self, mut core: Core, step: &Step) -> Result<Core, V::Fault> {
        match step {
            Step::Act(action) => {
                self.act(&mut core, *action)?;
                Ok(core)
            }
            Step::Crash(fill) => self.visitor.crash(core, fill.as_slice()),
        }
    }
}

/// Does the steps of a script on a core that has just been booted. Gives the core that is there after the last one.
pub fn play_all<V: Visitor>(
    visitor: &mut V,
    mut core: Core,
    steps: &[Step],
) -> Result<Core, V::Fault> {
    let mut player = Player { visitor };
    for step in steps {
        core = player.step(core, step)?;
    }
    Ok(core)
}

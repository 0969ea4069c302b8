//! How a run goes on from its first boot.
use exec_runs::{Ending, Order, Turns};
use faults::Fault;
use kernel::{Core, Event};
use scripts::{Step, Visitor, play_all};
use std::alloc::AllocError;

/// How a run goes on from its first boot.
#[derive(Drop)]
pub enum Course {
    /// By the steps of a script.
    Steps(Vec<Step>),
    /// By turns, to its end, or until so many instructions were run. Each change is committed at once, in a group of its own.
    ToEnd { limit: u64 },
}

/// How a run ended, and its core then.
#[derive(Drop)]
pub struct RunEnd {
    pub ending: Ending,
    pub core: Option<Core>,
}

/// Turns up to so many instructions.
fn turns_to(limit: u64) -> Turns {
    Turns::new(Order {
        seed: None,
        limit: Some(limit),
    })
}

/// The next event of a run by turns in which each change is a group of its own. None where the run has ended.
fn next_alone(turns: &mut Turns, core: &Core) -> Option<Event> {
    match core.next_of_drain() {
        Some(event) => Some(event),
        None => turns.next(core),
    }
}

/// Applies an event, and tells the visitor.
fn apply<V: Visitor>(visitor: &mut V, core: &mut Core, event: Event) -> Result<(), V::Fault> {
    visitor.before(core, event)?;
    match core.apply(event) {
        Ok(answer) => visitor.after(core, event, answer),
        Err(_) => Err(V::Fault::from(AllocError)),
    }
}

/// Runs a core by turns, each change in a group of its own, to its end or until so many instructions were run.
pub fn play_to_end<V: Visitor>(
    visitor: &mut V,
    core: &mut Core,
    limit: u64,
) -> Result<Ending, V::Fault> {
    let mut turns = turns_to(limit);
    for _ in 0..u64::MAX {
        let Some(event) = next_alone(&mut turns, core) else {
            break;
        };
        apply(visitor, core, event)?;
    }
    Ok(turns.ending())
}

/// The first events of the run that `play_to_end` makes of a core that was just booted: so many, or all where there are fewer.
pub fn play_some(core: &mut Core, limit: u64, events: u64) -> Result<(), Fault> {
    let mut turns = turns_to(limit);
    for _ in 0..events {
        let Some(event) = next_alone(&mut turns, core) else {
            break;
        };
        if core.apply(event).is_err() {
            return Err(Fault::OutOfMemory);
        }
    }
    Ok(())
}

/// Runs a core that was just booted. Gives how the run ended.
pub fn play<V: Visitor>(visitor: &mut V, core: Core, course: &Course) -> Result<RunEnd, V::Fault> {
    let mut playing = Playing::begin(core, course);
    for _ in 0..u64::MAX {
        if let Some(ending) = playing.step(visitor)? {
            return Ok(playing.end(ending));
        }
    }
    Ok(playing.end(Ending::Over))
}

/// A run that goes on step by step.
#[derive(Drop)]
pub struct Playing<'a> {
    course: &'a Course,
    /// None only while a step is done.
    core: Option<Core>,
    turns: Turns,
    /// The place of the script's next step.
    next: usize,
}

impl<'a> Playing<'a> {
    /// Before the first step of a core that was just booted.
    pub fn begin(core: Core, course: &'a Course) -> Playing<'a> {
        let limit = match course {
            Course::Steps(_) => 0,
            Course::ToEnd { limit } => *limit,
        };
        Playing {
            course,
            core: Some(core),
            turns: turns_to(limit),
            next: 0,
        }
    }

    /// The run, which ended so.
    pub fn end(self, ending: Ending) -> RunEnd {
        let Playing { core, .. } = self;
        RunEnd { ending, core }
    }

    /// The core as it stands.
    pub fn core(&self) -> Option<&Core> {
        self.core.as_ref()
    }

    /// Does some steps of a script, and gives None; where there are none the run is over.
    fn play_steps<V: Visitor>(
        &mut self,
        visitor: &mut V,
        steps: Option<&[Step]>,
    ) -> Result<Option<Ending>, V::Fault> {
        let Some(steps) = steps else {
            return Ok(Some(Ending::Over));
        };
        if let Some(core) = self.core.take() {
            self.core = Some(play_all(visitor, core, steps)?);
        }
        self.next = self.next.saturating_add(steps.len());
        Ok(None)
    }

    /// Does the next event of a run by turns.
    fn play_event<V: Visitor>(&mut self, visitor: &mut V) -> Result<Option<Ending>, V::Fault> {
        let Some(core) = &mut self.core else {
            return Ok(Some(Ending::Over));
        };
        let Some(event) = next_alone(&mut self.turns, core) else {
            return Ok(Some(self.turns.ending()));
        };
        apply(visitor, core, event)?;
        Ok(None)
    }

    /// Does the next step: an event, or a line of a script. How the run ended, once it has.
    pub fn step<V: Visitor>(&mut self, visitor: &mut V) -> Result<Option<Ending>, V::Fault> {
        let course = self.course;
        match course {
            Course::Steps(steps) => {
                let next = self.next.saturating_add(1);
                self.play_steps(visitor, steps.as_slice().get(self.next..next))
            }
            Course::ToEnd { .. } => self.play_event(visitor),
        }
    }
}

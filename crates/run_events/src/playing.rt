//! `run` and `play`: events applied one after the other, of which an observer is told the records.
ghost use Rattle.std.specs.Prelude.{◌≡◌, ◌≤◌, take, length, IfOk, OnOk};
ghost use Rattle.kernel_model.specs.Answers.{with_events};
ghost use Rattle.run_events.specs.Records.{records_of};
ghost use Rattle.run_events.specs.Observing.{Heard, WentOn, Ran};

use crate::before::Before;
use crate::event_record::EventRecord;
use crate::sources::EventSource;
use kernel::{Answer, Core, Event, Refused};
use std::alloc::{AllocError, Global};

/// What an observer wants to be told of an event.
#[derive(Clone, Copy)]
pub enum Interest {
    Nothing,
    Record,
    /// The record, with a copy of the machine of the event's process as it was before.
    Machine,
}

/// Whoever is told what each event of a run did: a trace of calls, a picture, a search for crashes.
pub trait Observer {
    ghost use Rattle.std.specs.Prelude.{◌≡◌, OnOk};
    ghost use Rattle.run_events.specs.Records.{RunEvent, record_of};
    ghost use Rattle.run_events.specs.declared.playing.Interest.TheVariants.{Nothing};
    ghost use Rattle.run_events.specs.Telling.{told_by};

    /// Why the run ends early.
    type Fault: From<AllocError> + Drop;

    // What it may be once it was told one record.
    ghost hears: { Self → RunEvent → Self → Type 0 };

    /// What it wants to be told of the event that comes next. Nothing, only if being told would leave it as it is: such an event costs
    /// no more than `Core::apply`.
    fn wants(&self, core: &Core, event: Event) -> Interest
        ensures { result ≡ Nothing → hears self.now (record_of core.now event) self.now };

    /// Is told what the last event of this core did, which was accepted.
    fn event(&mut self, core: &Core, done: &EventRecord<'_>) -> Result<(), Self::Fault>
        ensures { OnOk result (hears self.old (told_by done.now) self.new) };
}

/// Applies an event, and tells the observer what it did, unless it is refused. At a fault of the observer the event has been applied.
pub fn step<O: Observer>(
    alloc: Global,
    core: &mut Core,
    event: Event,
    observer: &mut O,
) -> Result<Result<Answer, Refused>, O::Fault>
    ensures { IfOk result (WentOn O.hears event core.old core.new observer.old observer.new) }
{
    let interest = observer.wants(core, event);
    if let Interest::Nothing = interest {
        return Ok(core.apply(event));
    }
    let before = Before::new(alloc, core, event, interest)?;
    match core.apply(event) {
        Ok(answer) => {
            observer.event(core, &EventRecord::of(core, &before, event, answer))?;
            Ok(Ok(answer))
        }
        Err(why) => Ok(Err(why)),
    }
}

/// Applies these events up to the first that is refused, and tells the observer what each did. Gives how many were accepted.
pub fn play<O: Observer>(
    alloc: Global,
    core: &mut Core,
    events: &[Event],
    observer: &mut O,
) -> Result<usize, O::Fault>
    ensures within { IfOk result (λ n. n ≤ length events.now) }
    ensures grown { IfOk result (λ n. core.new ≡ with_events core.old (take n events.now)) }
    ensures told { IfOk result (λ n. Heard O.hears observer.old (records_of core.old (take n events.now)) observer.new) }
{
    for (count, event) in events.iter().enumerate() {
        let went = step(alloc, core, *event, observer)?;
        if went.is_err() {
            return Ok(count);
        }
    }
    Ok(events.len())
}

/// Applies the events of a source until it gives none or one is refused, and tells the observer what each did. Gives why one was refused, if
/// one was; the source may go on after it.
pub fn run<S: EventSource, O: Observer>(
    alloc: Global,
    core: &mut Core,
    source: &mut S,
    observer: &mut O,
) -> Result<Option<Refused>, O::Fault>
    ensures { IfOk result (Ran O.hears S.gives core.old core.new observer.old observer.new source.old source.new) }
{
    for count in 0..u64::MAX {
        let Some(event) = source.next(core) else {
            return Ok(None);
        };
        match step(alloc, core, event, observer)? {
            Ok(_) => {}
            Err(why) => return Ok(Some(why)),
        }
    }
    // No core has accepted so many events.
    core.keeps_limits();
    Ok(None)
}

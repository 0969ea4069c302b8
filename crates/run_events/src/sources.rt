//! `EventSource`: which event of a run comes next.
use kernel::{Core, Event};

/// Decides which event comes next: turns by a seed, a recorded run, a drain.
pub trait EventSource {
    ghost use Rattle.std.specs.Prelude.{Option};
    ghost use Rattle.kernel_model.specs.Answers.{Kernel};
    ghost use Rattle.kernel_model.specs.declared.event.Event.{Event};

    // What it may give for a core, and what it is then.
    ghost gives: { Self → Kernel → Option Event → Self → Type 0 };

    /// The next event of a run whose core is this one; None once the run is over.
    fn next(&mut self, core: &Core) -> Option<Event>
        ensures { gives self.old core.now result self.new };
}

/// The events of a list, in order.
#[derive(Clone, Copy)]
pub struct EventList<'a> {
    /// The events to come.
    pub events: &'a [Event],
}

impl EventSource for EventList<'_> {
    ghost use Rattle.std.specs.Prelude.{◌≡◌, ◌∷◌, [], MatchOption};

    ghost gives = { λ old k event new. MatchOption event (old.events.now ≡ []) (λ e. old.events.now ≡ e ∷ new.events.now) };

    fn next(&mut self, _core: &Core) -> Option<Event> {
        match self.events {
            [event, rest @ ..] => {
                self.events = rest;
                Some(*event)
            }
            [] => None,
        }
    }
}

/// Commits every change, as `Core::drain` does where no write has failed.
#[derive(Clone, Copy)]
pub struct Drain;

impl EventSource for Drain {
    ghost use Rattle.std.specs.Prelude.{◌≡◌};
    ghost use Rattle.kernel_model.specs.Answers.{now};
    ghost use Rattle.kernel_model.specs.Drains.{next_of_drain};

    ghost gives = { λ old k event new. event ≡ next_of_drain (now k) };

    fn next(&mut self, core: &Core) -> Option<Event> {
        core.next_of_drain()
    }
}

/// The events of another source, but each change is committed in a group of its own before the next event.
pub struct OwnGroups<'a, S> {
    pub source: &'a mut S,
}

impl<S: EventSource> EventSource for OwnGroups<'_, S> {
    ghost use Rattle.std.specs.Prelude.{◌≡◌, Some, MatchOption};
    ghost use Rattle.kernel_model.specs.Answers.{now};
    ghost use Rattle.kernel_model.specs.Drains.{next_of_drain};

    ghost gives = { λ old k event new. MatchOption (next_of_drain (now k))
        (S.gives old.source.now k event new.source.now)
        (λ e. (event ≡ Some e) × (new.source.now ≡ old.source.now)) };

    fn next(&mut self, core: &Core) -> Option<Event> {
        match core.next_of_drain() {
            Some(event) => Some(event),
            None => self.source.next(core),
        }
    }
}

//! Two observers of one run, one that may be there, and none.
use crate::event_record::EventRecord;
use crate::playing::{Interest, Observer};
use kernel::{Core, Event};
use std::alloc::AllocError;

/// Two observers, each of which is told everything, the first one first.
#[derive(Drop)]
pub struct Both<'a, A, B> {
    pub first: &'a mut A,
    pub second: &'a mut B,
}

impl<'a, A: Observer, B: Observer<Fault = A::Fault>> Observer for Both<'a, A, B> {
    type Fault = A::Fault;

    ghost hears = { λ old r new. A.hears old.first.now r new.first.now × B.hears old.second.now r new.second.now };

    fn wants(&self, core: &Core, event: Event) -> Interest {
        match (
            self.first.wants(core, event),
            self.second.wants(core, event),
        ) {
            (Interest::Nothing, interest) => interest,
            (interest, Interest::Nothing) => interest,
            (Interest::Record, Interest::Record) => Interest::Record,
            _ => Interest::Machine,
        }
    }

    fn event(&mut self, core: &Core, done: &EventRecord<'_>) -> Result<(), A::Fault> {
        self.first.event(core, done)?;
        self.second.event(core, done)
    }
}

/// An observer, if there is one.
impl<A: Observer> Observer for Option<A> {
    ghost use Rattle.std.specs.Prelude.{◌≡◌, None, IsSomeAnd, MatchOption};

    type Fault = A::Fault;

    ghost hears = { λ old r new. MatchOption old (new ≡ None) (λ a. IsSomeAnd new (λ b. A.hears a r b)) };

    fn wants(&self, core: &Core, event: Event) -> Interest {
        match self {
            Some(observer) => observer.wants(core, event),
            None => Interest::Nothing,
        }
    }

    fn event(&mut self, core: &Core, done: &EventRecord<'_>) -> Result<(), A::Fault> {
        match self {
            Some(observer) => observer.event(core, done),
            None => Ok(()),
        }
    }
}

/// Nobody watches. A run costs then what its events cost.
#[derive(Clone, Copy)]
pub struct Nobody;

impl Observer for Nobody {
    type Fault = AllocError;

    ghost hears = { λ old r new. Unit {0} };

    fn wants(&self, _core: &Core, _event: Event) -> Interest {
        Interest::Nothing
    }

    fn event(&mut self, _core: &Core, _done: &EventRecord<'_>) -> Result<(), AllocError> {
        Ok(())
    }
}

//! Events applied one after the other, by a core or whatever else applies them.
ghost use Rattle.std.specs.Prelude.{List, ◌≤◌, ◌≡◌, Result, length, take};
ghost use Rattle.kernel_model.specs.Answers.{Applies, AllAccepted, with_events};
ghost use Rattle.kernel.specs.Applying.{AppliedUpTo};

use crate::cores::Core;
use kernel_model::{Answer, Event, Refused};

/// What applies events; each core does. An `Applier` names in its ghost `responds` what it may respond to each.
pub trait Applier {
    ghost use Rattle.kernel_model.specs.declared.answer.Answer.{Answer};
    ghost use Rattle.kernel_model.specs.declared.answer.Refused.{Refused};
    ghost use Rattle.kernel_model.specs.declared.event.Event.{Event};

    // What it may respond to an event, and what it is then.
    ghost responds: { Self → Event → Result Answer Refused → Self → Type 0 };

    /// Applies an event, or refuses it.
    fn apply(&mut self, event: Event) -> Result<Answer, Refused>
        ensures { responds self.old event result self.new };
}

impl Applier for Core {
    ghost responds = { λ old event result new. Applies old event new result };

    fn apply(&mut self, event: Event) -> Result<Answer, Refused> {
        Core::apply(self, event)
    }
}

/// Applies each event in turn up to the first that is refused. Gives how many were accepted.
pub fn apply_each<A: Applier>(to: &mut A, events: &[Event]) -> usize
    ensures within { result ≤ length events.now }
    ensures stops { AppliedUpTo A.responds to.old events.now result to.new }
{
    for (count, event) in events.iter().enumerate() {
        if to.apply(*event).is_err() {
            return count;
        }
    }
    events.len()
}

impl Core {
    /// As `apply_each`, in words of the history.
    pub fn run_script(&mut self, events: &[Event]) -> usize
        ensures within { result ≤ length events.now }
        ensures grown { self.new ≡ with_events self.old (take result events.now) }
        ensures accepted { AllAccepted self.old (take result events.now) }
    {
        apply_each(self, events)
    }
}

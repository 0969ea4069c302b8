//! `totals_of_result`, `totals_of_event`: what a loan's result, and an event, add to the totals of a history.
ghost use Rattle.std.specs.Prelude.{◌≡◌};
ghost use Rattle.kernel_model.specs.Ran.{ran_in as ran_by_answer};
ghost use Rattle.bursts.specs.Totals.{none, one_event as one_event_more, event_totals, settled_totals};

use crate::totals::Totals;
use kernel::{Answer, Event};

/// What the result of process `pid` adds that was taken back with this answer.
pub(crate) fn totals_of_result(pid: u32, answer: &Answer) -> Totals
    ensures { result ≡ settled_totals pid answer.now }
{
    match answer {
        Answer::Settled {
            count,
            outcome: None,
            ..
        } => Totals {
            events: 1,
            ran: u64::from(*count),
            turns: u64::from(pid),
            enters: 0,
        },
        Answer::Settled {
            count,
            outcome: Some(_),
            ..
        } => Totals {
            events: 2,
            ran: u64::from(*count),
            turns: u64::from(pid),
            enters: u64::from(pid),
        },
        _ => no_events(),
    }
}

/// What an event adds that was accepted with this answer.
pub(crate) fn totals_of_event(event: Event, answer: &Answer) -> Totals
    ensures { result ≡ event_totals event answer.now }
{
    match event {
        Event::Turn { pid, .. } => Totals {
            ran: ran_in(answer),
            turns: u64::from(pid),
            ..one_event()
        },
        Event::Enter { pid } => Totals {
            enters: u64::from(pid),
            ..one_event()
        },
        Event::Cut | Event::Complete { .. } | Event::Fail { .. } => one_event(),
    }
}

/// How many instructions an answer says that were run.
fn ran_in(answer: &Answer) -> u64
    ensures { result ≡ ran_by_answer answer.now }
{
    match answer {
        Answer::Ran { count, .. } | Answer::Settled { count, .. } => u64::from(*count),
        _ => 0,
    }
}

fn no_events() -> Totals
    ensures { result ≡ none }
{
    Totals {
        events: 0,
        ran: 0,
        turns: 0,
        enters: 0,
    }
}

/// One event, in which no process took part.
fn one_event() -> Totals
    ensures { result ≡ one_event_more }
{
    Totals {
        events: 1,
        ..no_events()
    }
}

//! The sums of process numbers in a history.
ghost use Rattle.std.specs.Prelude.{◌≡◌, ◌+◌, ◌<◌, ◌^◌, if◌then◌else◌, IfOk, OnOk, OnErr};
ghost use Rattle.kernel.specs.Sums.{process_of_turn, process_of_enter, tells_enter};

use kernel_model::{Answer, Event, Refused};
use kernel_step::Rejected;

#[derive(Clone, Copy)]
pub(crate) struct Sums {
    pub turns: u64,
    pub enters: u64,
}

impl Sums {
    /// Adds the process number of an event, if it was accepted.
    pub(crate) fn add_event(&mut self, event: Event, answered: &Result<Answer, Refused>)
        requires turns { self.old.turns < 2 ^ 63 }
        requires enters { self.old.enters < 2 ^ 63 }
        ensures turns { OnOk answered.now (self.new.turns ≡ self.old.turns + process_of_turn event) }
        ensures enters { OnOk answered.now (self.new.enters ≡ self.old.enters + process_of_enter event) }
        ensures same { OnErr answered.now (self.new ≡ self.old) }
    {
        if answered.is_err() {
            return;
        }
        match event {
            Event::Turn { pid, .. } => self.turns += u64::from(pid),
            Event::Enter { pid } => self.enters += u64::from(pid),
            Event::Cut | Event::Complete { .. } | Event::Fail { .. } => {}
        }
    }

    /// Adds the process number of a loan's result, if it was taken back: once for its Turn and, where it had an Enter, for that.
    pub(crate) fn add_loan(&mut self, pid: u32, answered: &Result<Answer, Rejected>)
        requires turns { self.old.turns < 2 ^ 63 }
        requires enters { self.old.enters < 2 ^ 63 }
        ensures turns { OnOk answered.now (self.new.turns ≡ self.old.turns + pid) }
        ensures enters { IfOk answered.now (λ a. self.new.enters ≡ self.old.enters + (if tells_enter a then pid else 0)) }
        ensures same { OnErr answered.now (self.new ≡ self.old) }
    {
        let Ok(answer) = answered else {
            return;
        };
        self.turns += u64::from(pid);
        if let Answer::Settled {
            outcome: Some(_),
            ..
        } = answer
        {
            self.enters += u64::from(pid);
        }
    }
}

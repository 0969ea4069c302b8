//! Drains: every change is committed, and so all output is shown.
ghost use Rattle.std.specs.Prelude.{ℕ, ◌≡◌, OnOk};
ghost use Rattle.kernel_model.specs.Answers.{now};
ghost use Rattle.kernel_model.specs.Drains.{IsDrained, completion_or_cut, next_of_drain};
ghost use Rattle.kernel_model.specs.Shown.{printed, told, shown, handed};
ghost use Rattle.kernel_model.specs.Views.{contents};

use crate::cores::Core;
use kernel_laws::all_is_shown;
use kernel_model::{Event, Refused};

fn next_event(in_flight: Option<u32>) -> Event
    ensures { result ≡ completion_or_cut in_flight }
{
    match in_flight {
        Some(at) => Event::Complete { at },
        None => Event::Cut,
    }
}

impl Core {
    /// The event with which a drain goes on, where no write has failed: it completes the write in flight that begins first, or is a Cut
    /// where none is in flight. None where every change is committed.
    pub fn next_of_drain(&self) -> Option<Event>
        ensures { result ≡ next_of_drain (now self.now) }
    {
        if self.committed() < self.changes() {
            Some(next_event(self.in_flight()))
        } else {
            None
        }
    }

    /// Cuts groups, and completes writes in flight in the order of their places on the disk, until every change is committed. Then
    /// all that was written to terminals is shown, and all that processes were told is handed out. The events before a refusal
    /// stay. Refused: DiskFailed, at once where a write has failed; Budget, where the history is full; OutOfMemory.
    pub fn drain(&mut self) -> Result<(), Refused>
        ensures drained { IsDrained self.old self.new result }
        ensures shown { OnOk result ((t : ℕ) → shown (now self.new) t ≡ contents (printed t (now self.new).log)) }
        ensures handed { OnOk result ((p : ℕ) → handed (now self.new) p ≡ contents (told p (now self.new).log)) }
    {
        if self.running.has_failed() {
            return Err(Refused::DiskFailed);
        }
        while self.committed() < self.changes() {
            let event = next_event(self.in_flight());
            self.apply(event)?;
        }
        all_is_shown();
        Ok(())
    }
}

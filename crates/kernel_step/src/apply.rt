//! Events, one at a time.
ghost use Rattle.kernel_model.specs.World.{Boot};
ghost use Rattle.kernel_step.specs.Represents.{Represents, Steps};

use crate::running::Running;
use crate::storing::{complete, cut, fail, release};
use commit_deps::silent_events_leave_marks;
use footprints::footprints_grow;
use kernel_model::{Answer, Event, Refused};

impl Running {
    /// As `Core::apply`. The clause speaks of every boot of which these are the parts.
    pub fn apply(&mut self, event: Event) -> Result<Answer, Refused>
        requires { (b : Boot) × Represents b self.old }
        ensures { (b : Boot) → Represents b self.old → Steps b event self.old self.new result }
    {
        match event {
            Event::Turn { pid, n } => self.turn(pid, n),
            Event::Enter { pid } => self.enter(pid),
            Event::Cut => self.cut(),
            Event::Complete { at } => self.complete(at),
            Event::Fail { at } => self.fail(at),
        }
    }

    fn cut(&mut self) -> Result<Answer, Refused>
        requires { (b : Boot) × Represents b self.old }
        ensures { (b : Boot) → Represents b self.old → Steps b Event.Cut self.old self.new result }
    {
        silent_events_leave_marks();
        footprints_grow();
        let full = self.is_full();
        cut(&mut self.history, &mut self.system, full)
    }

    fn complete(&mut self, at: u32) -> Result<Answer, Refused>
        requires { (b : Boot) × Represents b self.old }
        ensures { (b : Boot) → Represents b self.old → Steps b (Event.Complete at) self.old self.new result }
    {
        silent_events_leave_marks();
        footprints_grow();
        let full = self.is_full();
        let before = self.system.committer.committed();
        let committed = complete(&mut self.history, full, &mut self.system.committer, at)?;
        release(&mut self.tasks, &mut self.system.screens, before, committed);
        Ok(Answer::Completed { committed })
    }

    fn fail(&mut self, at: u32) -> Result<Answer, Refused>
        requires { (b : Boot) × Represents b self.old }
        ensures { (b : Boot) → Represents b self.old → Steps b (Event.Fail at) self.old self.new result }
    {
        silent_events_leave_marks();
        footprints_grow();
        let full = self.is_full();
        fail(&mut self.history, full, &mut self.system.committer, at)
    }
}

//! The cone of an event: the events on which it rests.
ghost use Rattle.std.specs.Prelude.{◌≡◌, true, if◌then◌else◌, IfOk, IfErr, OnOk};
ghost use Rattle.kernel_laws.specs.Cones.{cone};
ghost use Rattle.kernel_model.specs.Answers.{now};
ghost use Rattle.kernel_step.specs.Coning.{has_event};
ghost use Rattle.kernel_step.specs.declared.cones.ConeFault.TheVariants.{NoEvent, OutOfMemory};

use crate::cores::Core;
use kernel_step::ConeFault;

impl Core {
    /// The numbers, counted from 1 and in order, of the events in the cone of event n: event n, and those on which it rests. The law
    /// `cones` says what they are good for: run alone, they give all that event n does. Refused: NoEvent, where the history has no event
    /// n, or it is a Cut, a Complete or a Fail; OutOfMemory, only where there is one.
    pub fn cone(&self, n: u64) -> Result<Vec<u64>, ConeFault>
        ensures numbers { IfOk result (λ numbers. numbers.items ≡ cone (now self.now) n) }
        ensures there { OnOk result (has_event self.now.history n ≡ true) }
        ensures fault { IfErr result (λ why. why ≡ (if has_event self.now.history n then OutOfMemory else NoEvent)) }
    {
        self.running.cone(n)
    }
}

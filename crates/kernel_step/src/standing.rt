//! How processes stand.
ghost use Rattle.std.specs.Prelude.{◌≡◌, None, true, is_some, IfOk, OnOk, IfErr};
ghost use Rattle.kernel_model.specs.Answers.{process_of};
ghost use Rattle.kernel_model.specs.Loans.{is_over, standing_of};
ghost use Rattle.kernel_model.specs.World.{Boot};
ghost use Rattle.kernel_model.specs.declared.answer.Refused.TheVariants.{NoProcess};
ghost use Rattle.kernel_step.specs.Represents.{Represents, kernel_in};

use crate::running::Running;
use crate::tasks::task_of;
use kernel_model::{Refused, Standing};

impl Running {
    /// As `Core::over`.
    pub fn over(&self, quantum: u32) -> bool
        ensures { (b : Boot) → Represents b self.now → result ≡ is_over (kernel_in b self.now) quantum }
    {
        self.out == 0 && self.next_lendable(quantum).is_none()
    }

    /// As `Core::standing`.
    pub fn standing(&self, pid: u32) -> Result<Standing, Refused>
        ensures standing { IfOk result (λ standing. (b : Boot) → Represents b self.now → standing ≡ standing_of (kernel_in b self.now) pid) }
        ensures there { OnOk result ((b : Boot) → Represents b self.now → is_some (process_of (kernel_in b self.now) pid) ≡ true) }
        ensures none { IfErr result (λ why. (b : Boot) → Represents b self.now → (why ≡ NoProcess) × (process_of (kernel_in b self.now) pid ≡ None)) }
    {
        let task = task_of(&self.tasks, pid)?;
        Ok(task.standing(self.system.served))
    }
}

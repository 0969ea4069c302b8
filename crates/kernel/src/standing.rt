//! How processes stand, for a scheduler that lends them to many workers.
ghost use Rattle.std.specs.Prelude.{◌≡◌, None, true, is_some, IfOk, OnOk, IfErr};
ghost use Rattle.kernel_model.specs.Answers.{process_of};
ghost use Rattle.kernel_model.specs.Loans.{is_over, standing_of};
ghost use Rattle.kernel_model.specs.declared.answer.Refused.TheVariants.{NoProcess};

use crate::cores::Core;
use kernel_model::{Refused, Standing};

impl Core {
    /// Whether no process is out on loan, and none is lendable for a quantum, by the words of `lend`. So `lend` finds none, and no
    /// result is to come after which it might. A quantum of 0 is one like any other. Room in the history is not asked: where `lend`
    /// is refused for want of it, it stays refused. So whoever lends until this holds ends there too. Takes no memory.
    pub fn over(&self, quantum: u32) -> bool
        ensures { result ≡ is_over self.now quantum }
    {
        self.running.over(quantum)
    }

    /// How a process stands: the first that holds of Ended, Lent, Waits and Free. An end counts at once, also where `ended` does
    /// not hand it out yet. One that is Free is lendable where it has room for the instructions. Takes no memory. Refused:
    /// NoProcess.
    pub fn standing(&self, pid: u32) -> Result<Standing, Refused>
        ensures standing { IfOk result (λ standing. standing ≡ standing_of self.now pid) }
        ensures there { OnOk result (is_some (process_of self.now pid) ≡ true) }
        ensures none { IfErr result (λ why. (why ≡ NoProcess) × (process_of self.now pid ≡ None)) }
    {
        self.running.standing(pid)
    }
}

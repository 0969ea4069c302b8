//! The core, and its events.
ghost use Rattle.std.specs.Prelude.{◌≡◌, ◌+◌, option_map, IfOk};
ghost use Rattle.kernel_model.specs.Answers.{Applies};
ghost use Rattle.kernel_model.specs.Ran.{ran_by_turns, ran_in};
ghost use Rattle.kernel_model.specs.Loans.{Lends};
ghost use Rattle.kernel_model.specs.World.{Boot};
ghost use Rattle.kernel_step.specs.Known.{IsKnownResult};
ghost use Rattle.kernel_step.specs.Loaned.{loan_out, lent_out, Settles, LendsAgain};
ghost use Rattle.kernel_step.specs.Represents.{Represents, kernel_in};

use crate::sums::Sums;
use byte_list::Bytes;
use files::FileList;
use kernel_model::{Answer, Event, Refused};
use kernel_step::{Done, Loan, Program, Rejected, Running};
use std::marker::Model;
use std::sync::Arc;

/// What a core was booted from.
pub(crate) struct Booted {
    pub programs: Vec<Program>,
    /// Shared with the table of what is read of them.
    pub tapes: Arc<Vec<Bytes>>,
    /// The files that the disk held.
    pub files: FileList,
    /// Shared with the device until a write to it is complete.
    pub disk: Arc<Vec<u8>>,
    /// The place on the disk of the first gate that was not open.
    pub gate: u32,
}

impl Drop for Booted {
    fn drop(self) {
        let Booted {
            programs: _programs,
            tapes: _tapes,
            files: _files,
            disk: _disk,
            gate: _,
        } = self;
    }
}

/// The core: processes, the history of the events that it accepted, and the disk to which the changes of files are on their way.
/// The processes run on as on a kernel that commits inside each call.
pub struct Core {
    /// Shared with its copies.
    pub(crate) booted: Arc<Booted>,
    pub(crate) running: Running,
    pub(crate) sums: Sums,
}

impl Drop for Core {
    fn drop(self) {
        let Core {
            booted: _booted,
            running: _running,
            sums: _,
        } = self;
    }
}

impl Model for Core {
    ghost use Rattle.kernel_model.specs.Answers.{Kernel};
    ghost use Rattle.kernel_model.specs.Codes.{kernel_code};

    ghost Value = { Kernel };

    ghost coded = { kernel_code };

    ghost use Rattle.kernel_step.specs.Represents.{kernel_in};
    ghost use Rattle.kernel.specs.Booting.{boot_of};
    ghost use Rattle.kernel.specs.Parts.{IsCore};

    ghost view = { λ c. kernel_in (boot_of c.booted.value) c.running };

    ghost invariant = { λ c. IsCore (boot_of c.booted.value) c.running c.sums };
}

impl Core {
    /// The parts alone, which stand for the run.
    pub(crate) fn into_running(self) -> Running
        ensures { (b : Boot) × Represents b result × (kernel_in b result ≡ self) }
    {
        let Core {
            booted: _booted,
            running,
            sums: _,
        } = self;
        running
    }

    /// Applies an event. An accepted one joins the history; a refused one changes nothing. The tests, in their order:
    /// - Turn: NoProcess, Ended, Lent, Budget; Enter: NoProcess, Ended, Lent, NotStopped, Budget;
    /// - Cut: Budget, DiskFailed, GroupInFlight, NothingToCut; Complete and Fail: Budget, NoSuchWrite;
    /// - and want of memory last.
    pub fn apply(&mut self, event: Event) -> Result<Answer, Refused>
        ensures applies { Applies self.old event self.new result }
        ensures ran { IfOk result (λ a. ran_by_turns self.new ≡ ran_by_turns self.old + ran_in a) }
    {
        let result = self.running.apply(event);
        self.sums.add_event(event, &result);
        result
    }

    /// Lends (dispatches) the first lendable process after the one last lent, by rising number and round again, to run at most a
    /// quantum of instructions. A process is lendable where it has not ended, is not lent, does not wait, and has room for one
    /// instruction more than the quantum. None where there is none. Nothing joins the history. Refused: Budget, where the history
    /// has no room for the two events of one more loan; OutOfMemory, only where some process is lendable.
    pub fn lend(&mut self, quantum: u32) -> Result<Option<Loan>, Refused>
        ensures { Lends self.old quantum self.new (lent_out result) }
    {
        self.running.lend(quantum)
    }

    /// Lends this process, where it is lendable, whichever was lent last. So a process whose result was just taken back may go on. None
    /// where it is not lendable, and where the history or the memory has no room for a loan.
    pub fn lend_again(&mut self, pid: u32, quantum: u32) -> Option<Loan>
        ensures { LendsAgain self.old pid quantum self.new (option_map loan_out result) }
    {
        self.running.lend_again(pid, quantum)
    }

    /// Takes a loan's result back. It becomes a Turn of its instructions and, where the state reached stands at a call or a trap,
    /// an Enter. Refused, with the result: Stranger, exactly where it is not of the loan that its process is out on; OutOfMemory. A
    /// stranger's process is not lent, or its number, its quantum or the state from which it began differs.
    pub fn settle(&mut self, done: Done) -> Result<Answer, Rejected>
        ensures { Settles self.old done self.new result }
    {
        let pid = done.pid;
        let result = self.running.settle(done);
        self.sums.add_loan(pid, &result);
        result
    }

    /// As `settle`, of a result of which it is known from which state its loan began. So no states are compared.
    pub fn settle_known(&mut self, done: Done) -> Result<Answer, Rejected>
        requires { IsKnownResult self.old done }
        ensures { Settles self.old done self.new result }
    {
        let pid = done.pid;
        let result = self.running.settle_known(done);
        self.sums.add_loan(pid, &result);
        result
    }
}

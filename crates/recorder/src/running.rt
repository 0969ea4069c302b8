//! Runs a core on: lends the next process, runs the loan, takes it back, and commits.
ghost use Rattle.std.specs.Prelude.{◌≡◌, ◌+◌, ◌<◌, ◌≤◌, true, false, None, IfOk, IfSome, IfErr, OnOk, OnErr, length};
ghost use Rattle.kernel_model.specs.Answers.{Kernel, now};
ghost use Rattle.kernel_model.specs.Drains.{IsAllCommitted};
ghost use Rattle.kernel_model.specs.Loans.{pick};
ghost use Rattle.kernel_step.specs.Loaned.{loan_out};
ghost use Rattle.recorder.specs.Recording.{Grows, IsOut, MayRefuse, loans_given, quantum};

use bursts::run_loan;
use kernel::{Core, Loan, Refused};

/// The most instructions that a process runs at a time.
pub const QUANTUM: u32 = 1 << 16;

/// Runs the next process on loan, and commits what it changed. False where no process is lendable.
pub fn run_next(core: &mut Core) -> Result<bool, Refused>
    ensures ran { IfOk result (λ ran. ran ≡ true → length core.old.history < length core.new.history) }
    ensures idle { IfOk result (λ ran. ran ≡ false → (pick core.old quantum ≡ None) × (core.new ≡ core.old)) }
    ensures committed { OnOk result (IsAllCommitted (now core.old) → IsAllCommitted (now core.new)) }
    ensures refused { IfErr result (λ why. MayRefuse core.new why) }
    ensures few { loans_given core.new ≤ loans_given core.old + 1 }
    ensures grows { (first : Kernel) → Grows first core.old → Grows first core.new }
{
    match lend(core)? {
        Some(loan) => {
            settle(core, loan)?;
            commit(core)?;
            Ok(true)
        },
        None => Ok(false),
    }
}

/// Lends the next process. None where none is lendable.
fn lend(core: &mut Core) -> Result<Option<Loan>, Refused>
    ensures out { IfOk result (λ given. IfSome given (λ loan. IsOut core.new (loan_out loan))) }
    ensures none { IfOk result (λ given. given ≡ None → (pick core.old quantum ≡ None) × (core.new ≡ core.old)) }
    ensures history { core.new.history ≡ core.old.history }
    ensures refused { IfErr result (λ why. MayRefuse core.new why) }
    ensures few { loans_given core.new ≤ loans_given core.old + 1 }
    ensures grows { Grows core.old core.new }
{
    core.has_lendings();
    core.lend(QUANTUM)
}

/// Runs a loan, and hands its result in, once. Where memory runs out the process stays out on loan.
fn settle(core: &mut Core, loan: Loan) -> Result<(), Refused>
    requires out { IsOut core.old (loan_out loan) }
    ensures ran { OnOk result (length core.old.history < length core.new.history) }
    ensures refused { IfErr result (λ why. MayRefuse core.new why) }
    ensures same { OnErr result (core.new ≡ core.old) }
    ensures few { loans_given core.new ≤ loans_given core.old }
    ensures grows { Grows core.old core.new }
{
    match core.settle(run_loan(loan)) {
        Ok(_) => Ok(()),
        Err(rejected) => Err(rejected.why),
    }
}

/// Commits every change.
pub fn commit(core: &mut Core) -> Result<(), Refused>
    ensures committed { OnOk result (IsAllCommitted (now core.new)) }
    ensures refused { IfErr result (λ why. MayRefuse core.new why) }
    ensures few { loans_given core.new ≤ loans_given core.old }
    ensures grows { Grows core.old core.new }
{
    core.drain()
}

//! `run_loan`: runs a loan apart from the core.
ghost use Rattle.std.specs.Prelude.{◌≡◌};

use kernel::{Done, Loan};

/// Runs a lent machine for at most its quantum of instructions, and gives what came of it. It waits for nobody and takes no memory.
pub fn run_loan(loan: Loan) -> Done
    ensures pid { result.pid ≡ loan.pid }
    ensures number { result.number ≡ loan.number }
    ensures quantum { result.quantum ≡ loan.quantum }
    ensures began { result.began ≡ loan.began }
{
    let Loan {
        pid,
        number,
        quantum,
        began,
        mut machine,
    } = loan;
    let (count, stop) = machine.run(quantum);
    Done {
        pid,
        number,
        quantum,
        began,
        machine,
        count,
        stop,
    }
}

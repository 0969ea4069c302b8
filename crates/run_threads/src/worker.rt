//! What a worker does at a desk.
ghost use Rattle.std.specs.Prelude.{◌≡◌};
ghost use Rattle.run_threads.specs.Work.{TurnsOut, HadNoLoan};

use crate::desk::Desk;
use bursts::{Gate, WorkFault, run_loan};
use kernel::Answer;

/// What a worker's turn came to.
#[derive(Drop)]
pub enum Turned {
    /// There was no loan.
    Idle,
    /// A loan's result was taken back, with this answer.
    Settled(Answer),
}

/// One turn of a worker: it asks for one loan, passes the gate, runs the loan, and hands the result in. From the loan to the result
/// it has no lock. It asks nothing else of the desk.
pub fn worker_turn<D: Desk, G: Gate>(
    desk: &mut D,
    gate: &mut G,
    quantum: u32,
) -> Result<Turned, WorkFault>
    ensures turn { TurnsOut (D.account desk.old) quantum (λ pid. G.holds gate.old pid gate.new) (D.account desk.new) result }
    ensures gate { HadNoLoan result → gate.new ≡ gate.old }
{
    let loan = match desk.lend(quantum) {
        Ok(Some(loan)) => loan,
        Ok(None) => return Ok(Turned::Idle),
        Err(why) => return Err(WorkFault::Lend(why)),
    };
    gate.hold(loan.pid);
    match desk.settle(run_loan(loan)) {
        Ok(answer) => Ok(Turned::Settled(answer)),
        Err(rejected) => Err(WorkFault::Settle(rejected)),
    }
}

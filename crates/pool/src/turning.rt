//! `Seat::turn`: a turn at a seat without a crew, by way of the queue of results. The turns of a crew are `Seat::turn_on` of
//! `going_on.rt`; by `Seat::is_over` a worker of a crew asks whether the work is over.
ghost use Rattle.std.specs.Prelude.{◌≡◌, ◌∷◌, ◌≤◌, ◌||◌, [], IfOk, MatchResult};
ghost use Rattle.kernel_model.specs.Loans.{is_over};
ghost use Rattle.bursts.specs.Benches.{OnBench};
ghost use Rattle.bursts.specs.Totals.{Fit};
ghost use Rattle.bursts.specs.Holdings.{Holding, grown};
ghost use Rattle.pool.specs.declared.settling.Settling.{Settling};
ghost use Rattle.bursts.specs.LoanIds.{id_of_result};
ghost use Rattle.pool.specs.Settled.{settling_of, after};
ghost use Rattle.pool.specs.Turns.{AllAccepted, Clears, Rejects, RejectsSoon, TurnsOut, HadNoLoan, Asks};

use crate::going_on::run_held;
use crate::locking::lock_soon;
use crate::seats::Seat;
use crate::settling::{Settling, Sums, accepted, settle_all};
use crate::told::Told;
use bursts::{Gate, Naming, Rejected, TicketedDone, WorkFault};
use std::sync::Wait;

/// What a turn at a seat came to.
#[derive(Drop)]
pub enum Pooled {
    /// There was no loan.
    Idle,
    /// A loan was run and its result handed in, and these results were settled.
    Worked(Settling),
}

impl<'p, 'b, N: Naming> Seat<'p, 'b, N> {
    /// The numbers of its share are each a u64.
    fn fits(&self)
        ensures { Fit self.now.share.totals }
    {
        let _totals = self.share.totals();
    }

    /// Settles what is in the queue, after an earlier settling, and adds the two up. Refused where a result is not taken back.
    fn settle_more<R: Wait>(&mut self, rt: &R, earlier: Sums) -> Result<Sums, Rejected>
        requires share { (h : Holding) × (self.old.share ≡ grown h earlier.totals) }
        requires settled { earlier.settled ≤ earlier.totals.events }
        ensures { MatchResult result (λ s. (t : Settling) × Clears self.old self.new [] t × (settling_of s ≡ after (settling_of earlier) t)) (Rejects self.old self.new []) }
    {
        let settling = self.settle_all(rt);
        self.fits();
        match accepted(settling) {
            Ok(later) => Ok(earlier.then(later)),
            Err(rejected) => Err(rejected),
        }
    }

    /// Hands a result in. As often as the queue is full what is in it is settled first; the answer adds that up.
    fn hand_in_at_last<R: Wait>(&mut self, rt: &R, done: TicketedDone<N>) -> Result<Sums, Rejected>
        ensures { MatchResult result (λ s. AllAccepted self.old self.new (id_of_result done ∷ []) (settling_of s)) (RejectsSoon self.old self.new (id_of_result done)) }
    {
        let mut left = done;
        let mut sums = Sums::none();
        for _ in rt.forever() {
            match self.hand_in_ticketed(rt, left) {
                Ok(()) => return Ok(sums),
                Err(back) => {
                    left = back;
                    sums = self.settle_more(rt, sums)?;
                }
            }
        }
        unreachable!()
    }

    /// Hands a result in, and settles what is in the queue.
    fn hand_in_and_settle<R: Wait>(
        &mut self,
        rt: &R,
        done: TicketedDone<N>,
    ) -> Result<Sums, Rejected>
        ensures { MatchResult result (λ s. Clears self.old self.new (id_of_result done ∷ []) (settling_of s)) (RejectsSoon self.old self.new (id_of_result done)) }
    {
        let sums = self.hand_in_at_last(rt, done)?;
        self.settle_more(rt, sums)
    }

    /// Fetches a loan, passes the gate, runs the loan, hands its result in, and settles what is in the queue. Where the queue is
    /// full it is settled before too, and the answer adds all up. Refused where the lending is, and where a result, of whichever
    /// worker, is not taken back. This loan's own result is then dropped, if it was not handed in yet.
    pub fn turn<G: Gate, R: Wait>(
        &mut self,
        rt: &R,
        gate: &mut G,
        quantum: u32,
    ) -> Result<Pooled, WorkFault>
        ensures turn { TurnsOut self.old quantum (λ pid. G.holds gate.old pid gate.new) self.new result }
        ensures gate { HadNoLoan result → gate.new ≡ gate.old }
    {
        let loan = match self.fetch_ticketed(rt, quantum) {
            Ok(Some(loan)) => loan,
            Ok(None) => return Ok(Pooled::Idle),
            Err(why) => return Err(WorkFault::Lend(why)),
        };
        match self.hand_in_and_settle(rt, run_held(gate, loan)) {
            Ok(sums) => Ok(Pooled::Worked(sums.ended(None))),
            Err(rejected) => Err(WorkFault::Settle(rejected)),
        }
    }

    /// Settles what is in the queue, and says whether the work is over: no process is lent and none lendable, or the work is to
    /// stop. It takes the lock once. Refused where a result is not taken back.
    pub(crate) fn is_over<R: Wait>(&mut self, rt: &R, quantum: u32) -> Result<bool, Rejected>
        ensures asks { Asks self.old self.new result }
        ensures bench { IfOk result (λ over. (b : OnBench) × (over ≡ (b.stopped || is_over b.core quantum))) }
    {
        let pool = self.pool;
        let mut guard = lock_soon(rt, &pool.bench);
        let settling = settle_all(rt, &mut *guard, &mut self.results, &mut self.share);
        accepted(settling)?;
        let over = guard.over(quantum);
        self.told = self.told.and(&Told::Over(over));
        Ok(over)
    }

    /// Says at the bench that the work is to stop.
    pub(crate) fn stop<R: Wait>(&self, rt: &R) {
        self.pool.bench().lock(rt).stop();
    }
}

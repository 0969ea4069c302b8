//! How a seat comes to a loan: one to spare, one of its own deque, one of another's, or one that the core lends.
ghost use Rattle.std.specs.Prelude.{◌≡◌, ◌⊎◌, [], ◌∷◌, true, false, Ok, None, is_some, option_map, map, IfErr, MatchOption, MatchResult};
ghost use Rattle.kernel_model.specs.Answers.{Refuses};
ghost use Rattle.kernel_model.specs.Loans.{pick, loan_refusal};
ghost use Rattle.bursts.specs.LoanIds.{id_of_loan};
ghost use Rattle.pool.specs.Deques.{Stolen, missed_at};
ghost use Rattle.pool.specs.Lending.{LendsNoted, Lent, IsLoanRefusal, IsNothingLendable};
ghost use Rattle.pool.specs.Fetching.{AsksForLoan, Fetches, NotesLending};

use crate::loans::{Other, Own};
use crate::locking::lock_soon;
use crate::seats::Seat;
use crate::told::Told;
use bursts::{Bench, Loan, Naming, Share, TicketedLoan};
use kernel::Refused;
use notes::Notes;
use std::sync::Wait;

/// A loan stolen from the first of these deques that has one.
fn steal_round<N: Naming, R: Wait>(rt: &R, others: &mut Vec<Other<N>>) -> Option<TicketedLoan<N>>
    ensures { MatchOption result (others.new.items ≡ map missed_at others.old.items) (λ l. Stolen others.old.items others.new.items (id_of_loan l)) }
{
    for place in 0..others.len() {
        let other = &mut others[place];
        if let Some(loan) = other.steal(rt) {
            return Some(loan);
        }
    }
    None
}

/// Lends up to seven more loans for the worker's own deque. Gives the one that found no room there, with which the lending ends. A
/// refusal only ends it.
fn lend_more<N: Naming>(
    bench: &mut Bench<'_, N>,
    own: &mut Own<N>,
    share: &mut Share<N>,
    quantum: u32,
) -> Option<TicketedLoan<N>>
    ensures bench { LendsNoted bench.old quantum bench.new share.old share.new }
    ensures lent { Lent [] quantum own.old own.new (option_map id_of_loan result) share.old share.new }
{
    for _ in 0..7u32 {
        match bench.lend_ticketed(quantum, share) {
            Ok(Some(loan)) => {
                if let Err(back) = own.keep(loan) {
                    return Some(back);
                }
            }
            Ok(None) => return None,
            Err(_) => return None,
        }
    }
    None
}

/// Lends up to eight loans: the first is the answer, and the others go to the worker's own deque, or to spare. None once the work
/// is to stop.
fn lend_some<N: Naming>(
    bench: &mut Bench<'_, N>,
    own: &mut Own<N>,
    spare: &mut Option<TicketedLoan<N>>,
    share: &mut Share<N>,
    quantum: u32,
) -> Result<Option<TicketedLoan<N>>, Refused>
    ensures bench { LendsNoted bench.old quantum bench.new share.old share.new }
    ensures lent { MatchResult result (λ given. MatchOption given ((own.new ≡ own.old) × (spare.new ≡ spare.old) × (share.new ≡ share.old))
        (λ l. Lent (id_of_loan l ∷ []) quantum own.old own.new (option_map id_of_loan spare.new) share.old share.new))
        (λ _. (own.new ≡ own.old) × (spare.new ≡ spare.old) × (share.new ≡ share.old)) }
    ensures stopped { bench.old.stopped ≡ true → result ≡ Ok None }
    ensures none { result ≡ Ok None → (bench.old.stopped ≡ true) ⊎ (pick bench.old.core quantum ≡ None) }
    ensures refused { IfErr result (λ why. Refuses (loan_refusal bench.old.core) why) }
{
    if bench.is_stopped() {
        return Ok(None);
    }
    let first = match bench.lend_ticketed(quantum, share) {
        Ok(Some(first)) => first,
        Ok(None) => return Ok(None),
        Err(why) => return Err(why),
    };
    *spare = lend_more(bench, own, share, quantum);
    Ok(Some(first))
}

/// Notes what the bench answered, where it lent nothing.
fn note_lending<N: Naming>(told: &mut Notes<Told>, given: &Result<Option<TicketedLoan<N>>, Refused>)
    ensures { NotesLending told.old.items given.now told.new.items }
{
    match given {
        Ok(Some(_)) => {}
        Ok(None) => *told = told.and(&Told::Idle),
        Err(why) => *told = told.and(&Told::Refused(*why)),
    }
}

impl<'p, 'b, N: Naming> Seat<'p, 'b, N> {
    /// A loan, from the first of these that has one: the one to spare; its own deque; the others' deques, from the next worker on
    /// and round again; the core, under the lock. The core lends up to eight: the first is the answer, and the others go to its own
    /// deque. One that finds no room there becomes the one to spare, and no more are lent. None where nothing is lendable, and once
    /// the work is to stop. Refused where the first lending is; the seat is then as it was.
    pub fn fetch<R: Wait>(&mut self, rt: &R, quantum: u32) -> Result<Option<Loan>, Refused>
        ensures { Fetches self.old quantum self.new result }
    {
        match self.fetch_ticketed(rt, quantum)? {
            Some(given) => Ok(Some(given.into_loan())),
            None => Ok(None),
        }
    }

    /// As `fetch`. A loan has the ticket with which it was lent, if it has one.
    pub(crate) fn fetch_ticketed<R: Wait>(
        &mut self,
        rt: &R,
        quantum: u32,
    ) -> Result<Option<TicketedLoan<N>>, Refused>
        ensures { Fetches self.old quantum self.new result }
    {
        if let Some(loan) = self.spare.take() {
            return Ok(Some(loan));
        }
        if let Some(loan) = self.own.next_loan() {
            return Ok(Some(loan));
        }
        if let Some(loan) = steal_round(rt, &mut self.others) {
            return Ok(Some(loan));
        }
        self.ask_for_loan(rt, quantum)
    }

    /// As `lend_some`, under the lock. Notes where the bench lends nothing.
    fn ask_for_loan<R: Wait>(
        &mut self,
        rt: &R,
        quantum: u32,
    ) -> Result<Option<TicketedLoan<N>>, Refused>
        ensures { AsksForLoan self.old quantum self.new result }
    {
        let pool = self.pool;
        let mut guard = lock_soon(rt, &pool.bench);
        let given = lend_some(
            &mut *guard,
            &mut self.own,
            &mut self.spare,
            &mut self.share,
            quantum,
        );
        note_lending(&mut self.told, &given);
        given
    }
}

//! `Bench`: the core that many workers share, with its log of loans, its board and its books.
ghost use Rattle.std.specs.Prelude.{◌≡◌, ◌≤◌, ◌||◌, true, false, [], ◌∷◌, option_map, IfOk};
ghost use Rattle.crossbeam_utils.specs.Seq.{cell_view};
ghost use Rattle.kernel_model.specs.Answers.{Kernel, now, committed as committed_in, changes as changes_in, Applies};
ghost use Rattle.kernel_model.specs.Loans.{Lends, is_over};
ghost use Rattle.kernel_step.specs.Known.{IsKnownLoan};
ghost use Rattle.kernel_step.specs.Loaned.{loan_out, lent_out, Settles, LendsAgain};
ghost use Rattle.board.specs.Pairs.{publisher, pair_of};
ghost use Rattle.bursts.specs.Totals.{history_totals};
ghost use Rattle.bursts.specs.GoingOn.{GoesOn, GrowsByGoing};
ghost use Rattle.bursts.specs.Holdings.{parts_in, sum_of, GrowsByLend, GrowsByLoan, GrowsBySettle, GrowsByEvent, lent_to};
ghost use Rattle.bursts.specs.LoanIds.{id_of_loan};
ghost use Rattle.bursts.specs.Tickets.{AreKnown};

use crate::added_totals::{totals_of_event, totals_of_result};
use crate::naming::Naming;
use crate::share::{Blanks, Books, Share};
use crate::ticket::{LentLoan, OfLoan, TicketedDone, TicketedLoan};
use crate::ticketed::settle_by_ticket;
use crate::totals::totals_of;
use board::{Board, Writer};
use kernel::{
    Answer, Core, Done, Event, Loan, Refused, Rejected, counts_never_fall, known_loans_stay,
};
use notes::Log;
use std::marker::Model;
use std::sync::Wait;

/// A core to be put under a lock, a log of the loans that it gave, the pass that publishes on its board, and the books of what all
/// shares add up to. Contracts see the core, and whether `stop` was called. The type keeps three facts. The pair published last is
/// the core's. The books are the totals of the core's history. Each loan of the log, which exists in proofs alone, is known: where
/// its process is out on it, the core keeps the state from which it began.
#[derive(Drop)]
pub struct Bench<'a, N: Naming> {
    core: Core,
    loans: Log<LentLoan, N>,
    board: &'a Board<N>,
    writer: Writer,
    books: Books<N>,
    stopped: bool,
}

impl<'a, N: Naming> Model for Bench<'a, N> {
    ghost use Rattle.bursts.specs.Benches.{OnBench, on_bench_code};

    ghost Value = { OnBench };

    ghost coded = { on_bench_code };

    ghost use Rattle.std.specs.Prelude.{◌≡◌, true};
    ghost use Rattle.crossbeam_utils.specs.Seq.{cell_view};
    ghost use Rattle.kernel_model.specs.Answers.{now, committed, changes};
    ghost use Rattle.board.specs.Pairs.{pair_of};
    ghost use Rattle.bursts.specs.Totals.{history_totals};
    ghost use Rattle.bursts.specs.Tickets.{AreKnown};

    ghost view = { λ b. record { core = b.core; stopped = b.stopped } };

    ghost invariant = { λ b. (b.writer.pass.table_id ≡ b.board.now.cell.table.shared.table_id)
        × ((cell_view b.writer.pass).publishes ≡ true)
        × (pair_of (cell_view b.writer.pass) ≡ (committed (now b.core), changes (now b.core)))
        × (b.books ≡ history_totals b.core)
        × AreKnown b.core b.loans };
}

impl<'a, N: Naming> Bench<'a, N> {
    /// A bench of this core, and the one share, which has all 64 parts and stands at the totals of the core's history. The board
    /// and the publishing pass were made from the core as it now stands; no run has the four ledgers and the log yet.
    pub fn new(
        core: Core,
        board: &'a Board<N>,
        writer: Writer,
        blanks: Blanks,
    ) -> (Bench<'a, N>, Share<N>)
        requires board { writer.pass.table_id ≡ board.now.cell.table.shared.table_id }
        requires writer { cell_view writer.pass ≡ publisher (committed_in (now core)) (changes_in (now core)) }
        requires events { (blanks.events.name ≡ N.events) × (blanks.events.parts ≡ 64) }
        requires ran { (blanks.ran.name ≡ N.ran) × (blanks.ran.parts ≡ 64) }
        requires turns { (blanks.turns.name ≡ N.turns) × (blanks.turns.parts ≡ 64) }
        requires enters { (blanks.enters.name ≡ N.enters) × (blanks.enters.parts ≡ 64) }
        requires loans { blanks.loans.seen.book ≡ N.book }
        ensures bench { result.0 ≡ record { core = core; stopped = false } }
        ensures share { (result.1.parts ≡ 64) × (result.1.totals ≡ history_totals core) × (result.1.lent ≡ []) }
    {
        let totals = totals_of(&core);
        let Blanks {
            events,
            ran,
            turns,
            enters,
            loans,
        } = blanks;
        let (books, share) = Books::open(events, ran, turns, enters, totals);
        let bench = Bench {
            core,
            loans: Log::open(loans),
            board,
            writer,
            books,
            stopped: false,
        };
        (bench, share)
    }

    /// The core, to be looked at alone.
    pub fn core(&self) -> &Core
        ensures { result.now ≡ self.now.core }
    {
        &self.core
    }

    /// Lends, as `Core::lend` does. A loan that is given is noted in the share. Neither the board nor the books change, so nothing
    /// is published.
    pub fn lend(&mut self, quantum: u32, share: &mut Share<N>) -> Result<Option<Loan>, Refused>
        ensures lends { Lends self.old.core quantum self.new.core (lent_out result) }
        ensures share { GrowsByLend share.old share.new result }
        ensures stopped { self.new.stopped ≡ self.old.stopped }
    {
        match self.lend_ticketed(quantum, share)? {
            Some(given) => Ok(Some(given.into_loan())),
            None => Ok(None),
        }
    }

    /// As `lend`. The loan has a ticket, by which this bench knows its result again, unless it could not be noted.
    pub fn lend_ticketed(
        &mut self,
        quantum: u32,
        share: &mut Share<N>,
    ) -> Result<Option<TicketedLoan<N>>, Refused>
        ensures lends { Lends self.old.core quantum self.new.core (lent_out result) }
        ensures share { GrowsByLend share.old share.new result }
        ensures stopped { self.new.stopped ≡ self.old.stopped }
    {
        known_loans_stay();
        self.core.has_lendings();
        let Some(loan) = self.core.lend(quantum)? else {
            return Ok(None);
        };
        Ok(Some(note(&mut self.loans, share, loan)))
    }

    /// Takes a loan's result back, as `Core::settle` does. The share grows by what its Turn and its Enter add, and the board shows
    /// what is committed after them. May wait for a load of the board.
    pub fn settle<R: Wait>(
        &mut self,
        rt: &R,
        done: Done,
        share: &mut Share<N>,
    ) -> Result<Answer, Rejected>
        ensures settles { Settles self.old.core done self.new.core result }
        ensures stopped { self.new.stopped ≡ self.old.stopped }
        ensures share { GrowsBySettle done.pid share.old share.new result }
    {
        self.settle_ticketed(rt, TicketedDone::plain(done), share)
    }

    /// As `settle`. Of a result with a ticket that this bench gave it does not compare the state from which it began: it is the one
    /// that the core keeps.
    pub fn settle_ticketed<R: Wait>(
        &mut self,
        rt: &R,
        done: TicketedDone<N>,
        share: &mut Share<N>,
    ) -> Result<Answer, Rejected>
        ensures settles { Settles self.old.core done self.new.core result }
        ensures stopped { self.new.stopped ≡ self.old.stopped }
        ensures share { GrowsBySettle done.pid share.old share.new result }
    {
        counts_never_fall();
        let pid = done.pid();
        let answer = settle_by_ticket(&mut self.core, &self.loans, done)?;
        self.books
            .enter(share, totals_of_result(pid, &answer), &self.core);
        publish(rt, self.board, &mut self.writer, &self.core);
        Ok(answer)
    }

    /// Lends this process, as `Core::lend_again` does. A loan that is given is noted in the share, and has a ticket, as that of
    /// `lend_ticketed`.
    fn lend_again(
        &mut self,
        pid: u32,
        quantum: u32,
        share: &mut Share<N>,
    ) -> Option<TicketedLoan<N>>
        ensures lends { LendsAgain self.old.core pid quantum self.new.core (option_map loan_out result) }
        ensures share { GrowsByLoan share.old share.new result }
        ensures stopped { self.new.stopped ≡ self.old.stopped }
    {
        known_loans_stay();
        self.core.has_lendings();
        let loan = self.core.lend_again(pid, quantum)?;
        Some(note(&mut self.loans, share, loan))
    }

    /// Takes a result back, as `settle_ticketed`, and lends its process again for what is left of the quantum. So a process that came
    /// to a call goes on while its worker has the lock once. No loan is given where nothing is left, once `stop` was called, and where
    /// `Core::lend_again` gives none.
    pub fn go_on<R: Wait>(
        &mut self,
        rt: &R,
        done: TicketedDone<N>,
        share: &mut Share<N>,
    ) -> Result<(Answer, Option<TicketedLoan<N>>), Rejected>
        ensures goes_on { GoesOn self.old.core done self.new.core result }
        ensures stopped { self.new.stopped ≡ self.old.stopped }
        ensures ends { self.old.stopped ≡ true → IfOk result (λ r. r.1 ≡ None) }
        ensures share { GrowsByGoing done share.old share.new result }
    {
        let pid = done.pid();
        let left = done.left();
        let answer = self.settle_ticketed(rt, done, share)?;
        if left == 0 || self.stopped {
            return Ok((answer, None));
        }
        let loan = self.lend_again(pid, left, share);
        Ok((answer, loan))
    }

    /// Applies an event, as `Core::apply` does. The share grows by what the event adds, and the board shows what is committed after
    /// it. May wait for a load of the board.
    pub fn apply<R: Wait>(
        &mut self,
        rt: &R,
        event: Event,
        share: &mut Share<N>,
    ) -> Result<Answer, Refused>
        ensures applies { Applies self.old.core event self.new.core result }
        ensures stopped { self.new.stopped ≡ self.old.stopped }
        ensures share { GrowsByEvent event share.old share.new result }
    {
        counts_never_fall();
        known_loans_stay();
        let answer = self.core.apply(event)?;
        self.books
            .enter(share, totals_of_event(event, &answer), &self.core);
        publish(rt, self.board, &mut self.writer, &self.core);
        Ok(answer)
    }
}

impl<'a, N: Naming> Bench<'a, N> {
    /// Whether the work is over: the core is, by `Core::over`, or `stop` was called. Takes no memory.
    pub fn over(&self, quantum: u32) -> bool
        ensures { result ≡ (self.now.stopped || is_over self.now.core quantum) }
    {
        self.stopped || self.core.over(quantum)
    }

    /// From now on `over` answers true.
    pub fn stop(&mut self)
        ensures { self.new ≡ record { core = self.old.core; stopped = true } }
    {
        self.stopped = true;
    }

    /// Whether `stop` was called.
    pub fn is_stopped(&self) -> bool
        ensures { result ≡ self.now.stopped }
    {
        self.stopped
    }
}

/// Takes a bench apart, into its core; the shares are used up. Whoever gives all 64 parts learns that they add up to the totals of
/// the core's history. Takes no memory.
pub fn gather<'a, N: Naming>(bench: Bench<'a, N>, shares: Vec<Share<N>>) -> Core
    ensures core { result ≡ bench.entry.core }
    ensures shares { parts_in shares.items ≡ 64 → sum_of shares.items ≡ history_totals result }
{
    let Bench { core, books, .. } = bench;
    books.close(shares);
    core
}

/// Notes a loan that was given, in the share and in the log.
fn note<N: Naming>(
    loans: &mut Log<LentLoan, N>,
    share: &mut Share<N>,
    loan: Loan,
) -> TicketedLoan<N>
    ensures loan { result ≡ loan }
    ensures share { share.new ≡ lent_to share.old (id_of_loan loan ∷ []) }
    ensures known { (k : Kernel) → AreKnown k loans.old → IsKnownLoan k loan.pid loan.number loan.began.value → AreKnown k loans.new }
{
    share.note(&loan);
    let ticket = loans.note::<Loan, OfLoan>(&loan);
    TicketedLoan::new(loan, ticket)
}

/// Publishes the core's pair, neither number of which ever falls.
fn publish<N: Naming, R: Wait>(rt: &R, board: &Board<N>, writer: &mut Writer, core: &Core)
    requires board { writer.old.pass.table_id ≡ board.now.cell.table.shared.table_id }
    requires publishes { (cell_view writer.old.pass).publishes ≡ true }
    requires rises { ((cell_view writer.old.pass).committed ≤ committed_in (now core.now)) × ((cell_view writer.old.pass).changes ≤ changes_in (now core.now)) }
    ensures board { writer.new.pass.table_id ≡ writer.old.pass.table_id }
    ensures publishes { (cell_view writer.new.pass).publishes ≡ true }
    ensures pair { pair_of (cell_view writer.new.pass) ≡ (committed_in (now core.now), changes_in (now core.now)) }
{
    board.publish(rt, writer, core.committed(), core.changes());
}

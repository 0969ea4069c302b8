//! `Share`: what one worker did, in numbers. `Books`: what all shares of a bench add up to. `Blanks`: what both are made of.
ghost use Rattle.std.specs.Prelude.{◌≡◌, ◌+◌, ◌<◌, ◌≤◌, [], ◌∷◌, IfSome, IfNone};
ghost use Rattle.bursts.specs.Totals.{none, plus, history_totals, Fit};
ghost use Rattle.bursts.specs.LoanIds.{loan_id};
ghost use Rattle.bursts.specs.Holdings.{with_share, with_shares, parts_in, sum_of, grown, lent_to, new_part};

use crate::loan_id::LoanId;
use crate::naming::{Enters, Events, Naming, Ran, Turns};
use crate::ticket::LentLoan;
use crate::totals::Totals;
use kernel::{Core, Loan};
use notes::{Blank as EmptyLog, Notes};
use std::marker::Model;
use std::sync::ledger::{Blank, Book, Ledger, Share as Mark};

/// Four ledgers (ghost accounts) that no run has yet, which have no bytes, and a log of loans.
#[derive(Drop)]
pub struct Blanks {
    pub events: Blank,
    pub ran: Blank,
    pub turns: Blank,
    pub enters: Blank,
    /// A log of loans that no run has yet.
    pub loans: EmptyLog<LentLoan>,
}

impl Blanks {
    pub fn new() -> Blanks
        ensures { (result.events.parts ≡ 64) × (result.ran.parts ≡ 64) × (result.turns.parts ≡ 64) × (result.enters.parts ≡ 64) }
    {
        Blanks {
            events: Blank::new(64),
            ran: Blank::new(64),
            turns: Blank::new(64),
            enters: Blank::new(64),
            loans: EmptyLog::new(),
        }
    }
}

/// What its holder did, in four numbers and the loans that it was lent, with a fraction of the right to know what all did. All
/// shares of a bench have 64 parts. Who has them all knows that their numbers add up to the history.
#[derive(Drop)]
pub struct Share<N: Naming> {
    parts: u32,
    totals: Totals,
    events: Mark<Events<N>>,
    ran: Mark<Ran<N>>,
    turns: Mark<Turns<N>>,
    enters: Mark<Enters<N>>,
    lent: Notes<LoanId>,
}

impl<N: Naming> Model for Share<N> {
    ghost use Rattle.bursts.specs.Holdings.{Holding};

    ghost Value = { Holding };

    ghost use Rattle.std.specs.Prelude.{◌≡◌, ◌<◌};

    ghost view = { λ s. record { parts = s.parts; totals = s.totals; lent = s.lent.items } };

    ghost invariant = { λ s. (0 < s.parts)
        × (s.events.parts ≡ s.parts) × (s.ran.parts ≡ s.parts) × (s.turns.parts ≡ s.parts) × (s.enters.parts ≡ s.parts)
        × (s.events.amount ≡ s.totals.events) × (s.ran.amount ≡ s.totals.ran)
        × (s.turns.amount ≡ s.totals.turns) × (s.enters.amount ≡ s.totals.enters) };
}

impl<N: Naming> Share<N> {
    /// How many of the 64 parts it has, at least one.
    pub fn parts(&self) -> u32
        ensures { result ≡ self.now.parts }
    {
        self.parts
    }

    /// Its four numbers.
    pub fn totals(&self) -> Totals
        ensures { result ≡ self.now.totals }
    {
        self.totals
    }

    /// Splits one of its parts off, with no numbers. None where it has only one. Takes no memory.
    pub fn split(&mut self) -> Option<Share<N>>
        ensures given { IfSome result (λ s. s ≡ new_part) }
        ensures left { IfSome result (λ s. (self.new.parts + 1 ≡ self.old.parts) × (self.new.totals ≡ self.old.totals) × (self.new.lent ≡ self.old.lent) × (1 < self.old.parts)) }
        ensures none { IfNone result ((self.new ≡ self.old) × (self.old.parts ≡ 1)) }
    {
        if self.parts == 1 {
            return None;
        }
        self.parts -= 1;
        Some(Share {
            parts: 1,
            totals: Totals {
                events: 0,
                ran: 0,
                turns: 0,
                enters: 0,
            },
            events: self.events.split_off(1, 0),
            ran: self.ran.split_off(1, 0),
            turns: self.turns.split_off(1, 0),
            enters: self.enters.split_off(1, 0),
            lent: Notes::new(),
        })
    }

    /// Notes a loan that its holder was lent.
    pub(crate) fn note(&mut self, loan: &Loan)
        ensures { self.new ≡ lent_to self.old (loan_id loan.now.pid loan.now.number loan.now.quantum ∷ []) }
    {
        let id = LoanId {
            pid: loan.pid,
            number: loan.number,
            quantum: loan.quantum,
        };
        self.lent = self.lent.and(&id);
    }
}

/// What some shares add up to, which proofs alone read.
#[derive(Drop)]
pub(crate) struct Sum<N: Naming> {
    events: Mark<Events<N>>,
    ran: Mark<Ran<N>>,
    turns: Mark<Turns<N>>,
    enters: Mark<Enters<N>>,
}

impl<N: Naming> Model for Sum<N> {
    ghost use Rattle.bursts.specs.Holdings.{Sum as SumOfShares};

    ghost Value = { SumOfShares };

    ghost use Rattle.std.specs.Prelude.{◌≡◌};

    ghost view = { λ s. record { parts = s.events.parts; totals = record { events = s.events.amount; ran = s.ran.amount; turns = s.turns.amount; enters = s.enters.amount } } };

    ghost invariant = { λ s. (s.ran.parts ≡ s.events.parts) × (s.turns.parts ≡ s.events.parts) × (s.enters.parts ≡ s.events.parts) };
}

impl<N: Naming> Sum<N> {
    fn merge(&mut self, share: Share<N>)
        ensures { self.new ≡ with_share self.old share }
    {
        let Share {
            events,
            ran,
            turns,
            enters,
            ..
        } = share;
        self.events.merge(events);
        self.ran.merge(ran);
        self.turns.merge(turns);
        self.enters.merge(enters);
    }
}

/// What all shares of a bench add up to. They have no bytes.
#[derive(Drop)]
pub(crate) struct Books<N: Naming> {
    nothing: Sum<N>,
    events: Book<Events<N>>,
    ran: Book<Ran<N>>,
    turns: Book<Turns<N>>,
    enters: Book<Enters<N>>,
}

impl<N: Naming> Model for Books<N> {
    ghost use Rattle.bursts.specs.declared.totals.Totals.{Totals};

    ghost Value = { Totals };

    ghost use Rattle.std.specs.Prelude.{◌≡◌};
    ghost use Rattle.bursts.specs.Totals.{none};

    ghost view = { λ b. record { events = b.events.total; ran = b.ran.total; turns = b.turns.total; enters = b.enters.total } };

    ghost invariant = { λ b. b.nothing ≡ record { parts = 0; totals = none } };
}

impl<N: Naming> Books<N> {
    /// Books that stand at these totals, and the one share, which has all parts and stands there too.
    pub(crate) fn open(
        events: Blank,
        ran: Blank,
        turns: Blank,
        enters: Blank,
        totals: Totals,
    ) -> (Books<N>, Share<N>)
        requires events { (events.name ≡ N.events) × (events.parts ≡ 64) }
        requires ran { (ran.name ≡ N.ran) × (ran.parts ≡ 64) }
        requires turns { (turns.name ≡ N.turns) × (turns.parts ≡ 64) }
        requires enters { (enters.name ≡ N.enters) × (enters.parts ≡ 64) }
        ensures books { result.0 ≡ totals }
        ensures share { result.1 ≡ record { parts = 64; totals = totals; lent = [] } }
    {
        let (event_book, event_mark, no_events) = opened::<Events<N>>(events, totals.events);
        let (ran_book, ran_mark, no_ran) = opened::<Ran<N>>(ran, totals.ran);
        let (turn_book, turn_mark, no_turns) = opened::<Turns<N>>(turns, totals.turns);
        let (enter_book, enter_mark, no_enters) = opened::<Enters<N>>(enters, totals.enters);
        let nothing = Sum {
            events: no_events,
            ran: no_ran,
            turns: no_turns,
            enters: no_enters,
        };
        let books = Books {
            nothing,
            events: event_book,
            ran: ran_book,
            turns: turn_book,
            enters: enter_book,
        };
        let share = Share {
            parts: 64,
            totals,
            events: event_mark,
            ran: ran_mark,
            turns: turn_mark,
            enters: enter_mark,
            lent: Notes::new(),
        };
        (books, share)
    }

    /// A share grows, and the books with it, by what the core's last events add.
    pub(crate) fn enter(&mut self, share: &mut Share<N>, by: Totals, core: &Core)
        requires { plus self.old by ≡ history_totals core.now }
        ensures books { self.new ≡ history_totals core.now }
        ensures share { share.new ≡ grown share.old by }
    {
        core.keeps_limits();
        self.grow(share, by);
    }

    /// A share grows, and the books with it.
    fn grow(&mut self, share: &mut Share<N>, by: Totals)
        requires { Fit (plus self.old by) }
        ensures books { self.new ≡ plus self.old by }
        ensures share { share.new ≡ grown share.old by }
    {
        grow_ledger(&mut self.events, &mut share.events, by.events);
        grow_ledger(&mut self.ran, &mut share.ran, by.ran);
        grow_ledger(&mut self.turns, &mut share.turns, by.turns);
        grow_ledger(&mut self.enters, &mut share.enters, by.enters);
        share.totals.events += by.events;
        share.totals.ran += by.ran;
        share.totals.turns += by.turns;
        share.totals.enters += by.enters;
    }

    /// All shares together stand at what the books say.
    pub(crate) fn close(self, shares: Vec<Share<N>>)
        ensures { parts_in shares.items ≡ 64 → sum_of shares.items ≡ self }
    {
        let Books {
            nothing,
            mut events,
            mut ran,
            mut turns,
            mut enters,
        } = self;
        let mut all = sum_all(nothing, shares);
        events.audit(&mut all.events);
        ran.audit(&mut all.ran);
        turns.audit(&mut all.turns);
        enters.audit(&mut all.enters);
    }
}

/// A ledger that no run has yet, opened at a total: its book, the mark that has all parts, and one that has none.
fn opened<L: Ledger>(blank: Blank, total: u64) -> (Book<L>, Mark<L>, Mark<L>)
    requires name { blank.name ≡ L.name }
    requires parts { blank.parts ≡ L.parts }
    requires some { 0 < blank.parts }
    ensures book { result.0.total ≡ total }
    ensures whole { (result.1.parts ≡ L.parts) × (result.1.amount ≡ total) }
    ensures empty { (result.2.parts ≡ 0) × (result.2.amount ≡ 0) }
{
    let (mut book, mut mark) = blank.open::<L>();
    book.add(&mut mark, total);
    let empty = mark.empty();
    (book, mark, empty)
}

/// A mark that has parts of a ledger grows, and the book with it. Before, its amount was not above the book's total.
fn grow_ledger<L: Ledger>(book: &mut Book<L>, mark: &mut Mark<L>, by: u64)
    requires { 0 < mark.old.parts }
    ensures total { book.new.total ≡ book.old.total + by }
    ensures amount { mark.new.amount ≡ mark.old.amount + by }
    ensures parts { mark.new.parts ≡ mark.old.parts }
    ensures bound { mark.old.amount ≤ book.old.total }
{
    book.audit(mark);
    book.add(mark, by);
}

/// What these shares add up to, with what was there.
fn sum_all<N: Naming>(mut all: Sum<N>, mut shares: Vec<Share<N>>) -> Sum<N>
    ensures { result ≡ with_shares all shares.items }
{
    while let Some(share) = shares.pop() {
        all.merge(share);
    }
    all
}

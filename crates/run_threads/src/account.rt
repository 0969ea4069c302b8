//! A desk's account, and the questions by which alone it grows. Each has the bench in hand, so its contract names the core: what the
//! account says was done there.
ghost use Rattle.std.specs.Prelude.{◌≡◌, [], IfOk};
ghost use Rattle.run_threads.specs.declared.note.Note.TheVariants as note_of;
ghost use Rattle.run_threads.specs.Records.{noted, lend_note, result_note};

use crate::copies::copies_of;
use crate::locked::Question;
use crate::note::Note;
use bursts::{Bench, LoanId, Naming, Share};
use kernel::{Answer, Done, Event, Loan, Piece, Refused, Rejected};
use notes::Notes;
use std::alloc::{AllocError, Global};
use std::marker::Model;
use std::sync::Wait;

/// A desk's share, with notes of what was asked at the desk. Contracts see its record.
#[derive(Drop)]
pub(crate) struct Account<N: Naming> {
    notes: Notes<Note>,
    share: Share<N>,
}

impl<N: Naming> Model for Account<N> {
    ghost use Rattle.run_threads.specs.Records.{Record};

    ghost Value = { Record };

    ghost view = { λ a. record { notes = a.notes.items; share = a.share } };
}

impl<N: Naming> Account<N> {
    /// With this share, and no note.
    pub(crate) fn new(share: Share<N>) -> Account<N>
        ensures { result ≡ record { notes = []; share = share } }
    {
        Account {
            notes: Notes::new(),
            share,
        }
    }

    /// Its share.
    pub(crate) fn end(self) -> Share<N>
        ensures { result ≡ self.share }
    {
        let Account { share, .. } = self;
        share
    }

    fn note(&mut self, note: &Note)
        ensures { self.new ≡ noted self.old note.now }
    {
        self.notes = self.notes.and(note);
    }
}

/// A loan of the next process, of at most so many instructions.
#[derive(Clone, Copy)]
pub(crate) struct ForLoan {
    pub quantum: u32,
}

impl<'b, N: Naming> Question<Bench<'b, N>, Account<N>> for ForLoan {
    type Answer = Result<Option<Loan>, Refused>;

    ghost use Rattle.run_threads.specs.Asked.{Lent};

    ghost comes = { λ q b r c s result. Lent q.quantum b r c s result };

    fn ask<R: Wait>(
        self,
        _rt: &R,
        under: &mut Bench<'b, N>,
        account: &mut Account<N>,
    ) -> Result<Option<Loan>, Refused> {
        let given = under.lend(self.quantum, &mut account.share);
        account.note(&note_of_lend(&given));
        given
    }
}

/// A loan's result is handed in.
pub(crate) struct HandIn {
    pub done: Done,
}

impl<'b, N: Naming> Question<Bench<'b, N>, Account<N>> for HandIn {
    type Answer = Result<Answer, Rejected>;

    ghost use Rattle.run_threads.specs.Asked.{Settled};

    ghost comes = { λ q b r c s result. Settled q.done b r c s result };

    fn ask<R: Wait>(
        self,
        rt: &R,
        under: &mut Bench<'b, N>,
        account: &mut Account<N>,
    ) -> Result<Answer, Rejected> {
        let HandIn { done } = self;
        let loan = LoanId {
            pid: done.pid,
            number: done.number,
            quantum: done.quantum,
        };
        let answer = under.settle(rt, done, &mut account.share);
        account.note(&note_of_result(loan, &answer));
        answer
    }
}

/// An event happens.
#[derive(Clone, Copy)]
pub(crate) struct Happens {
    pub event: Event,
}

impl<'b, N: Naming> Question<Bench<'b, N>, Account<N>> for Happens {
    type Answer = Result<Answer, Refused>;

    ghost use Rattle.run_threads.specs.Asked.{Applied};

    ghost comes = { λ q b r c s result. Applied q.event b r c s result };

    fn ask<R: Wait>(
        self,
        rt: &R,
        under: &mut Bench<'b, N>,
        account: &mut Account<N>,
    ) -> Result<Answer, Refused> {
        let event = self.event;
        let answer = under.apply(rt, event, &mut account.share);
        account.note(&Note::Applied(event, answer));
        answer
    }
}

/// Where the write in flight begins that begins first.
#[derive(Clone, Copy)]
pub(crate) struct WhichIsFirst;

impl<'b, N: Naming> Question<Bench<'b, N>, Account<N>> for WhichIsFirst {
    type Answer = Option<u32>;

    ghost use Rattle.run_threads.specs.Asked.{SawFirst};

    ghost comes = { λ _ b r c s result. SawFirst b r c s result };

    fn ask<R: Wait>(
        self,
        _rt: &R,
        under: &mut Bench<'b, N>,
        account: &mut Account<N>,
    ) -> Option<u32> {
        let first = under.core().in_flight();
        account.note(&Note::First(first));
        first
    }
}

/// The writes in flight, copied.
#[derive(Clone, Copy)]
pub(crate) struct WhichAreInFlight {
    pub alloc: Global,
}

impl<'b, N: Naming> Question<Bench<'b, N>, Account<N>> for WhichAreInFlight {
    type Answer = Result<Vec<Piece>, AllocError>;

    ghost use Rattle.run_threads.specs.Asked.{SawInFlight};

    ghost comes = { λ _ b r c s result. SawInFlight b r c s result };

    fn ask<R: Wait>(
        self,
        _rt: &R,
        under: &mut Bench<'b, N>,
        account: &mut Account<N>,
    ) -> Result<Vec<Piece>, AllocError> {
        let pieces = copies_of(self.alloc, under.core().writes_in_flight())?;
        account.note(&Note::InFlight(pieces.len()));
        Ok(pieces)
    }
}

/// Whether a Cut is wanted.
#[derive(Clone, Copy)]
pub(crate) struct IsCutWanted;

impl<'b, N: Naming> Question<Bench<'b, N>, Account<N>> for IsCutWanted {
    type Answer = bool;

    ghost use Rattle.run_threads.specs.Asked.{SawWant};

    ghost comes = { λ _ b r c s result. SawWant b r c s result };

    fn ask<R: Wait>(self, _rt: &R, under: &mut Bench<'b, N>, account: &mut Account<N>) -> bool {
        let is_wanted = under.core().wants_cut();
        account.note(&Note::WantsCut(is_wanted));
        is_wanted
    }
}

/// Whether the work is over for a quantum.
#[derive(Clone, Copy)]
pub(crate) struct IsOver {
    pub quantum: u32,
}

impl<'b, N: Naming> Question<Bench<'b, N>, Account<N>> for IsOver {
    type Answer = bool;

    ghost use Rattle.run_threads.specs.Asked.{SawOver};

    ghost comes = { λ q b r c s result. SawOver q.quantum b r c s result };

    fn ask<R: Wait>(self, _rt: &R, under: &mut Bench<'b, N>, account: &mut Account<N>) -> bool {
        let is_over = under.over(self.quantum);
        account.note(&Note::Over(self.quantum, is_over));
        is_over
    }
}

/// Stop is said.
#[derive(Clone, Copy)]
pub(crate) struct Stops;

impl<'b, N: Naming> Question<Bench<'b, N>, Account<N>> for Stops {
    type Answer = ();

    ghost use Rattle.run_threads.specs.Asked.{SaidStop};

    ghost comes = { λ _ b r c s _. SaidStop b r c s };

    fn ask<R: Wait>(self, _rt: &R, under: &mut Bench<'b, N>, account: &mut Account<N>) {
        under.stop();
        account.note(&Note::Stopped);
    }
}

fn note_of_lend(given: &Result<Option<Loan>, Refused>) -> Note
    ensures { result ≡ lend_note given.now }
{
    match given {
        Ok(Some(loan)) => Note::Given(LoanId {
            pid: loan.pid,
            number: loan.number,
            quantum: loan.quantum,
        }),
        Ok(None) => Note::Idle,
        Err(why) => Note::Refused(*why),
    }
}

fn note_of_result(loan: LoanId, answer: &Result<Answer, Rejected>) -> Note
    ensures { result ≡ result_note loan answer.now }
{
    match answer {
        Ok(answer) => Note::Accepted(loan, *answer),
        Err(rejected) => Note::Rejected(loan, rejected.why),
    }
}

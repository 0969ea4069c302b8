//! Desks: where workers get loans and hand their results in, and where whoever commits does so.
ghost use Rattle.std.specs.Prelude.{◌≡◌, [], ◌∷◌, ◌++◌, length, if◌then◌else◌, IfOk, MatchResult};
ghost use Rattle.bursts.specs.LoanIds.{id_of_result};
ghost use Rattle.bursts.specs.Holdings.{GrowsByLend, GrowsBySettle, GrowsByEvent};
ghost use Rattle.kernel_model.specs.declared.event.Event.TheVariants as event_of;
ghost use Rattle.run_threads.specs.CoreCalls.{calls_in};
ghost use Rattle.run_threads.specs.declared.note.Note.TheVariants as note_of;
ghost use Rattle.run_threads.specs.Records.{Record, noted, lend_note, result_note, SomeBenchLends, SomeBenchSettles, SomeBenchApplies, SomeCoreHasFirst, SomeCoreHasInFlight, SomeCoreWantsCut, SomeBenchIsOver};

use crate::account::{
    Account, ForLoan, HandIn, Happens, IsCutWanted, IsOver, Stops, WhichAreInFlight, WhichIsFirst,
};
use crate::locked::Locked;
use bursts::{Bench, Naming, Share};
use durable_disk::StagedCore;
use kernel::{Answer, Done, Event, Loan, Piece, Refused, Rejected};
use std::alloc::{AllocError, Global};
use std::marker::Model;
use std::sync::{Mutex, Wait};

/// A desk, with a record that exists in proofs alone. In it is a note of each call, in order, with what was asked and what the desk
/// answered; beside them the desk's share.
pub trait Desk {
    ghost account: { Self → Record };

    /// A loan of the next process, of at most so many instructions. None where no process is lendable.
    fn lend(&mut self, quantum: u32) -> Result<Option<Loan>, Refused>
        ensures notes { (account self.new).notes ≡ (account self.old).notes ++ lend_note result ∷ [] }
        ensures share { GrowsByLend (account self.old).share (account self.new).share result }
        ensures bench { SomeBenchLends quantum result };

    /// Hands a loan's result in. Where it is not taken back it comes out again, with the reason.
    fn settle(&mut self, done: Done) -> Result<Answer, Rejected>
        ensures notes { (account self.new).notes ≡ (account self.old).notes ++ result_note (id_of_result done) result ∷ [] }
        ensures share { GrowsBySettle done.pid (account self.old).share (account self.new).share result }
        ensures bench { SomeBenchSettles done result };

    /// An event happens, a Cut say, by which a group of changes is submitted to the disk.
    fn apply(&mut self, event: Event) -> Result<Answer, Refused>
        ensures notes { (account self.new).notes ≡ (account self.old).notes ++ note_of.Applied event result ∷ [] }
        ensures share { GrowsByEvent event (account self.old).share (account self.new).share result }
        ensures bench { SomeBenchApplies event result };

    /// The least offset on the disk at which a write in flight begins.
    fn in_flight(&mut self) -> Option<u32>
        ensures account { account self.new ≡ noted (account self.old) (note_of.First result) }
        ensures core { SomeCoreHasFirst result };

    /// The writes in flight, in the order in which they were submitted, copied. Fails for want of memory alone.
    fn writes_in_flight(&mut self) -> Result<Vec<Piece>, AllocError>
        ensures account { MatchResult result (λ pieces. account self.new ≡ noted (account self.old) (note_of.InFlight (length pieces.items))) (λ _. account self.new ≡ account self.old) }
        ensures core { IfOk result (λ pieces. SomeCoreHasInFlight pieces.items) };

    /// Whether a byte of a terminal waits for a commit that is not on its way.
    fn wants_cut(&mut self) -> bool
        ensures account { account self.new ≡ noted (account self.old) (note_of.WantsCut result) }
        ensures core { SomeCoreWantsCut result };

    /// Whether no process is lent and none is lendable for a quantum, or some desk said stop.
    fn over(&mut self, quantum: u32) -> bool
        ensures account { account self.new ≡ noted (account self.old) (note_of.Over quantum result) }
        ensures bench { SomeBenchIsOver quantum result };

    /// Says stop: from now on the work is over at all desks of this bench.
    fn stop(&mut self)
        ensures { account self.new ≡ noted (account self.old) note_of.Stopped };
}

/// A desk over a bench under a lock. Each call may wait for the lock, and lets it go before it answers. Contracts see the record. To
/// a file it is the core whose writes the file holds: what it is told stands in its notes.
#[derive(Drop)]
pub struct LockedDesk<'r, 'a, 'b, N: Naming, R: Wait> {
    rt: &'r R,
    alloc: Global,
    bench: Locked<'a, Bench<'b, N>>,
    account: Account<N>,
}

impl<'r, 'a, 'b, N: Naming, R: Wait> Model for LockedDesk<'r, 'a, 'b, N, R> {
    ghost use Rattle.run_threads.specs.Records.{Record};

    ghost Value = { Record };

    ghost view = { λ d. d.account };
}

impl<'r, 'a, 'b, N: Naming, R: Wait> LockedDesk<'r, 'a, 'b, N, R> {
    /// A desk with this share, at which nothing was done yet.
    pub fn new(
        rt: &'r R,
        alloc: Global,
        bench: &'a Mutex<Bench<'b, N>>,
        share: Share<N>,
    ) -> LockedDesk<'r, 'a, 'b, N, R>
        ensures { result ≡ record { notes = []; share = share } }
    {
        LockedDesk {
            rt,
            alloc,
            bench: Locked::new(bench),
            account: Account::new(share),
        }
    }

    /// Ends the desk, and gives its share back.
    pub fn end(self) -> Share<N>
        ensures { result ≡ self.entry.share }
    {
        let LockedDesk { account, .. } = self;
        account.end()
    }
}

impl<'r, 'a, 'b, N: Naming, R: Wait> Desk for LockedDesk<'r, 'a, 'b, N, R> {
    ghost account = { λ d. d };

    fn lend(&mut self, quantum: u32) -> Result<Option<Loan>, Refused> {
        self.bench
            .ask(self.rt, &mut self.account, ForLoan { quantum })
    }

    fn settle(&mut self, done: Done) -> Result<Answer, Rejected> {
        self.bench.ask(self.rt, &mut self.account, HandIn { done })
    }

    fn apply(&mut self, event: Event) -> Result<Answer, Refused> {
        self.bench
            .ask(self.rt, &mut self.account, Happens { event })
    }

    fn in_flight(&mut self) -> Option<u32> {
        self.bench.ask(self.rt, &mut self.account, WhichIsFirst)
    }

    fn writes_in_flight(&mut self) -> Result<Vec<Piece>, AllocError> {
        let alloc = self.alloc;
        self.bench
            .ask(self.rt, &mut self.account, WhichAreInFlight { alloc })
    }

    fn wants_cut(&mut self) -> bool {
        self.bench.ask(self.rt, &mut self.account, IsCutWanted)
    }

    fn over(&mut self, quantum: u32) -> bool {
        self.bench
            .ask(self.rt, &mut self.account, IsOver { quantum })
    }

    fn stop(&mut self) {
        self.bench.ask(self.rt, &mut self.account, Stops)
    }
}

/// How a write ends.
fn end_of(at: u32, is_complete: bool) -> Event
    ensures { result ≡ (if is_complete then event_of.Complete at else event_of.Fail at) }
{
    if is_complete {
        Event::Complete { at }
    } else {
        Event::Fail { at }
    }
}

impl<'r, 'a, 'b, N: Naming, R: Wait> StagedCore for LockedDesk<'r, 'a, 'b, N, R> {
    type Refusal = Refused;

    ghost calls_of = { λ d. calls_in d.notes };

    ghost submitted = { λ pieces. SomeCoreHasInFlight pieces };

    fn stage(&mut self) -> Result<Vec<Piece>, Refused> {
        let Ok(pieces) = self.writes_in_flight() else {
            return Err(Refused::OutOfMemory);
        };
        Ok(pieces)
    }

    fn tell(&mut self, at: u32, is_complete: bool) -> Result<(), Refused> {
        let event = end_of(at, is_complete);
        self.bench
            .ask(self.rt, &mut self.account, Happens { event })?;
        Ok(())
    }
}

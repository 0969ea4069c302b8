//! The marks of all carriers.
ghost use Rattle.std.specs.Prelude.{◌≡◌, ℕ, ◌+◌, ◌<◌, ◌≤◌, ◌^◌, Bool, true, false, if◌then◌else◌, List, [], ◌∷◌, ◌++◌, OnOk, OnErr, IfOk, IsOk, IfSome, is_some, length};
ghost use Rattle.std.specs.Option.{ForSome};
ghost use Rattle.std.specs.List.{AllByRecursion};
ghost use Rattle.commit_deps.specs.Keeps.{mark_of_change};
ghost use Rattle.kernel_model.specs.Entries.{Entry};

use crate::mark::Mark;
use kernel_model::Carrier;
use std::alloc::{AllocError, Global};
use std::collections::HashMap;
use std::marker::Model;

/// The marks of the events so far: for each carrier that some event wrote, the changes with a path to a writer of it.
pub struct Dependencies {
    /// The carriers in the order in which they were first written, each with its mark.
    marks: Vec<(Carrier, Mark)>,
    /// Where the process stands there that was noted again last. An event reads and writes its process, so this one is looked for most.
    recent: usize,
    /// Where each of them stands there.
    places: HashMap<Carrier, usize>,
}

impl Drop for Dependencies {
    fn drop(self) {
        let Dependencies {
            marks: _marks,
            recent: _,
            places: _places,
        } = self;
    }
}

impl Model for Dependencies {
    ghost use Rattle.std.specs.Prelude.{◌-◌, min, vec_capacity, vec_len};
    ghost use Rattle.std.specs.HashMap.{spare};
    ghost use Rattle.commit_deps.specs.Kept.{Kept};
    ghost use Rattle.commit_deps.specs.Places.{SaysPlaces, AreDistinct};

    ghost Value = { Kept };

    ghost view = { λ d. record { marks = d.marks.items; room = min (vec_capacity d.marks - vec_len d.marks) (spare d.places) } };

    ghost invariant = { λ d. SaysPlaces d.places.entries d.marks.items × AreDistinct d.marks.items };
}

/// The mark of an event's own change, by the change's number from 0.
fn own_mark(change: Option<u64>) -> Mark
    requires { ForSome change (λ k. k + 1 < 2 ^ 64) }
    ensures { result ≡ mark_of_change change }
{
    match change {
        Some(change) => Mark::of_change(change),
        None => Mark::none(),
    }
}

/// Where the process stands that was noted again last, once a carrier that stands at a place is noted again.
fn more_recent(carrier: Carrier, place: usize, recent: usize) -> usize {
    match carrier {
        Carrier::Proc(_) => place,
        _ => recent,
    }
}

impl Dependencies {
    ghost use Rattle.commit_deps.specs.Places.{place_at};
    ghost use Rattle.commit_deps.specs.Keeps.{Keeps, mark_at, is_written, greatest_mark, noted, unwritten_count};
    ghost use Rattle.commit_deps.specs.Marks.{IsMarkOf, reader, change_number};

    /// No events. Takes no memory.
    pub fn new(alloc: Global) -> Dependencies
        ensures { Keeps [] result.marks }
    {
        Dependencies {
            marks: Vec::new(alloc),
            recent: 0,
            places: HashMap::new(alloc),
        }
    }

    /// As `place`, by the index.
    fn indexed(&self, carrier: Carrier) -> Option<usize>
        ensures { result ≡ place_at carrier self.now.marks }
    {
        self.places.get(&carrier).copied()
    }

    /// Where a carrier stands among those that some event wrote.
    fn place(&self, carrier: Carrier) -> Option<usize>
        ensures { result ≡ place_at carrier self.now.marks }
    {
        match self.marks.get(self.recent) {
            Some((noted, _)) if *noted == carrier => Some(self.recent),
            _ => self.indexed(carrier),
        }
    }

    fn kept_mark(&self, carrier: Carrier) -> Option<Mark>
        ensures { result ≡ mark_at carrier self.now.marks }
    {
        let place = self.place(carrier)?;
        Some(self.marks[place].1)
    }

    /// The changes on which a reader of this one carrier rests; None where no event wrote it.
    pub fn of(&self, carrier: Carrier) -> Option<Mark>
        ensures kept { result ≡ mark_at carrier self.now.marks }
        ensures written { (log : List Entry) → Keeps log self.now.marks → is_some result ≡ is_written carrier log }
        ensures reader { (log : List Entry) → Keeps log self.now.marks
            → IfSome result (λ m. IsMarkOf m log (reader (carrier ∷ []))) }
    {
        self.kept_mark(carrier)
    }

    /// The greatest of a mark and those of these carriers.
    fn greatest(&self, own: Mark, reads: &[Carrier]) -> Mark
        ensures { result ≡ greatest_mark own reads.now self.now.marks }
    {
        reads.iter().fold(own, |mark, carrier| {
            mark.joined(self.kept_mark(*carrier).unwrap_or(Mark::none()))
        })
    }

    /// The changes on which the next event rests that reads these carriers and makes this change.
    fn mark(&self, reads: &[Carrier], change: Option<u64>) -> Mark
        requires { ForSome change (λ k. k + 1 < 2 ^ 64) }
        ensures { (log : List Entry) (e : Entry) → Keeps log self.now.marks → e.reads ≡ reads.now
            → change ≡ change_number log e → IsMarkOf result log e }
    {
        self.greatest(own_mark(change), reads)
    }

    /// The changes on which the next event rests that reads this carrier and these, and makes this change, by its number from 0. So a
    /// caller need not list them all. It is asked before `note`, which changes the marks.
    pub fn mark_with(&self, first: Carrier, reads: &[Carrier], change: Option<u64>) -> Mark
        requires { ForSome change (λ k. k + 1 < 2 ^ 64) }
        ensures { (log : List Entry) (e : Entry) → Keeps log self.now.marks → e.reads ≡ first ∷ reads.now
            → change ≡ change_number log e → IsMarkOf result log e }
    {
        let mark = self.greatest(own_mark(change), &[first]);
        self.greatest(mark, reads)
    }

    /// Makes room to note so many written carriers. The marks stay, whether it succeeds or not.
    pub fn reserve(&mut self, writes: usize) -> Result<(), AllocError>
        ensures ok { OnOk result (writes ≤ self.new.room) }
        ensures err { OnErr result (self.old.room < writes) }
        ensures marks { self.new.marks ≡ self.old.marks }
        ensures room { self.old.room ≤ self.new.room }
    {
        self.marks.reserve(writes)?;
        self.places.reserve(writes)
    }

    /// How many of these carriers no event wrote: so many marks may come in.
    fn unwritten(&self, writes: &[Carrier]) -> usize
        ensures { result ≡ unwritten_count writes.now self.now.marks }
    {
        writes
            .iter()
            .filter(|carrier| self.kept_mark(**carrier).is_none())
            .count()
    }

    /// Notes an event of this mark that writes a carrier. Takes no memory: a carrier that no event wrote needs room.
    fn note_one(&mut self, carrier: Carrier, mark: Mark)
        requires { unwritten_count (carrier ∷ []) self.old.marks ≤ self.old.room }
        ensures marks { self.new.marks ≡ noted carrier mark self.old.marks }
        ensures room { self.old.room ≤ self.new.room + unwritten_count (carrier ∷ []) self.old.marks }
    {
        match self.place(carrier) {
            Some(place) => {
                let kept = &mut self.marks[place].1;
                *kept = kept.joined(mark);
                self.recent = more_recent(carrier, place, self.recent);
            }
            None => {
                let placed: Result<_, _> = self.places.insert(carrier, self.marks.len());
                let _none = placed.unwrap();
                self.marks.push_reserved((carrier, mark));
            }
        }
    }

    /// Notes an event of this mark (`mark_with`) that writes these carriers. Takes no memory: those that no event wrote need room.
    pub fn note(&mut self, writes: &[Carrier], mark: Mark)
        requires { unwritten_count writes.now self.old.marks ≤ self.old.room }
        ensures keeps { (log : List Entry) (e : Entry) → Keeps log self.old.marks → IsMarkOf mark log e
            → e.writes ≡ writes.now → Keeps (log ++ e ∷ []) self.new.marks }
        ensures room { self.old.room ≤ self.new.room + length writes.now }
    {
        for carrier in writes {
            self.note_one(*carrier, mark);
        }
    }

    /// Notes an event that reads and writes these carriers and makes this change, by its number from 0. Gives its mark: the changes
    /// on which it rests. It takes memory only for carriers that no event wrote, and none where there is room. Where it fails the
    /// marks stay.
    pub fn event(
        &mut self,
        reads: &[Carrier],
        writes: &[Carrier],
        change: Option<u64>,
    ) -> Result<Mark, AllocError>
        requires { ForSome change (λ k. k + 1 < 2 ^ 64) }
        ensures mark { IfOk result (λ m. (log : List Entry) (e : Entry) → Keeps log self.old.marks → e.reads ≡ reads.now
            → change ≡ change_number log e → IsMarkOf m log e) }
        ensures keeps { OnOk result ((log : List Entry) (e : Entry) → Keeps log self.old.marks → e.reads ≡ reads.now
            → e.writes ≡ writes.now → change ≡ change_number log e → Keeps (log ++ e ∷ []) self.new.marks) }
        ensures err { OnErr result (self.new.marks ≡ self.old.marks) }
        ensures stays { OnErr result (self.old.room ≤ self.new.room) }
        ensures known { AllByRecursion (λ x. is_some (mark_at x self.old.marks) ≡ true) writes.now → IsOk result }
        ensures room { length writes.now ≤ self.old.room → IsOk result }
        ensures left { self.old.room ≤ self.new.room + length writes.now }
    {
        let mark = self.mark(reads, change);
        let unwritten = self.unwritten(writes);
        self.reserve(unwritten)?;
        self.note(writes, mark);
        Ok(mark)
    }

    /// The same marks, in memory of their own. Refused for want of memory alone.
    pub fn try_clone(&self, alloc: Global) -> Result<Dependencies, AllocError>
        ensures { IfOk result (λ copy. copy.marks ≡ self.now.marks) }
    {
        Ok(Dependencies {
            marks: self.marks.to_vec(alloc)?,
            recent: self.recent,
            places: self.places.clone()?,
        })
    }
}

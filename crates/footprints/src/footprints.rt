//! What is kept of the footprints of events, and the walk back from one event over those on which it rests.
ghost use Rattle.std.specs.Prelude.{◌≡◌, ℕ, ◌+◌, ◌-◌, ◌<◌, ◌≤◌, ◌∷◌, ◌++◌, ◌||◌, ◌⊎◌, [], length, vec_len, vec_capacity, get_or, None, IfSome, IfOk, OnOk, OnErr};
ghost use Rattle.std.specs.Bool.{Decides};
ghost use Rattle.kernel_model.specs.declared.carrier.Carrier.{Carrier as Carried};
ghost use Rattle.kernel_model.specs.Entries.{is_among, meets};
ghost use Rattle.footprints.specs.Footprints.{is_enter, enter_count, enters_among, footprint_by, AreTheCone};
ghost use Rattle.footprints.specs.Kept.{footprint, no_footprint, part, footprint_in, footprints_in, IsWithin, AreWithin, IsPlaced, IsNamed, no_ends};

use crate::wanted::Wanted;
use kernel_model::{Carrier, Event};
use std::alloc::{AllocError, Global};
use std::marker::Model;

/// So many of the footprints that came last are looked at before one more is kept.
const LOOKED_AT: usize = 16;
/// So many footprints are kept at most: a name is a u32.
const NAMES: usize = 1 << 32;

/// Where the carriers of a footprint stand: from a place on those that an Enter reads beside its process, and after them those that it
/// writes.
#[derive(Clone, Copy)]
struct Ends {
    from: usize,
    reads: usize,
    writes: usize,
}

/// The carriers from one place up to another.
fn part_of(carriers: &[Carrier], from: usize, to: usize) -> &[Carrier]
    requires order { from ≤ to }
    requires within { to ≤ length carriers.now }
    ensures { result.now ≡ part from to carriers.now }
{
    &carriers[from..to]
}

/// The carriers that a footprint reads beside its process.
fn read_by<'a>(carriers: &'a [Carrier], ends: &[Ends], name: usize) -> &'a [Carrier]
    requires there { name < length ends.now }
    requires within { AreWithin (length carriers.now) ends.now }
    ensures { result.now ≡ (get_or (footprints_in carriers.now ends.now) name no_footprint).reads }
{
    part_of(carriers, ends[name].from, ends[name].reads)
}

/// The carriers that a footprint writes.
fn written_by<'a>(carriers: &'a [Carrier], ends: &[Ends], name: usize) -> &'a [Carrier]
    requires there { name < length ends.now }
    requires within { AreWithin (length carriers.now) ends.now }
    ensures { result.now ≡ (get_or (footprints_in carriers.now ends.now) name no_footprint).writes }
{
    part_of(carriers, ends[name].reads, ends[name].writes)
}

/// Whether the footprint that stands there is this one.
fn is_footprint(carriers: &[Carrier], ends: Ends, reads: &[Carrier], writes: &[Carrier]) -> bool
    requires { IsWithin (length carriers.now) ends }
    ensures { Decides result (footprint_in carriers.now ends ≡ footprint reads.now writes.now) }
{
    let read = part_of(carriers, ends.from, ends.reads);
    let written = part_of(carriers, ends.reads, ends.writes);
    read == reads && written == writes
}

/// These carriers come last. Answers how many there are then. Takes no memory.
fn append(carriers: &mut Vec<Carrier>, more: &[Carrier]) -> usize
    requires { vec_len carriers.old + length more.now ≤ vec_capacity carriers.old }
    ensures items { carriers.new.items ≡ carriers.old.items ++ more.now }
    ensures count { result ≡ length carriers.new.items }
    ensures len { vec_len carriers.new ≡ vec_len carriers.old + length more.now }
    ensures room { vec_capacity carriers.old ≤ vec_capacity carriers.new }
{
    carriers.extend_from_slice(more).unwrap();
    carriers.len()
}

/// The carriers of a footprint come last. Takes no memory.
fn append_footprint(carriers: &mut Vec<Carrier>, reads: &[Carrier], writes: &[Carrier]) -> Ends
    requires { vec_len carriers.old + (length reads.now + length writes.now) ≤ vec_capacity carriers.old }
    ensures placed { IsPlaced carriers.old.items carriers.new.items result (footprint reads.now writes.now) }
    ensures len { vec_len carriers.new ≡ vec_len carriers.old + (length reads.now + length writes.now) }
    ensures room { vec_capacity carriers.old ≤ vec_capacity carriers.new }
{
    let from = carriers.len();
    let read_to = append(carriers, reads);
    let written_to = append(carriers, writes);
    Ends {
        from,
        reads: read_to,
        writes: written_to,
    }
}

/// Which of the footprints that came last this is, if it is one of them.
fn find(carriers: &[Carrier], ends: &[Ends], reads: &[Carrier], writes: &[Carrier]) -> Option<usize>
    requires { AreWithin (length carriers.now) ends.now }
    ensures there { IfSome result (λ name. name < length ends.now) }
    ensures is { IfSome result (λ name. footprint_in carriers.now (get_or ends.now name no_ends) ≡ footprint reads.now writes.now) }
    ensures none { result ≡ None → (name : ℕ) → length ends.now ≤ name + 16 → name < length ends.now
        → footprint_in carriers.now (get_or ends.now name no_ends) ≡ footprint reads.now writes.now → ⊥ }
{
    let first = ends.len().saturating_sub(LOOKED_AT);
    for name in (first..ends.len()).rev() {
        if is_footprint(carriers, ends[name], reads, writes) {
            return Some(name);
        }
    }
    None
}

/// The name of a footprint: that of one of those that came last, or else it comes last itself. Takes no memory.
fn name(
    carriers: &mut Vec<Carrier>,
    ends: &mut Vec<Ends>,
    reads: &[Carrier],
    writes: &[Carrier],
) -> usize
    requires within { AreWithin (length carriers.old.items) ends.old.items }
    requires footprint { vec_len ends.old + 1 ≤ vec_capacity ends.old }
    requires carriers { vec_len carriers.old + (length reads.now + length writes.now) ≤ vec_capacity carriers.old }
    ensures within { AreWithin (length carriers.new.items) ends.new.items }
    ensures named { IsNamed (footprints_in carriers.old.items ends.old.items) (footprints_in carriers.new.items ends.new.items) result (footprint reads.now writes.now) }
    ensures ends { vec_len ends.new ≤ vec_len ends.old + 1 }
    ensures ends_room { vec_capacity ends.old ≤ vec_capacity ends.new }
    ensures len { vec_len carriers.new ≤ vec_len carriers.old + (length reads.now + length writes.now) }
    ensures room { vec_capacity carriers.old ≤ vec_capacity carriers.new }
{
    match find(carriers, ends, reads, writes) {
        Some(name) => name,
        None => {
            let placed = append_footprint(carriers, reads, writes);
            ends.push(placed).unwrap();
            ends.len() - 1
        }
    }
}

/// Whether an event is an Enter.
fn enters(event: Event) -> bool
    ensures { result ≡ is_enter event }
{
    matches!(event, Event::Enter { .. })
}

/// How many Enters are among these events.
fn count_enters(events: &[Event]) -> usize
    ensures { result ≡ enters_among events.now }
{
    events.iter().filter(|event| enters(**event)).count()
}

/// How many Enters came before an event, where so many came before the next one.
fn enters_before(event: Event, enters_after: usize) -> usize
    requires { enter_count event ≤ enters_after }
    ensures { result + enter_count event ≡ enters_after }
{
    if enters(event) {
        enters_after - 1
    } else {
        enters_after
    }
}

/// The footprints of a run's Enters, in order. An Enter takes 4 bytes, which name its footprint. A footprint takes 24 bytes, and 16 for
/// each carrier: those that it reads beside its process, and all that it writes. One that is the same as one of the last 16 is not kept
/// again. The other events take nothing, since the history says their footprints: a Turn reads and writes its process, and an event of
/// the disk reads and writes nothing.
pub struct Footprints {
    /// Those of the footprints, one after the other: first those that it reads, then those that it writes.
    carriers: Vec<Carrier>,
    ends: Vec<Ends>,
    /// Of each Enter, which footprint is its own.
    names: Vec<u32>,
}

impl Drop for Footprints {
    fn drop(self) {
        let Footprints {
            carriers: _carriers,
            ends: _ends,
            names: _names,
        } = self;
    }
}

impl Model for Footprints {
    ghost use Rattle.std.specs.Prelude.{List, length, ◌-◌, ◌^◌, min, vec_len, vec_capacity};
    ghost use Rattle.footprints.specs.Kept.{Kept, AreKept, footprints_named, footprints_in};

    ghost Value = { Kept };

    ghost view = { λ f. record {
      footprints = footprints_named (footprints_in f.carriers.items f.ends.items) f.names.items;
      enter_room = min (vec_capacity f.names - vec_len f.names) (min (vec_capacity f.ends - vec_len f.ends) (2 ^ 32 - vec_len f.ends));
      carrier_room = vec_capacity f.carriers - vec_len f.carriers;
    } };

    ghost invariant = { λ f. AreKept (length f.carriers.items) f.ends.items f.names.items };
}

impl Footprints {
    /// Those of no event. Takes no memory.
    pub fn new(alloc: Global) -> Footprints
        ensures { result.footprints ≡ [] }
    {
        Footprints {
            carriers: Vec::new(alloc),
            ends: Vec::new(alloc),
            names: Vec::new(alloc),
        }
    }

    /// Makes room for so many Enters more, with so many carriers. It is refused too where there would be more than 2^32 footprints if each of
    /// these Enters had one of its own. Those that are kept stay, whether it succeeds or not.
    pub fn reserve(&mut self, enters: usize, carriers: usize) -> Result<(), AllocError>
        ensures enters { OnOk result (enters ≤ self.new.enter_room) }
        ensures carriers { OnOk result (carriers ≤ self.new.carrier_room) }
        ensures err { OnErr result ((self.old.enter_room < enters) ⊎ (self.old.carrier_room < carriers)) }
        ensures footprints { self.new.footprints ≡ self.old.footprints }
        ensures enter_room { self.old.enter_room ≤ self.new.enter_room }
        ensures carrier_room { self.old.carrier_room ≤ self.new.carrier_room }
    {
        self.names.reserve(enters)?;
        self.ends.reserve(enters)?;
        self.carriers.reserve(carriers)?;
        if NAMES - self.ends.len() < enters {
            return Err(AllocError);
        }
        Ok(())
    }

    /// Notes an Enter that reads these carriers beside its process, and writes these. Takes no memory: there has to be room.
    pub fn note(&mut self, reads: &[Carrier], writes: &[Carrier])
        requires enter { 1 ≤ self.old.enter_room }
        requires carriers { length reads.now + length writes.now ≤ self.old.carrier_room }
        ensures footprints { self.new.footprints ≡ self.old.footprints ++ footprint reads.now writes.now ∷ [] }
        ensures enter_room { self.old.enter_room ≤ self.new.enter_room + 1 }
        ensures carrier_room { self.old.carrier_room ≤ self.new.carrier_room + (length reads.now + length writes.now) }
    {
        let name = name(&mut self.carriers, &mut self.ends, reads, writes);
        self.names.push(name as u32).unwrap();
    }

    /// How many Enters were noted.
    pub fn len(&self) -> usize
        ensures { result ≡ length self.now.footprints }
    {
        self.names.len()
    }

    /// The carriers that an Enter reads beside its process. Enters are counted from 0.
    pub fn reads(&self, enter: usize) -> &[Carrier]
        requires { enter < length self.now.footprints }
        ensures { result.now ≡ (get_or self.now.footprints enter no_footprint).reads }
    {
        read_by(&self.carriers, &self.ends, self.names[enter] as usize)
    }

    /// The carriers that an Enter writes. Enters are counted from 0.
    pub fn writes(&self, enter: usize) -> &[Carrier]
        requires { enter < length self.now.footprints }
        ensures { result.now ≡ (get_or self.now.footprints enter no_footprint).writes }
    {
        written_by(&self.carriers, &self.ends, self.names[enter] as usize)
    }

    /// Whether an event, which comes after so many Enters, writes a carrier that is wanted.
    fn writes_wanted(&self, wanted: &Wanted, event: Event, enters: usize) -> bool
        requires { enters + enter_count event ≤ length self.now.footprints }
        ensures { result ≡ meets (footprint_by event (get_or self.now.footprints enters no_footprint)).writes wanted.now }
    {
        match event {
            Event::Turn { pid, .. } => wanted.has(Carrier::Proc(pid)),
            Event::Enter { .. } => wanted.has_any(self.writes(enters)),
            Event::Cut => false,
            Event::Complete { .. } => false,
            Event::Fail { .. } => false,
        }
    }

    /// What an event reads, which comes after so many Enters, is wanted too.
    fn want_reads(&self, wanted: &mut Wanted, event: Event, enters: usize) -> Result<(), AllocError>
        requires { enters + enter_count event ≤ length self.now.footprints }
        ensures { OnOk result ((x : Carried) → is_among x wanted.new
            ≡ (is_among x wanted.old || is_among x (footprint_by event (get_or self.now.footprints enters no_footprint)).reads)) }
    {
        match event {
            Event::Turn { pid, .. } => wanted.add(Carrier::Proc(pid)),
            Event::Enter { pid } => {
                wanted.add(Carrier::Proc(pid))?;
                wanted.add_all(self.reads(enters))
            }
            Event::Cut => Ok(()),
            Event::Complete { .. } => Ok(()),
            Event::Fail { .. } => Ok(()),
        }
    }

    /// The numbers, counted from 1, of the events in the cone of event n, in order. Goes back from event n over the events before it:
    /// one that writes what is wanted is in the cone, and what it reads is wanted from there on.
    pub fn cone(&self, alloc: Global, events: &[Event], n: usize) -> Result<Vec<u64>, AllocError>
        requires first { 1 ≤ n }
        requires there { n ≤ length events.now }
        requires kept { length self.now.footprints ≡ enters_among events.now }
        ensures { IfOk result (λ numbers. AreTheCone events.now self.now.footprints n numbers.items) }
    {
        let mut enters = count_enters(&events[..n - 1]);
        let mut wanted = Wanted::new(alloc);
        self.want_reads(&mut wanted, events[n - 1], enters)?;
        let mut numbers = Vec::new(alloc);
        numbers.push(n as u64)?;
        for place in (0..n - 1).rev() {
            let event = events[place];
            enters = enters_before(event, enters);
            if self.writes_wanted(&wanted, event, enters) {
                self.want_reads(&mut wanted, event, enters)?;
                numbers.push(place as u64 + 1)?;
            }
        }
        numbers.reverse();
        Ok(numbers)
    }

    /// The same footprints, in memory of their own. Refused for want of memory alone.
    pub fn try_clone(&self, alloc: Global) -> Result<Footprints, AllocError>
        ensures { IfOk result (λ copy. copy.footprints ≡ self.now.footprints) }
    {
        Ok(Footprints {
            carriers: self.carriers.to_vec(alloc)?,
            ends: self.ends.to_vec(alloc)?,
            names: self.names.to_vec(alloc)?,
        })
    }
}

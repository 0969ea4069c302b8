//! Calls that no other process can tell when they are made.
ghost use Rattle.std.specs.Prelude.{◌≡◌, ◌==◌, ◌∷◌, ◌++◌, [], ℕ, List, true, length};
ghost use Rattle.std.specs.List.{list_all, list_any};
ghost use Rattle.kernel_model.specs.Entries.{Entry, is_among};
ghost use Rattle.kernel_model.specs.declared.carrier.Carrier.TheVariants.{Proc};
ghost use Rattle.kernel_model.specs.declared.event.Event.{Event as Happened};
ghost use Rattle.kernel_model.specs.declared.event.Event.TheVariants.{Enter};
ghost use Rattle.order_laws.specs.Moves.{label_in};
ghost use Rattle.order_laws.specs.Privacy.{stands_for_claimed};
ghost use Rattle.processes.specs.Parts.{part_at};
ghost use Rattle.footprints.specs.Footprints.{AreFootprints};
ghost use Rattle.replayed_runs.specs.Owning.{GoesTo, IsTaken, claim_of, is_terminal, may_be_own, meets_by, meets_claim, written_by as written_at};
ghost use Rattle.replayed_runs.specs.Replays.{seen_of};

use footprints::Footprints;
use formats::Reg;
use kernel::{Core, KernelTables};
use kernel_model::{Carrier, Descriptor, PipeEnd};

/// The number of the call that writes.
const WRITE: u32 = 2;

/// The terminal whose text is a promise to the user's recovery.
const PROMISES: u32 = 0;

/// The terminal to which a call of this number may write, where its first argument is a descriptor that stands for this.
fn written_by(number: u32, held: Option<Descriptor>) -> Option<u32>
    ensures { result ≡ written_at number held }
{
    match held {
        Some(Descriptor::Terminal(terminal)) if number == WRITE => Some(terminal),
        _ => None,
    }
}

/// The terminal to which the call at which a process stands may write.
pub fn terminal_of(core: &Core, pid: u32) -> Option<u32>
    ensures { GoesTo result (label_in (seen_of core.now) (Enter pid)).output }
{
    match core.machine(pid) {
        Ok(machine) => written_by(
            machine.reg(Reg::new(17)),
            core.tables()
                .processes
                .descriptor(pid, machine.reg(Reg::new(10))),
        ),
        Err(_) => None,
    }
}

/// Whether a write to this terminal, if it is one, adds to what was promised.
pub fn is_promised(terminal: Option<u32>) -> bool
    ensures { result ≡ is_terminal terminal 0 }
{
    match terminal {
        Some(own) => own == PROMISES,
        None => false,
    }
}

/// What the last Enter read beside its process.
pub fn last_reads(footprints: &Footprints) -> &[Carrier]
    ensures { (es : List Happened) (p : ℕ) (log : List Entry) (e : Entry) → length log ≡ length es
        → AreFootprints (es ++ Enter p ∷ []) (log ++ e ∷ []) footprints.now.footprints → e.reads ≡ Proc p ∷ result.now }
{
    match footprints.len().checked_sub(1) {
        Some(last) => footprints.reads(last),
        None => &[],
    }
}

/// A call that was made: by which process, what it read beside its process, and the terminal to which it may have written.
#[derive(Clone, Copy)]
pub struct MadeCall<'a> {
    pub owner: u32,
    pub reads: &'a [Carrier],
    pub terminal: Option<u32>,
}

/// Whether a process can have a carrier to itself, where there are so many pipes. Files, their names and the numbers that are given out it
/// never has.
fn may_have(owner: u32, pipes: usize, carrier: Carrier) -> bool
    ensures { result ≡ may_be_own owner pipes carrier }
{
    match carrier {
        Carrier::Proc(pid) => pid == owner,
        Carrier::Pipe(pipe) => (pipe as usize) < pipes,
        Carrier::Tape(_) => true,
        Carrier::File(_) | Carrier::Names | Carrier::Pipes | Carrier::Tasks => false,
    }
}

impl MadeCall<'_> {
    fn has_read(self, carrier: Carrier) -> bool
        ensures { result ≡ is_among carrier self.entry.reads.now }
    {
        self.reads.iter().any(|other| carrier == *other)
    }

    fn has_written(self, terminal: u32) -> bool
        ensures { result ≡ is_terminal self.entry.terminal terminal }
    {
        match self.terminal {
            Some(own) => own == terminal,
            None => false,
        }
    }

    /// Whether a descriptor stands for something that it read or wrote, and that can be claimed.
    fn is_met_by(self, slot: Option<Descriptor>) -> bool
        ensures { result ≡ stands_for_claimed (claim_of self.entry.owner self.entry.reads.now self.entry.terminal) slot }
    {
        match slot {
            None | Some(Descriptor::File { .. }) => false,
            Some(Descriptor::Tape(tape)) => self.has_read(Carrier::Tape(tape)),
            Some(Descriptor::Terminal(terminal)) => self.has_written(terminal),
            Some(Descriptor::Pipe(PipeEnd::Read(pipe) | PipeEnd::Write(pipe))) => {
                self.has_read(Carrier::Pipe(pipe))
            }
        }
    }

    /// Whether one of these descriptors stands for such a thing.
    fn is_met_by_one(self, descriptors: &[Option<Descriptor>]) -> bool
        ensures { result ≡ list_any (λ d. stands_for_claimed (claim_of self.entry.owner self.entry.reads.now self.entry.terminal) d) descriptors.now }
    {
        descriptors.iter().any(|slot| self.is_met_by(*slot))
    }

    /// Whether its process is one of these children.
    fn is_childs(self, children: &[u32]) -> bool
        ensures { result ≡ list_any (λ q. q == self.entry.owner) children.now }
    {
        children.iter().any(|child| *child == self.owner)
    }

    /// Whether a process that has ended so, with these descriptors and children, can tell when the call is made.
    fn is_told_by(
        self,
        pid: u32,
        status: Option<u32>,
        descriptors: &[Option<Descriptor>],
        children: &[u32],
    ) -> bool
        ensures { result ≡ meets_by (claim_of self.entry.owner self.entry.reads.now self.entry.terminal) pid status descriptors.now children.now }
    {
        if pid == self.owner || status.is_some() {
            return false;
        }
        self.is_met_by_one(descriptors) || self.is_childs(children)
    }

    /// Whether a process, which is another one and has not ended, can tell when the call is made.
    fn is_told_to(self, tables: KernelTables<'_>, pid: u32) -> bool
        ensures { result ≡ meets_claim (claim_of self.entry.owner self.entry.reads.now self.entry.terminal) pid (part_at tables.entry.processes.now.parts pid) }
    {
        match tables.processes.descriptors(pid) {
            Some(descriptors) => self.is_told_by(
                pid,
                tables.processes.status(pid),
                descriptors.as_slice(),
                tables.processes.children(pid),
            ),
            None => false,
        }
    }

    /// Whether its process can have all that it read to itself, where there are so many pipes.
    fn may_have_all(self, pipes: usize) -> bool
        ensures { result ≡ list_all (λ x. may_be_own self.entry.owner pipes x) self.entry.reads.now }
    {
        self.reads
            .iter()
            .all(|carrier| may_have(self.owner, pipes, *carrier))
    }
}

/// Whether a call that was just made was private: what it read and wrote no other process that has not ended can come to, and no such one
/// waits for its process. Then it may be tried alone. These are the tables after it: it changes nothing of other processes' descriptors and
/// children.
pub fn is_private(tables: KernelTables<'_>, call: MadeCall<'_>) -> bool
    ensures { result ≡ true → IsTaken call.entry.owner call.entry.reads.now call.entry.terminal tables.entry.processes.now.parts (length tables.entry.pipes.now) }
{
    for place in 0..tables.processes.len() as u32 {
        if call.is_told_to(tables, place + 1) {
            return false;
        }
    }
    call.may_have_all(tables.pipes.len())
}

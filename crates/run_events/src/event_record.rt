//! `EventRecord`: what an event did.
ghost use Rattle.std.specs.Prelude.{◌≡◌, ℕ, ◌∷◌, ◌++◌, ◌-◌, ◌≤◌, [], drop, length, map, get_or, option_copied, option_map, List, Some, None};
ghost use Rattle.machine_model.specs.declared.reply.Reply.{Reply as CallReply};
ghost use Rattle.footprints.specs.Footprints.{footprint_by, footprint_of};
ghost use Rattle.footprints.specs.Kept.{footprint, no_footprint};
ghost use Rattle.kernel_model.specs.Answers.{Kernel, now, terminals, with_event, refusal, answer as answer_to};
ghost use Rattle.kernel_model.specs.Entries.{Entry, Got, End};
ghost use Rattle.kernel_model.specs.Paths.{changes_in_log};
ghost use Rattle.kernel_model.specs.Shown.{printed};
ghost use Rattle.kernel_model.specs.Steps.{step};
ghost use Rattle.kernel_model.specs.declared.event.Event.TheVariants.{Enter};
ghost use Rattle.run_events.specs.Records.{process_in, seen_output, record_of};
ghost use Rattle.run_events.specs.Accepted.{IsAccepted, IsMachineOf};
ghost use Rattle.run_events.specs.Telling.{output_of, item_in, told_by};

use crate::before::Before;
use crate::call_site::CallSite;
use disk_model::Change;
use kernel::{Answer, Core, Event, Footprints, Machine};
use kernel_model::{Carrier, Request, TERMINALS};
use machine_model::Reply;

/// Bytes that were written to a terminal, 0 to 7.
#[derive(Clone, Copy)]
pub struct Output<'a> {
    pub terminal: u32,
    pub bytes: &'a [u8],
}

/// How the kernel answered a process that entered it, whether or not the process has been handed the answer yet.
#[derive(Clone, Copy)]
pub enum Told<'a> {
    Reply(&'a Reply),
    /// The process has ended with this status: of `exit`, or 256 plus the cause of a trap.
    Ended(u32),
}

/// What an event did that a core accepted: the core's answer, and the event's entry of the log. Borrowed from the core and from
/// `Before`; nothing is copied.
#[derive(Clone, Copy)]
pub struct EventRecord<'a> {
    pub event: Event,
    pub answer: Answer,
    /// Where the process of an Enter entered the kernel. None of other events.
    pub call_site: Option<CallSite>,
    /// What the process of an Enter asked for. None of a trap and of other events.
    pub request: Option<&'a Request>,
    /// The carriers that an Enter read, but for its process. Empty for other events.
    pub reads: &'a [Carrier],
    /// The carriers that an Enter wrote. Empty for other events.
    pub writes: &'a [Carrier],
    pub change: Option<&'a Change>,
    pub output: Option<Output<'a>>,
    pub told: Option<Told<'a>>,
    /// The process that a fork made.
    pub child: Option<u32>,
    /// The machine of the event's process as it was before the event, for an observer that wants it (`Interest::Machine`).
    pub machine: Option<&'a Machine>,
}

fn change_since(core: &Core, changes: u64) -> Option<&Change>
    ensures { (log : List Entry) (x : Entry) → (now core.now).log ≡ log ++ x ∷ [] → changes ≡ length (changes_in_log log)
        → option_copied result ≡ x.change }
{
    let all = core.change_list();
    if changes < all.len() as u64 {
        all.last()
    } else {
        None
    }
}

fn bytes_after(bytes: &[u8], from: usize) -> &[u8]
    requires { from ≤ length bytes.now }
    ensures { result.now ≡ drop from bytes.now }
{
    &bytes[from..]
}

/// The bytes beyond these lengths, which an event writes to one terminal at most.
fn output_since<'a>(core: &'a Core, lengths: &[usize; TERMINALS]) -> Option<Output<'a>>
    ensures { (log : List Entry) (x : Entry) → (now core.now).log ≡ log ++ x ∷ []
        → lengths.now ≡ map (λ t. length (printed t log)) terminals → option_map output_of result ≡ seen_output x.output }
{
    for terminal in 0..8u32 {
        let written = core.written(terminal);
        let before = lengths[terminal as usize];
        if before < written.len() {
            return Some(Output {
                terminal,
                bytes: bytes_after(written, before),
            });
        }
    }
    None
}

/// The last process, if there are more than so many.
fn child_since(core: &Core, processes: usize) -> Option<u32>
    ensures { (k : Kernel) (e : Event) → core.now ≡ with_event k e → processes ≡ length (now k).sync.processes
        → result ≡ (step (now k).sync e).entry.child }
{
    let count = core.tables().processes.len();
    if processes < count {
        Some(count as u32)
    } else {
        None
    }
}

/// The carriers that an Enter read, but for its process, and those that it wrote.
#[derive(Clone, Copy)]
struct Touched<'a> {
    reads: &'a [Carrier],
    writes: &'a [Carrier],
}

fn touched_last(footprints: &Footprints) -> Touched<'_>
    ensures reads { result.reads.now ≡ (get_or footprints.now.footprints (length footprints.now.footprints - 1) no_footprint).reads }
    ensures writes { result.writes.now ≡ (get_or footprints.now.footprints (length footprints.now.footprints - 1) no_footprint).writes }
{
    let count = footprints.len();
    if count == 0 {
        return Touched {
            reads: &[],
            writes: &[],
        };
    }
    Touched {
        reads: footprints.reads(count - 1),
        writes: footprints.writes(count - 1),
    }
}

fn touched_by(core: &Core, event: Event) -> Touched<'_>
    ensures { (k : Kernel) → core.now ≡ with_event k event
        → footprint_by event (footprint result.reads.now result.writes.now) ≡ footprint_of (step (now k).sync event).entry }
{
    let footprints = core.footprints();
    match event {
        Event::Enter { .. } => touched_last(footprints),
        _ => Touched {
            reads: &[],
            writes: &[],
        },
    }
}

fn last_reply(core: &Core, pid: u32) -> Option<Told<'_>>
    ensures { (k : Kernel) (r : CallReply) → core.now ≡ with_event k (Enter pid) → refusal k (Enter pid) ≡ None
        → (step (now k).sync (Enter pid)).entry.item ≡ Some (Got r) → option_map item_in result ≡ (step (now k).sync (Enter pid)).entry.item }
{
    match core.replies(pid) {
        Ok(replies) => match replies.last() {
            Some(reply) => Some(Told::Reply(reply)),
            None => None,
        },
        Err(_) => None,
    }
}

fn end_of(core: &Core, pid: u32) -> Option<Told<'_>>
    ensures { (k : Kernel) (status : ℕ) → core.now ≡ with_event k (Enter pid) → (step (now k).sync (Enter pid)).entry.item ≡ Some (End status)
        → option_map item_in result ≡ (step (now k).sync (Enter pid)).entry.item }
{
    match core.tables().processes.status(pid) {
        Some(status) => Some(Told::Ended(status)),
        None => None,
    }
}

fn told_by_enter(core: &Core, pid: u32, answer: Answer) -> Option<Told<'_>>
    ensures { (k : Kernel) → core.now ≡ with_event k (Enter pid) → refusal k (Enter pid) ≡ None → answer ≡ answer_to k (Enter pid)
        → option_map item_in result ≡ (step (now k).sync (Enter pid)).entry.item }
{
    match answer {
        Answer::Entered => last_reply(core, pid),
        Answer::Ended => end_of(core, pid),
        _ => None,
    }
}

fn told_by_event(core: &Core, event: Event, answer: Answer) -> Option<Told<'_>>
    ensures { (k : Kernel) → core.now ≡ with_event k event → refusal k event ≡ None → answer ≡ answer_to k event
        → option_map item_in result ≡ (step (now k).sync event).entry.item }
{
    match event {
        Event::Enter { pid } => told_by_enter(core, pid, answer),
        _ => None,
    }
}

impl<'a> EventRecord<'a> {
    /// The process of a Turn or an Enter; 0 of an event of the disk.
    pub fn process(&self) -> u32
        ensures { result ≡ process_in self.now.event }
    {
        match self.event {
            Event::Turn { pid, .. } => pid,
            Event::Enter { pid } => pid,
            _ => 0,
        }
    }

    /// The record of the event that a core accepted last, with this answer.
    pub fn of(core: &'a Core, before: &'a Before, event: Event, answer: Answer) -> EventRecord<'a>
        ensures told { (k : Kernel) → IsAccepted before.now event answer k core.now → told_by result ≡ record_of k event }
        ensures machine { (k : Kernel) → IsAccepted before.now event answer k core.now → IsMachineOf k event (option_copied result.machine) }
    {
        let touched = touched_by(core, event);
        EventRecord {
            event,
            answer,
            call_site: before.call_site,
            request: before.request.as_ref(),
            reads: touched.reads,
            writes: touched.writes,
            change: change_since(core, before.changes),
            output: output_since(core, &before.written),
            told: told_by_event(core, event, answer),
            child: child_since(core, before.processes),
            machine: before.machine.as_ref(),
        }
    }
}

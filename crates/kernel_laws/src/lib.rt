//! Laws over whole runs of the kernel's definitions, whatever the code. Read `headline` first: it is the whole of what the kernel
//! promises. `cones` says what an event's causal past is: the events on which it rests by what they wrote and later ones read. The
//! other laws say what becomes of crashes, of interleavings and of drains.
#![tactic(auto)]

ghost use Rattle.std.specs.Prelude.{List, [], ◌∷◌, ◌++◌, ℕ, ◌≡◌, ◌≤◌, ◌<◌, ◌+◌, ◌==◌, ◌&&◌, if◌then◌else◌, true, false, None, Some, is_some};
ghost use Rattle.disk_model.specs.declared.change.Change.{Change};
ghost use Rattle.disk_model.specs.declared.change.NamedFile.{NamedFile};
ghost use Rattle.disk_model.specs.Files.{files_after};
ghost use Rattle.disk_model.specs.Held.{IsHeld, joined};
ghost use Rattle.disk_model.specs.Storage.{Storage, completed, is_empty, is_quiet, piece_at};
ghost use Rattle.kernel_model.specs.Answers.{AllAccepted, Kernel, at_boot, changes, committed, is_lent, now, process_of, refusal, with_event, with_events, writes_to_come};
ghost use Rattle.kernel_model.specs.Limits.{AreNumbered};
ghost use Rattle.kernel_model.specs.State.{Process, SyncState};
ghost use Rattle.kernel_model.specs.Drains.{Drains};
ghost use Rattle.kernel_model.specs.Shown.{handed, printed, shown, told};
ghost use Rattle.kernel_model.specs.declared.event.Event.{Event};
ghost use Rattle.kernel_model.specs.declared.event.Event.TheVariants.{Complete};
ghost use Rattle.kernel_model.specs.World.{World, Boot, HoldsItsFiles, first_world, happens, after, run_of};
ghost use Rattle.kernel_model.specs.Bytes.{ProgramsHoldBytes, TapesHoldBytes};
ghost use Rattle.kernel_model.specs.Fine.{Fine, IsFine, after_fine, gathered, unfolded};
ghost use Rattle.kernel_model.specs.Views.{SameView, contents};
ghost use Rattle.kernel_laws.specs.Promises.{IsSynchronous};
ghost use Rattle.kernel_laws.specs.Crashes.{SurvivesCrash};
ghost use Rattle.kernel_laws.specs.Kept.{KeepsWhatWasSeen};
ghost use Rattle.kernel_laws.specs.Resuming.{IsSound, MayLeave, GoesOn, Crashed, AreRuns, ArePrefixes, last_boot};
ghost use Rattle.kernel_laws.specs.Gathering.{HasNoTurn, IsGathered};
ghost use Rattle.kernel_laws.specs.Cones.{IsOfProcess, cone_before, visible};
ghost use Rattle.kernel_laws.specs.ConePromises.{IsFramed, ConeSuffices, VisibleSuffice};

use disk_model::{
    changes_come_in_turn, checkpoints_fit, crashes, held_files_are_made, held_once,
    made_files_change, made_files_hold_bytes, runs_are_orderly,
};

/// A law, the whole of what the kernel promises, whatever events come in whatever order. Each process, also one that a fork made,
/// runs as on a kernel that stores each change within its call. What is shown and handed out is the longest prefix that causally
/// depends on committed changes alone. A crash at any moment leaves a disk that holds the files after a prefix of the changes, with
/// every committed one in it.
///
/// The first two parts hold of every boot, whatever its disk. The third asks that the disk holds the files that the boot names, and
/// that the programs' memories and the tapes hold bytes. `kernel::Core::boot` ensures all three. What a program reads comes from
/// tapes, files and pipes, and what it writes comes from its memory. So all that is ever written to the disk are bytes.
pub fn headline()
    ensures synchronous { (b : Boot) (es : List Event) → IsSynchronous b (after (first_world b) es) es }
    ensures crash { (b : Boot) (es : List Event) → HoldsItsFiles b → ProgramsHoldBytes b → TapesHoldBytes b
        → SurvivesCrash b (after (first_world b) es) }
{
    crashes_keep_the_committed();
}

/// A law: a crash at any moment of any run leaves a disk that holds the files after a prefix of the run's changes, with every
/// committed one in it. So a run can go on from that disk, and end in a crash again. The boot's disk must hold the boot's files,
/// and memories and tapes must hold bytes at the start. Then all that is ever written is what a disk can hold.
pub fn crashes_keep_the_committed()
    ensures { (b : Boot) (es : List Event) → HoldsItsFiles b → ProgramsHoldBytes b → TapesHoldBytes b
        → SurvivesCrash b (after (first_world b) es) }
{
    held_files_are_made();
    checkpoints_fit();
    made_files_hold_bytes();
    made_files_change();
    changes_come_in_turn();
    crashes();
}

/// A law: nothing that was shown is ever lost. Whatever disk a crash leaves holds the files after a prefix of the run's changes. In
/// that prefix stands each change on which a byte rests that a terminal showed, or an item that a process was handed.
pub fn shown_is_kept()
    ensures { (b : Boot) (es : List Event) → HoldsItsFiles b → ProgramsHoldBytes b → TapesHoldBytes b
        → KeepsWhatWasSeen b (after (first_world b) es) }
{
    crashes_keep_the_committed();
    headline();
}

/// A law: a run that ends in a crash can go on. Every disk that the crash may leave holds files, so `kernel::Core::boot` refuses it
/// for want of memory alone. A core that is booted on it begins with the files after a prefix of the run's changes, with each
/// committed one in it. The same holds through any number of crashes: the last files are the first boot's after one such prefix of
/// each run.
pub fn runs_go_on()
    ensures held { (b : Boot) (es : List Event) (left : List ℕ) → IsSound b → MayLeave (run_of b es) left
        → (files : List NamedFile) × IsHeld left files }
    ensures next { (b : Boot) (es : List Event) (next : Boot) → IsSound b → HoldsItsFiles next → MayLeave (run_of b es) next.disk
        → GoesOn b (run_of b es) next }
    ensures chain { (runs : List Crashed) (b : Boot) → AreRuns b runs
        → (prefixes : List (List Change)) × ArePrefixes b runs prefixes × ((last_boot b runs).files ≡ files_after b.files (joined prefixes)) }
{
    crashes_keep_the_committed();
    held_once();
    changes_come_in_turn();
}

/// A law: any interleaving of single instructions comes to what whole Turns (time slices) give. Each instruction must be possible
/// where it stands: its process is there, has not ended, and stands at no call and no trap. `gathered_is` says which whole Turns
/// these are.
pub fn interleavings()
    ensures { (b : Boot) (items : List Fine) → IsFine (first_world b) items
        → SameView (after_fine (first_world b) items) (after (first_world b) (gathered items)) }
{}

/// A law: what the items of a fine run become, so that `interleavings` says what it seems to say. Whatever is no instruction stays,
/// in order. The instructions of a process since its last Enter are one Turn of as many. Each Turn comes as late as it can:
/// directly before its process's next Enter, or at the end where none follows. This holds of all items with no Turn among them, and
/// so of each fine run.
pub fn gathered_is()
    ensures becomes { (items : List Fine) → HasNoTurn items → IsGathered items (gathered items) }
    ensures fine { (w : World) (items : List Fine) → IsFine w items → HasNoTurn items }
{}

/// A law: each Turn is its single instructions one after the other, so that a history is a fine run written shorter.
pub fn turns_are_instructions()
    ensures possible { (b : Boot) (es : List Event) → IsFine (first_world b) (unfolded (first_world b) es) }
    ensures same { (b : Boot) (es : List Event)
        → SameView (after_fine (first_world b) (unfolded (first_world b) es)) (after (first_world b) es) }
{}

/// A law: where all changes are committed, all that was written to terminals is shown, and all that processes were told is handed
/// out.
pub fn all_is_shown()
    ensures terminals { (b : Boot) (es : List Event) → committed (after (first_world b) es) ≡ changes (after (first_world b) es)
        → (t : ℕ) → shown (after (first_world b) es) t ≡ contents (printed t (after (first_world b) es).log) }
    ensures traces { (b : Boot) (es : List Event) → committed (after (first_world b) es) ≡ changes (after (first_world b) es)
        → (p : ℕ) → handed (after (first_world b) es) p ≡ contents (told p (after (first_world b) es).log) }
{}

/// A law: how the disk of any run stands, whatever is on it. At most all changes are committed. With nothing in flight and nothing
/// failed, no stage is left to be submitted. Else a group is on its way, with which more changes are committed, at most all. So
/// where a write has failed, some change is not committed.
pub fn groups_in_flight()
    ensures among { (b : Boot) (es : List Event) → committed (after (first_world b) es) ≤ changes (after (first_world b) es) }
    ensures none { (b : Boot) (es : List Event) → is_quiet (after (first_world b) es).storage.device ≡ true
        → (after (first_world b) es).storage.stages ≡ [] }
    ensures more { (b : Boot) (es : List Event) → is_quiet (after (first_world b) es).storage.device ≡ false
        → committed (after (first_world b) es) < (after (first_world b) es).storage.next_committed }
    ensures most { (b : Boot) (es : List Event) → is_quiet (after (first_world b) es).storage.device ≡ false
        → (after (first_world b) es).storage.next_committed ≤ changes (after (first_world b) es) }
    ensures failed { (b : Boot) (es : List Event) → is_empty (after (first_world b) es).storage.device.failed ≡ false
        → committed (after (first_world b) es) < changes (after (first_world b) es) }
{
    runs_are_orderly();
}

/// A law: with each completion one write fewer is to come, and the last one of a group commits it, if none has failed.
pub fn completions_count_down()
    ensures one_fewer { (st : Storage) (at : ℕ) → is_some (piece_at st.device.in_flight at) ≡ true
        → writes_to_come st ≡ writes_to_come (completed st at) + 1 }
    ensures commits { (b : Boot) (es : List Event) (at : ℕ)
        → is_some (piece_at (after (first_world b) es).storage.device.in_flight at) ≡ true
        → committed (happens (after (first_world b) es) (Complete at))
        ≡ (if is_empty (after (first_world b) es).storage.device.failed && writes_to_come (after (first_world b) es).storage == 1
        then (after (first_world b) es).storage.next_committed else committed (after (first_world b) es)) }
{
    runs_are_orderly();
}

/// A law: no events lower how many changes of a core there are, or how many are committed. So the later of two readings of the
/// counts is at least the earlier, in both.
pub fn counts_never_fall()
    ensures committed { (k : Kernel) (es : List Event) → committed (now k) ≤ committed (now (with_events k es)) }
    ensures changes { (k : Kernel) (es : List Event) → changes (now k) ≤ changes (now (with_events k es)) }
{
    runs_are_orderly();
}

/// A law: an event that is accepted leaves each process that is lent as it was.
pub fn lent_processes_stay()
    ensures { (k : Kernel) (e : Event) (p : ℕ) (x : Process) → refusal k e ≡ None → is_lent k p ≡ true → process_of k p ≡ Some x
        → process_of (with_event k e) p ≡ Some x }
{}

/// A law: a drain is its events, applied one after the other.
pub fn drains_are_events()
    ensures { (k : Kernel) (events : List Event) (new : Kernel) → Drains k events new → new ≡ with_events k events }
{}

/// A law, the whole of what cones promise: what is shown tells nothing uncommitted. It holds for every boot and every list of events.
///
/// It rests on the frame of each event: in two states that agree on what the event reads it does the same, and what it does not write
/// stays. So an event does in the run of its cone alone, from the same boot, what it does in the whole run. A core that is booted alike
/// accepts the cone's events, each where it stands, if the whole run's were accepted. The frame is said of files that have their numbers,
/// as they have in each state of a run (`kernel_model::tables_keep_their_limits`).
///
/// The visible events are the processes' events that rest on committed changes alone. Such a core accepts them too, each where it stands.
/// Their run gives the committed files, all that terminals show, and all that is handed to each process that is there. A process whose
/// fork rests on an uncommitted change is not there.
pub fn cones()
    ensures frame { (s t : SyncState) (e : Event) → AreNumbered s.files → AreNumbered t.files → IsFramed s t e }
    ensures cone { (b : Boot) (es : List Event) (e : Event) → ConeSuffices b es e }
    ensures accepted { (b : Boot) (es : List Event) (e : Event) → IsOfProcess e → AllAccepted (at_boot b) (es ++ e ∷ [])
        → AllAccepted (at_boot b) (cone_before b es e ++ e ∷ []) }
    ensures shown { (b : Boot) (es : List Event) → VisibleSuffice b es }
    ensures visible_accepted { (b : Boot) (es : List Event) → AllAccepted (at_boot b) es → AllAccepted (at_boot b) (visible b es) }
{}

//! Laws over all runs.
ghost use Rattle.std.specs.Prelude.{List, Some, false, length, ◌++◌, ◌≡◌, ◌≤◌, ◌<◌, ◌↔◌, ℕ, IsTrue, is_none, is_some, slice_get};
ghost use Rattle.std.specs.List.{list_all};
ghost use Rattle.disk_model.specs.Files.{files_after};
ghost use Rattle.disk_model.specs.Numbers.{lives, numbered, numbered_after};
ghost use Rattle.kernel_model.specs.declared.event.Event.{Event};
ghost use Rattle.kernel_model.specs.Entries.{Entry};
ghost use Rattle.kernel_model.specs.Paths.{IsDurable, is_durable, changes_in_log};
ghost use Rattle.kernel_model.specs.State.{Process, PipeState, SyncState, process_at, shared};
ghost use Rattle.kernel_model.specs.Ends.{count_held};
ghost use Rattle.kernel_model.specs.Rows.{CallEffect, first_ended, most_processes};
ghost use Rattle.kernel_model.specs.Steps.{change_by, effect_at};
ghost use Rattle.machine_model.specs.States.{stopped_at};
ghost use Rattle.kernel_model.specs.Limits.{AreFewAndShort, FindsLeast, KeepLimits, TapesAreThere};
ghost use Rattle.kernel_model.specs.World.{Boot, HoldsItsFiles, first_world, after, tape_count};
ghost use Rattle.kernel_model.specs.declared.descriptor.PipeEnd.TheVariants.{Read, Write};

/// A law: the test says exactly whether all changes on which an event rests are among the first c.
pub fn durable_is()
    ensures { (c : ℕ) (past : List Entry) (e : Entry) → IsTrue (is_durable c past e) ↔ IsDurable c past e }
{}

/// A law: the files of the synchronous state are those of the boot after all changes of the log. So are their numbers, where those
/// of the boot are numbered by their places.
pub fn files_are_folded()
    ensures numbered { (b : Boot) (es : List Event)
        → (after (first_world b) es).sync.files ≡ numbered_after (numbered b.files) (changes_in_log (after (first_world b) es).log) }
    ensures living { (b : Boot) (es : List Event)
        → (after (first_world b) es).sync.files.living ≡ files_after b.files (changes_in_log (after (first_world b) es).log) }
{}

/// A law: a file that is gone never comes back, so no number is used again. Where no file lives of a number that was given to one,
/// none lives after any events that come.
pub fn files_stay_gone()
    ensures { (b : Boot) (es more : List Event) (number : ℕ) → number < (after (first_world b) es).sync.files.made
        → lives (after (first_world b) es).sync.files number ≡ false
        → lives (after (first_world b) (es ++ more)).sync.files number ≡ false }
{}

/// A law: each edit of a file is made. Where the row of the call at which a process stands edits a file, its event makes a change.
pub fn edits_are_made()
    ensures { (s : SyncState) (pid : ℕ) (p : Process) (e : CallEffect) → effect_at (shared s) pid p (stopped_at p.state) ≡ Some e
        → is_some (change_by s.files e.edit) ≡ is_some e.edit }
{}

/// A law: a pipe counts its ends. It has as many readers as there are descriptors, over all processes that have not ended, that
/// stand for its end to read. The same holds of writing. No descriptor stands for an end of a pipe that is not there.
pub fn ends_are_counted()
    ensures readers { (b : Boot) (es : List Event) (k : ℕ) (p : PipeState)
        → slice_get (after (first_world b) es).sync.pipes k ≡ Some p
        → p.readers ≡ count_held (Read k) (after (first_world b) es).sync.processes }
    ensures writers { (b : Boot) (es : List Event) (k : ℕ) (p : PipeState)
        → slice_get (after (first_world b) es).sync.pipes k ≡ Some p
        → p.writers ≡ count_held (Write k) (after (first_world b) es).sync.processes }
    ensures others { (b : Boot) (es : List Event) (k : ℕ)
        → slice_get (after (first_world b) es).sync.pipes k ≡ None
        → (count_held (Read k) (after (first_world b) es).sync.processes ≡ 0)
        × (count_held (Write k) (after (first_world b) es).sync.processes ≡ 0) }
{}

/// A law: an end of a pipe that is closed stays so. Once a pipe has no ends to read, no descriptor ever stands for its end to read.
/// The same holds of writing. So a pipe without ends is never named again.
pub fn ends_stay_closed()
    ensures readers { (b : Boot) (es more : List Event) (k : ℕ) (p : PipeState)
        → slice_get (after (first_world b) es).sync.pipes k ≡ Some p → p.readers ≡ 0
        → count_held (Read k) (after (first_world b) (es ++ more)).sync.processes ≡ 0 }
    ensures writers { (b : Boot) (es more : List Event) (k : ℕ) (p : PipeState)
        → slice_get (after (first_world b) es).sync.pipes k ≡ Some p → p.writers ≡ 0
        → count_held (Write k) (after (first_world b) (es ++ more)).sync.processes ≡ 0 }
{}

/// A law: each descriptor of a process that has ended is free.
pub fn ended_hold_nothing()
    ensures { (b : Boot) (es : List Event) (pid : ℕ) (p : Process)
        → process_at (after (first_world b) es).sync.processes pid ≡ Some p → IsTrue (is_some p.status)
        → IsTrue (list_all is_none p.descriptors) }
{}

/// A law: the tables keep their limits, and what they name is there or, of files, was made. The first clause holds of every boot:
/// - each process has 16 descriptors, none of which stands for a file that was never made, and its children stand by rising number;
/// - the numbers of the files that live rise, and each is below that of the next file;
/// - there are at most 1,024 pipes, each of at most 4,096 bytes; `ends_are_counted` says that each end that is named is there.
///
/// The others ask more of the boot. With at most 1,024 programs there are at most 1,024 processes. With at most 8, no descriptor
/// stands for a tape that is not there. Where its disk holds its files, there are at most 32, each of at most 16,384 bytes.
pub fn tables_keep_their_limits()
    ensures tables { (b : Boot) (es : List Event) → KeepLimits (after (first_world b) es).sync }
    ensures processes { (b : Boot) (es : List Event) → length b.programs ≤ most_processes
        → length (after (first_world b) es).sync.processes ≤ most_processes }
    ensures tapes { (b : Boot) (es : List Event) → length b.programs ≤ tape_count → TapesAreThere (after (first_world b) es).sync }
    ensures files { (b : Boot) (es : List Event) → HoldsItsFiles b → AreFewAndShort (after (first_world b) es).sync.files.living }
{}

/// A law: of a process's children, the first that has ended is the least by number that has. A wait collects that one. Where it
/// finds none, none has ended.
pub fn first_ended_is_least()
    ensures { (b : Boot) (es : List Event) (pid : ℕ) (p : Process)
        → process_at (after (first_world b) es).sync.processes pid ≡ Some p
        → let statuses = (shared (after (first_world b) es).sync).statuses in
        FindsLeast statuses p.children (first_ended statuses p.children) }
{}

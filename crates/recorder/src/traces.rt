//! Laws of traces: they grow only at their ends, and where every change is committed they have the ends of processes.
ghost use Rattle.kernel_model.specs.Answers.{Kernel, has_ended, now, process_of};
ghost use Rattle.kernel_model.specs.Drains.{IsAllCommitted};
ghost use Rattle.kernel_model.specs.Shown.{end_in, handed};
ghost use Rattle.recorder.specs.Recording.{Grows, HasNone, Lengthens, Recording};
ghost use Rattle.std.specs.Prelude.{ℕ, ◌≡◌, true, is_some};

use kernel::counts_never_fall;
use kernel_laws::all_is_shown;

/// A law: the trace of a process that is there only grows at its end, whatever events come. So each reply that was handed over stays
/// where it stands among the replies.
pub fn traces_only_grow()
    ensures { (old new : Kernel) (process : ℕ) → Grows old new → Lengthens old new process }
{
    counts_never_fall();
}

/// A law: what a recorder has to hand over stays there through more events. So one that has nothing now had nothing before.
pub(crate) fn nothing_is_lost()
    ensures { (old new : Recording) → Grows old.kernel new.kernel → new.process ≡ old.process → new.taken ≡ old.taken
        → HasNone new → HasNone old }
{
    counts_never_fall();
}

/// A law: where every change is committed, a process has ended exactly where its end is handed out.
pub(crate) fn ends_are_handed_out()
    ensures { (k : Kernel) (process : ℕ) → IsAllCommitted (now k) → is_some (process_of k process) ≡ true
        → has_ended (process_of k process) ≡ is_some (end_in (handed (now k) process)) }
{
    all_is_shown();
}

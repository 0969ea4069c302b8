//! The records of a run say all that the run did.
ghost use Rattle.std.specs.Prelude.{ℕ, ◌≡◌, ◌++◌, ◌<◌, ◌≤◌, List, length, map};
ghost use Rattle.kernel_model.specs.Answers.{Kernel, now, with_events};
ghost use Rattle.kernel_model.specs.Paths.{changes_in_log};
ghost use Rattle.kernel_model.specs.Shown.{printed, told};
ghost use Rattle.kernel_model.specs.Views.{contents};
ghost use Rattle.kernel_model.specs.World.{sync_log, terminal_count};
ghost use Rattle.kernel_model.specs.declared.event.Event.{Event};
ghost use Rattle.run_events.specs.Records.{seen, records_of, bytes_in, changes_in, items_in};

/// A law. The records of a run have its events and the entries of its log, each once and in order. Their outputs add up to what is
/// written to each terminal, and their changes to the changes of the run. What they tell a process that was there before them adds up
/// to all that the process is told.
pub fn records_say_all()
    ensures events { (k : Kernel) (es : List Event) → map (λ r. r.event) (records_of k es) ≡ es }
    ensures entries { (k : Kernel) (es : List Event) → map (λ r. r.entry) (records_of k es) ≡ map seen (sync_log (now k).sync es) }
    ensures printed { (k : Kernel) (es : List Event) (t : ℕ) → t < terminal_count
        → contents (printed t (now (with_events k es)).log) ≡ contents (printed t (now k).log) ++ bytes_in t (records_of k es) }
    ensures changes { (k : Kernel) (es : List Event) → changes_in_log (now (with_events k es)).log ≡ changes_in_log (now k).log ++ changes_in (records_of k es) }
    ensures told { (k : Kernel) (es : List Event) (p : ℕ) → p ≤ length (now k).sync.processes
        → contents (told p (now (with_events k es)).log) ≡ contents (told p (now k).log) ++ items_in p (records_of k es) }
{}

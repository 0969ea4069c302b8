//! A law that joins marks to events that write nothing.
ghost use Rattle.std.specs.Prelude.{◌≡◌, List, [], ◌∷◌, ◌++◌};
ghost use Rattle.commit_deps.specs.Keeps.{Keeps};
ghost use Rattle.commit_deps.specs.Kept.{Marked};
ghost use Rattle.kernel_model.specs.Entries.{Entry};

/// A law: the marks of a log are those of one event more, if that event writes no carrier, whatever it reads and changes.
pub fn silent_events_leave_marks()
    ensures { (log : List Entry) (marks : List Marked) (e : Entry) → e.writes ≡ [] → Keeps log marks
        → Keeps (log ++ e ∷ []) marks }
{}

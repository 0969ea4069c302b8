//! The marks of items, in runs of equal ones.
ghost use Rattle.std.specs.Prelude.{◌≡◌, ◌+◌, ◌<◌, ◌≤◌, ◌^◌, ◌++◌, length, drop, replicate, nat_le, if◌then◌else◌, OnOk, IfOk, vec_len, vec_capacity};
ghost use Rattle.held_output.specs.Marks.{IsSameMarks, next, runs_passed, with_run, ends_with, no_marks};
ghost use Rattle.held_output.specs.Withheld.{prefix_of};

use commit_deps::Mark;
use std::alloc::{AllocError, Global};
use std::marker::Model;

/// Equal marks that follow each other: where they begin, and the mark.
#[derive(Clone, Copy)]
pub(crate) struct Run {
    pub start: usize,
    pub mark: Mark,
}

/// Marks in order, and how many changes are committed. A mark that is equal to the one before it takes no memory.
pub(crate) struct Marks {
    runs: Vec<Run>,
    /// How many marks there are.
    len: usize,
    /// How many of the first runs rest on committed changes alone.
    passed: usize,
    committed: u64,
}

impl Drop for Marks {
    fn drop(self) {
        let Marks {
            runs: _runs,
            len: _,
            passed: _,
            committed: _,
        } = self;
    }
}

impl Model for Marks {
    ghost use Rattle.std.specs.Prelude.{◌≡◌, ◌-◌, vec_capacity, vec_len};
    ghost use Rattle.held_output.specs.Marks.{MarkList, marks_of, next, Rises, runs_passed};

    ghost Value = { MarkList };

    ghost view = { λ m. record {
      marks = marks_of m.len m.runs.items;
      committed = m.committed;
      room = vec_capacity m.runs - vec_len m.runs;
    } };

    ghost invariant = { λ m. (next m.len m.runs.items ≡ 0) × (Rises m.len m.runs.items × (m.passed ≡ runs_passed m.committed m.runs.items)) };
}

/// Where the first of these runs begins, or the last one before them ends.
fn next(end: usize, runs: &[Run]) -> usize
    ensures { result ≡ next end runs.now }
{
    match runs {
        [] => end,
        [run, ..] => run.start,
    }
}

/// Whether the last run has this mark.
fn ends_with(runs: &[Run], mark: Mark) -> bool
    ensures { result ≡ ends_with mark runs.now }
{
    match runs.last() {
        Some(run) => run.mark == mark,
        None => false,
    }
}

/// What comes from `start` on has this mark.
fn begin(runs: &mut Vec<Run>, start: usize, mark: Mark)
    requires { vec_len runs.old < vec_capacity runs.old }
    ensures { runs.new.items ≡ with_run start mark runs.old.items }
{
    if !ends_with(runs, mark) {
        runs.push(Run { start, mark }).unwrap();
    }
}

/// Those that passed before, unless fewer changes are committed now.
fn known(counted: usize, before: u64, committed: u64) -> usize
    ensures { result ≡ (if nat_le before committed then counted else 0) }
{
    if before <= committed { counted } else { 0 }
}

fn rest(runs: &[Run], count: usize) -> &[Run]
    requires { count ≤ length runs.now }
    ensures { result.now ≡ drop count runs.now }
{
    &runs[count..]
}

/// How many runs stand before the first that does not rest on the first `committed` changes alone.
fn passed(runs: &[Run], committed: u64) -> usize
    ensures { result ≡ runs_passed committed runs.now }
{
    runs.iter()
        .take_while(|run| run.mark.below(committed))
        .count()
}

/// The same, where the first `counted` rest on the first `before` changes. Looks at the runs after these alone, unless fewer changes
/// are committed than before.
fn passed_from(runs: &[Run], counted: usize, before: u64, committed: u64) -> usize
    requires { counted ≤ runs_passed before runs.now }
    ensures { result ≡ runs_passed committed runs.now }
{
    let start = known(counted, before, committed);
    start + passed(rest(runs, start), committed)
}

impl Marks {
    /// No marks, where no change is committed. Takes no memory.
    pub fn new(alloc: Global) -> Marks
        ensures { result ≡ no_marks }
    {
        Marks {
            runs: Vec::new(alloc),
            len: 0,
            passed: 0,
            committed: 0,
        }
    }

    /// How many marks stand before the first that is not among the committed changes.
    pub fn count(&self) -> usize
        ensures { result ≡ prefix_of self.now.committed self.now.marks }
    {
        next(self.len, rest(&self.runs, self.passed))
    }

    /// How many changes are committed, as `advance` said last; 0 before.
    pub fn committed(&self) -> u64
        ensures { result ≡ self.now.committed }
    {
        self.committed
    }

    /// Makes room for marks that are equal.
    pub fn reserve(&mut self) -> Result<(), AllocError>
        ensures room { OnOk result (1 ≤ self.new.room) }
        ensures same { IsSameMarks self.old self.new }
    {
        self.runs.reserve(1)
    }

    /// Appends this mark so many times. Takes no memory.
    pub fn append(&mut self, mark: Mark, times: usize)
        requires room { 1 ≤ self.old.room }
        requires some { 0 < times }
        requires fits { length self.old.marks + times < 2 ^ 64 }
        ensures marks { self.new.marks ≡ self.old.marks ++ replicate times mark }
        ensures committed { self.new.committed ≡ self.old.committed }
    {
        begin(&mut self.runs, self.len, mark);
        self.len += times;
        self.passed = passed_from(&self.runs, self.passed, self.committed, self.committed);
    }

    /// Says how many changes are committed now. Takes no memory.
    pub fn advance(&mut self, committed: u64)
        ensures marks { self.new.marks ≡ self.old.marks }
        ensures room { self.new.room ≡ self.old.room }
        ensures committed { self.new.committed ≡ committed }
    {
        self.passed = passed_from(&self.runs, self.passed, self.committed, committed);
        self.committed = committed;
    }

    /// The same marks. Refused for want of memory alone.
    pub fn try_clone(&self, alloc: Global) -> Result<Marks, AllocError>
        ensures marks { IfOk result (λ copy. copy.marks ≡ self.now.marks) }
        ensures committed { IfOk result (λ copy. copy.committed ≡ self.now.committed) }
    {
        Ok(Marks {
            runs: self.runs.to_vec(alloc)?,
            len: self.len,
            passed: self.passed,
            committed: self.committed,
        })
    }
}

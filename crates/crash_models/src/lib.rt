//! What a crash may leave of files, under four models of a disk: `bench` within `ordered` within `delayed` within `posix`. Read
//! `specs/Models`.
#![tactic(auto)]

ghost use Rattle.std.specs.Prelude.{List, ℕ, ◌≡◌, ◌≤◌, length, take};
ghost use Rattle.disk_model.specs.declared.change.Change.{Change};
ghost use Rattle.disk_model.specs.declared.change.NamedFile.{NamedFile};
ghost use Rattle.disk_model.specs.Files.{Follow, IsMade, files_after};
ghost use Rattle.disk_model.specs.Numbers.{Numbered};
ghost use Rattle.kernel_model.specs.Limits.{AreNumbered};
ghost use Rattle.crash_models.specs.Models.{BenchLeaves, DelayedLeaves, OrderedLeaves, PosixLeaves, file_named};

/// A law: each model may leave what the one before it may leave.
pub fn each_within_the_next()
    ensures ordered { (files : Numbered) (changes : List Change) (left : List NamedFile) → BenchLeaves files changes left → OrderedLeaves files changes left }
    ensures delayed { (files : Numbered) (changes : List Change) (left : List NamedFile) → OrderedLeaves files changes left → DelayedLeaves files changes left }
    ensures posix { (files : Numbered) (changes : List Change) (left : List NamedFile) → DelayedLeaves files changes left → PosixLeaves files changes left }
{}

/// A law, of files whose numbers rise. Where possible changes made them, and the changes are possible, `bench` may leave the files
/// after each prefix of the changes. It leaves no others: of each name there is the same file as after some prefix, or none. So it is
/// what a crash leaves by the law `crashes` of `disk_model`, but for this: there the prefix holds each committed change.
pub fn bench_leaves_prefixes()
    ensures each { (files : Numbered) (changes : List Change) (k : ℕ) → AreNumbered files → IsMade files.living
        → Follow files.living changes → k ≤ length changes → BenchLeaves files changes (files_after files.living (take k changes)) }
    ensures only { (files : Numbered) (changes : List Change) (left : List NamedFile) → AreNumbered files → BenchLeaves files changes left
        → (k : ℕ) × (k ≤ length changes) × ((name : List ℕ) → file_named left name ≡ file_named (files_after files.living (take k changes)) name) }
{}

//! Laws that join what is kept of pipes to all that was ever written to them.
ghost use Rattle.std.specs.Prelude.{ℕ, ◌+◌, List, []};
ghost use Rattle.std.specs.List.{AllByRecursion};
ghost use Rattle.kernel_model.specs.State.{PipeState, stepped};
ghost use Rattle.kernel_model.specs.declared.effect.PipeStep.{PipeStep};
ghost use Rattle.pipes.specs.Seen.{Seen, Shows};
ghost use Rattle.pipes.specs.Stepping.{seen_after, MayStep, HasAtMost};

/// A law: what is seen of the pipes after a step is what the step makes of what was seen before it.
pub fn steps_are_shown()
    ensures first { Shows [] [] }
    ensures next { (pipes : List PipeState) (seen : List Seen) (step : PipeStep) → Shows pipes seen → MayStep seen step
        → Shows (stepped pipes step) (seen_after seen step) }
{}

/// A law: a step adds at most one descriptor to an end. So where fewer than 2^64 - 1 steps came, one more can be counted.
pub fn ends_grow_by_one()
    ensures { (n : ℕ) (pipes : List PipeState) (step : PipeStep) → AllByRecursion (HasAtMost n) pipes
        → AllByRecursion (HasAtMost (n + 1)) (stepped pipes step) }
{}

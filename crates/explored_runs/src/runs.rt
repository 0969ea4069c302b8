//! Runs as a search sees them. A run is the processes whose calls lead to it, and is replayed on a copy of a core that was booted.
ghost use Rattle.std.specs.Prelude.{◌≡◌, ℕ, ◌<◌, ◌-◌, ◌∷◌, ◌++◌, [], List, length, true, false, IfOk};
ghost use Rattle.explored_runs.specs.Answering.{AreTried, HasTriedKey, HaveKeys, HaveTriedKeys, IsAfter, IsCopyOf, IsNext, IsRunOf, IsTried, IsVisitOf, calls_by_next, is_idle, reached_by_next, ways, with_each, working};
ghost use Rattle.order_laws.specs.Moves.{Seen};
ghost use Rattle.replayed_runs.specs.Replays.{seen_of};
ghost use Rattle.explored_runs.specs.RunSearches.{IsFirstRun};
ghost use Rattle.explored_runs.specs.declared.visited.Visits.{Visits};
ghost use Rattle.replayed_runs.specs.StateKeys.{IsKeyOf};

use crate::outcome::outcome_of;
use crate::programs::Programs;
use crate::visited::{VisitedState, Visits};
use faults::Fault;
use order_outcomes::Outcome;
use replayed_runs::{Called, Replay, key_of};
use state_search::Reached;
use std::alloc::{AllocError, Global};

/// The runs that come after a run.
#[derive(Drop)]
pub enum Next {
    /// Those of one call more.
    More(Vec<Reached<Vec<u32>>>),
    /// None: no process can go on.
    Over(Outcome),
}

/// What was found of a run.
#[derive(Drop)]
pub struct After {
    /// Its state, where states are visited.
    pub visited: Option<VisitedState>,
    /// Whether each process stands at a call or a trap, or has ended.
    pub stands: bool,
    pub next: Next,
}

impl Next {
    /// By how many calls the search goes on: of those that do something, or a private one alone.
    pub fn calls(&self) -> usize
        ensures { result ≡ calls_by_next self.now }
    {
        match self {
            Next::More(reached) => reached.len(),
            Next::Over(_) => 0,
        }
    }
}

/// Runs of these programs.
#[derive(Drop)]
pub struct Runs<'a> {
    pub alloc: Global,
    pub programs: &'a Programs,
    /// How many instructions a process runs at most to its next call.
    pub instructions: u32,
    /// What is visited.
    pub visits: Visits,
}

/// What came of trying a call after a run.
#[derive(Drop)]
enum Tried {
    /// Its process cannot make it.
    Idle,
    /// This run, by one call more.
    Made(Reached<Vec<u32>>),
    /// The same, of a private call.
    Private(Reached<Vec<u32>>),
}

/// What came of trying the calls of some processes after a run.
#[derive(Drop)]
enum Tries {
    /// This run, of a private call.
    Private(Reached<Vec<u32>>),
    /// The runs of those that do something.
    Each(Vec<Reached<Vec<u32>>>),
}

/// These calls, and one more.
fn with_call(alloc: Global, calls: &[u32], pid: u32) -> Result<Vec<u32>, AllocError>
    ensures { IfOk result (λ more. more.items ≡ calls.now ++ pid ∷ []) }
{
    let mut more = Vec::with_capacity(alloc, calls.len().saturating_add(1))?;
    more.extend_from_slice(calls)?;
    more.push(pid)?;
    Ok(more)
}

fn reached_by(
    alloc: Global,
    calls: &[u32],
    pid: u32,
    replay: &Replay,
) -> Result<Reached<Vec<u32>>, AllocError>
    ensures calls { IfOk result (λ reached. reached.state.items ≡ calls.now ++ pid ∷ []) }
    ensures key { IfOk result (λ reached. IsKeyOf replay.now reached.key) }
{
    Ok(Reached {
        key: key_of(replay),
        state: with_call(alloc, calls, pid)?,
    })
}

fn alone(alloc: Global, reached: Reached<Vec<u32>>) -> Result<Vec<Reached<Vec<u32>>>, AllocError>
    ensures { IfOk result (λ all. all.items ≡ reached ∷ []) }
{
    let mut all = Vec::new(alloc);
    all.push(reached)?;
    Ok(all)
}

/// The state of a run after which this comes, if it is visited. It keeps its window where no run goes on, or where it is to be kept.
fn as_it_ends(visited: Option<VisitedState>, is_kept: bool, next: &Next) -> Option<VisitedState>
    ensures { (visits : Visits) (ps : List ℕ) (s : Seen) → IsVisitOf visits ps s visited → IsVisitOf visits ps s result }
{
    match visited {
        Some(state) => Some(state.with_window_if(is_kept || matches!(next, Next::Over(_)))),
        None => None,
    }
}

impl Runs<'_> {
    /// The run of no calls, on a copy of the core that was booted.
    pub fn begin(&self) -> Result<Replay, Fault>
        ensures { IfOk result (IsRunOf self.now []) }
    {
        let core = self.programs.core(self.alloc)?;
        let has_promises = self.visits != Visits::Nothing;
        let keeps_windows = self.visits == Visits::Windows;
        let replay = Replay::begin(
            self.alloc,
            core,
            self.instructions,
            has_promises,
            keeps_windows,
        )?;
        Ok(replay)
    }

    /// Makes these calls on such a copy.
    pub fn replay(&self, calls: &[u32]) -> Result<Replay, Fault>
        ensures { IfOk result (IsRunOf self.now calls.now) }
    {
        let mut replay = self.begin()?;
        for pid in calls {
            replay.call(*pid)?;
        }
        Ok(replay)
    }

    /// The run of no calls.
    pub fn first(&self) -> Result<Reached<Vec<u32>>, Fault>
        ensures { IfOk result (IsFirstRun self.now) }
    {
        let start = self.begin()?;
        Ok(Reached {
            key: key_of(&start),
            state: Vec::new(self.alloc),
        })
    }

    /// Tries the call of a process after these calls, which were replayed.
    fn try_call(&self, replay: &mut Replay, calls: &[u32], pid: u32) -> Result<Tried, Fault>
        ensures tried { IfOk result (IsTried replay.old.limit (seen_of replay.old.core) calls.now pid) }
        ensures idle { IfOk result (λ tried. is_idle tried ≡ true → seen_of replay.new.core ≡ seen_of replay.old.core) }
        ensures limit { IfOk result (λ tried. is_idle tried ≡ true → replay.new.limit ≡ replay.old.limit) }
        ensures key { IfOk result (λ tried. IsRunOf self.now calls.now replay.old → HasTriedKey self.now tried) }
    {
        match replay.call(pid)? {
            Called::Idle => Ok(Tried::Idle),
            Called::Made => Ok(Tried::Made(reached_by(self.alloc, calls, pid, replay)?)),
            Called::MadePrivately => Ok(Tried::Private(reached_by(
                self.alloc, calls, pid, replay,
            )?)),
        }
    }

    /// The state of a run that was replayed, where states are visited.
    fn visited(&self, calls: &[u32], replay: &Replay) -> Result<Option<VisitedState>, Fault>
        ensures { IfOk result (IsVisitOf self.now.visits calls.now (seen_of replay.now.core)) }
    {
        if self.visits == Visits::Nothing {
            return Ok(None);
        }
        Ok(Some(VisitedState::of(self.alloc, calls, replay)?))
    }

    /// What is found of the run of these calls, which was replayed.
    pub fn after(&self, calls: &[u32], replay: Replay) -> Result<After, Fault>
        requires { IsRunOf self.now calls.now replay }
        ensures { IfOk result (λ after. IsAfter self.now calls.now after) }
    {
        let visited = self.visited(calls, &replay)?;
        let is_kept = self.visits == Visits::Windows && replay.is_at_sync_or_print();
        let stands = replay.all_stand();
        let next = self.next(calls, replay)?;
        Ok(After {
            visited: as_it_ends(visited, is_kept, &next),
            stands,
            next,
        })
    }

    /// A copy of a replay in which no call was made: this one, unless one was made in it.
    fn fresh_copy(&self, replay: &Replay, copy: Replay, is_used: bool) -> Result<Replay, Fault>
        requires { is_used ≡ false → IsCopyOf replay.now copy }
        ensures { IfOk result (IsCopyOf replay.now) }
    {
        if is_used {
            Ok(replay.try_clone(self.alloc)?)
        } else {
            Ok(copy)
        }
    }

    /// Tries the call of each process up to this one, on copies of the run of these calls. After a private one no other is tried.
    fn try_each(&self, calls: &[u32], replay: &Replay, most: u32) -> Result<Tries, Fault>
        requires { replay.now.limit ≡ self.now.instructions }
        ensures tried { IfOk result (AreTried self.now.instructions (seen_of replay.now.core) calls.now most) }
        ensures keys { IfOk result (λ tries. IsRunOf self.now calls.now replay.now → HaveTriedKeys self.now tries) }
    {
        let mut reached = Vec::new(self.alloc);
        if most == 0 {
            return Ok(Tries::Each(reached));
        }
        let mut copy = replay.try_clone(self.alloc)?;
        let mut is_used = false;
        for place in 0..most {
            copy = self.fresh_copy(replay, copy, is_used)?;
            is_used = false;
            match self.try_call(&mut copy, calls, place + 1)? {
                Tried::Idle => {}
                Tried::Made(run) => {
                    reached.push(run)?;
                    is_used = true;
                }
                Tried::Private(run) => return Ok(Tries::Private(run)),
            }
        }
        Ok(Tries::Each(reached))
    }

    /// The runs after one more call, where those before the last process came to these: they, and that of the last one. Its call is tried
    /// on the run itself. If it is private, its run alone.
    fn with_last(
        &self,
        calls: &[u32],
        replay: Replay,
        reached: Vec<Reached<Vec<u32>>>,
        last: u32,
    ) -> Result<Next, Fault>
        requires limit { replay.limit ≡ self.now.instructions }
        requires some { 0 < last }
        requires asked { ways reached.items ≡ with_each calls.now (working self.now.instructions (seen_of replay.core) (last - 1)) }
        requires none_after { working self.now.instructions (seen_of replay.core) (length (seen_of replay.core).sync.processes) ≡ working self.now.instructions (seen_of replay.core) last }
        ensures next { IfOk result (IsNext self.now.instructions (seen_of replay.core) calls.now) }
        ensures keys { IfOk result (λ next. IsRunOf self.now calls.now replay → HaveKeys self.now reached.items → HaveKeys self.now (reached_by_next next)) }
    {
        let mut replay = replay;
        let mut reached = reached;
        match self.try_call(&mut replay, calls, last)? {
            Tried::Idle => {
                if reached.is_empty() {
                    return Ok(Next::Over(outcome_of(self.alloc, calls, &mut replay)?));
                }
                Ok(Next::More(reached))
            }
            Tried::Made(own) => {
                reached.push(own)?;
                Ok(Next::More(reached))
            }
            Tried::Private(own) => Ok(Next::More(alone(self.alloc, own)?)),
        }
    }

    /// The runs after one more call: after a private one alone, if there is one, or after each that does something. It is over where none
    /// does. This run is that of these calls.
    fn next(&self, calls: &[u32], replay: Replay) -> Result<Next, Fault>
        requires { replay.limit ≡ self.now.instructions }
        ensures next { IfOk result (IsNext self.now.instructions (seen_of replay.core) calls.now) }
        ensures keys { IfOk result (λ next. IsRunOf self.now calls.now replay → HaveKeys self.now (reached_by_next next)) }
    {
        let last = replay.last_alive();
        if last == 0 {
            let mut replay = replay;
            return Ok(Next::Over(outcome_of(self.alloc, calls, &mut replay)?));
        }
        match self.try_each(calls, &replay, last - 1)? {
            Tries::Private(run) => Ok(Next::More(alone(self.alloc, run)?)),
            Tries::Each(reached) => {
                let next = self.with_last(calls, replay, reached, last)?;
                Ok(next)
            }
        }
    }
}

//! Crashes of all orders of the calls of programs.
ghost use Rattle.std.specs.Prelude.{◌≡◌, ◌<◌, Err, Ok, if◌then◌else◌};
ghost use Rattle.crash_recoveries.specs.declared.verdict.Verdict.TheVariants.{Cut, Kept};
ghost use Rattle.faults.specs.declared.exploration.ExplorationFault.TheVariants.{Cut as StatesLeft};

use crate::exploring::limits_of;
use command_line::OrderBounds;
use crash_points::Stop;
use crash_recoveries::{OrderState, Orders, OrdersTried, SearchedStates, Tested, Trial, Verdict};
use explored_runs::{
    ExploredStates, StateTaker, VisitedState, Visits, end_of_calls, explore_states, lines_of_calls,
};
use faults::{ExplorationFault, Fault};
use progress::{Progress, ProgressCount};
use recovery_runs::{Effort, Recovery};
use scripts::Launch;
use std::alloc::Global;
use std::io::{self, Sink, Write};
use std::rt::Files;
use std::thread::Threads;

/// What came of the recoveries, and the calls of the order whose end `tested` has, if one ends badly.
#[derive(Drop)]
pub struct OrdersTested {
    pub tested: Tested,
    pub calls: Vec<u32>,
}

/// Hands states on to what runs the recovery on them, and tells how many there were.
#[derive(Drop)]
struct Handing<'a, 'e, R, E> {
    rt: &'a R,
    orders: Orders<'a, R, Sink>,
    progress: Progress<'e, E>,
    /// How many states it was handed.
    done: u64,
}

impl<R: Files + AllocGlobal, E: Write> Handing<'_, '_, R, E> {
    /// Tells how far the search has come, with so many states to be gone on from.
    fn tell(&mut self, frontier: usize) {
        if self.progress.is_due(self.rt) {
            self.progress.tell(ProgressCount {
                what: "states",
                done: self.done,
                left: frontier as u64,
                to_do: "at the frontier",
            });
        }
    }
}

impl<R: Files + AllocGlobal, E: Write> StateTaker for Handing<'_, '_, R, E> {
    type Fault = Stop;

    /// Each state is taken by itself: so what is printed is the same, however many states come at once.
    fn take<T: Threads + Sync>(
        &mut self,
        rt: &T,
        states: Vec<VisitedState>,
        frontier: usize,
    ) -> Result<(), Stop> {
        let mut frontier = frontier.saturating_add(states.len());
        for state in states {
            let VisitedState {
                calls,
                files,
                shown,
                window,
            } = state;
            let state = OrderState {
                calls: calls.as_slice(),
                files: &files,
                shown: shown.as_slice(),
                window,
            };
            self.orders.take(rt, state)?;
            self.done = self.done.saturating_add(1);
            frontier = frontier.saturating_sub(1);
            self.tell(frontier);
        }
        Ok(())
    }
}

/// How far the search came, if it came to its end; and so for what is printed, or why it was stopped.
fn parted(
    explored: Result<ExploredStates, Stop>,
) -> (Option<ExploredStates>, Result<SearchedStates, Stop>) {
    match explored {
        Ok(explored) => {
            let searched = SearchedStates {
                states: explored.totals.states,
                calls: explored.totals.calls,
                is_whole: explored.totals.left == 0 && !explored.runs_on,
            };
            (Some(explored), Ok(searched))
        }
        Err(stop) => (None, Err(stop)),
    }
}

/// The verdict where no recovery failed and the search came so far. Where it left states, that is the fault.
fn verdict_of(explored: &ExploredStates) -> Result<Verdict, ExplorationFault>
    ensures left { 0 < explored.now.totals.left → result ≡ Err (StatesLeft explored.now.totals.left explored.now.totals.depth) }
    ensures whole { explored.now.totals.left ≡ 0 → result ≡ Ok (if explored.now.runs_on then Cut else Kept) }
{
    let (left, calls) = (explored.totals.left, explored.totals.depth);
    if left > 0 {
        return Err(ExplorationFault::Cut { left, calls });
    }
    Ok(if explored.runs_on {
        Verdict::Cut
    } else {
        Verdict::Kept
    })
}

/// The verdict, with the lines of the run that led to a recovery that failed.
fn with_lines(
    alloc: Global,
    launch: &Launch,
    instructions: u32,
    tried: OrdersTried,
) -> Result<Verdict, Fault> {
    let OrdersTried { verdict, calls } = tried;
    match verdict {
        Verdict::Failed(failure, _) => {
            let lines = lines_of_calls(alloc, launch, instructions, calls.as_slice())?;
            Ok(Verdict::Failed(failure, lines))
        }
        verdict => Ok(verdict),
    }
}

/// What came of recoveries none of which failed, by how far the search came.
fn tested_of(
    alloc: Global,
    launch: &Launch,
    instructions: u32,
    explored: ExploredStates,
) -> Result<OrdersTested, Fault> {
    let verdict = verdict_of(&explored)?;
    let ExploredStates { ends_badly, .. } = explored;
    let Some(calls) = ends_badly else {
        return Ok(all_well(alloc, verdict));
    };
    let core = end_of_calls(alloc, launch, instructions, calls.as_slice())?;
    Ok(OrdersTested {
        tested: Tested {
            verdict,
            core: Some(core),
        },
        calls,
    })
}

/// A verdict, where no order is known that ends badly.
fn all_well(alloc: Global, verdict: Verdict) -> OrdersTested {
    OrdersTested {
        tested: Tested {
            verdict,
            core: None,
        },
        calls: Vec::new(alloc),
    }
}

/// Has the recovery run on what is left by crashes of all orders of the calls of what is set up, by a rule, or by bench's own. Cut where
/// none of those that were run failed, and a process came to no call in as many instructions as it may have. Where the search left states
/// then, that is the fault. Where all were run and none failed, it has the end of the first order that `exec` does not end with status 0.
pub fn recover_orders<R: Files + AllocGlobal + Threads + Sync, O: Write, E: Write>(
    rt: &R,
    launch: &Launch,
    recovery: &Recovery,
    bounds: OrderBounds,
    trial: Trial,
    out: &mut O,
    err: &mut E,
) -> Result<OrdersTested, Fault> {
    let Trial { rule, effort } = trial;
    let limits = limits_of(bounds, effort.jobs);
    let visits = match rule {
        Some(_) => Visits::Windows,
        None => Visits::States,
    };
    let mut nowhere = io::sink();
    // The states are told of, and not the recoveries.
    let progress = Progress::new(rt, err, effort.progress);
    let trial = Trial {
        rule,
        effort: Effort {
            progress: false,
            ..effort
        },
    };
    let mut handing = Handing {
        rt,
        orders: Orders::new(rt, recovery, trial, &mut nowhere),
        progress,
        done: 0,
    };
    let (explored, searched) = parted(explore_states(rt, launch, limits, visits, &mut handing));
    let Handing { orders, .. } = handing;
    let tried = orders.finish(rt, searched, out)?;
    let instructions = bounds.instructions;
    let alloc = rt.alloc();
    match (with_lines(alloc, launch, instructions, tried)?, explored) {
        (Verdict::Kept, Some(explored)) => tested_of(alloc, launch, instructions, explored),
        (verdict, _) => Ok(all_well(alloc, verdict)),
    }
}

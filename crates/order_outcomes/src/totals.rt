//! How far a search came in all.
ghost use Rattle.std.specs.Prelude.{◌≡◌, length, true, None, IfOk, OnErr, OnOk, is_some};
ghost use Rattle.order_outcomes.specs.Unexplored.{unexplored};

use crate::findings::Findings;
use faults::{ExplorationFault, Fault};
use state_search::Searched;
use std::io;
use std::io::Write;

/// How many states a search found, by how many calls it went on, and how many states it left after how many calls.
#[derive(Clone, Copy)]
pub struct Totals {
    pub states: u64,
    pub calls: u64,
    pub left: u64,
    pub depth: u64,
    /// Whether no process ran on in a state from which the search went on.
    pub is_whole: bool,
}

impl Totals {
    pub fn of(searched: &Searched<Vec<u32>>) -> Totals
        ensures left { result.left ≡ length searched.now.left.items }
        ensures depth { result.depth ≡ searched.now.depth }
        ensures whole { result.is_whole ≡ searched.now.is_whole }
    {
        let left = searched.left.len() as u64;
        Totals {
            states: searched.gone_on.saturating_add(left),
            calls: searched.moves,
            left,
            depth: searched.depth,
            is_whole: searched.is_whole,
        }
    }

    /// Why not all was explored, if it was not: states are left, or else a process runs on.
    fn why_not_all(self, findings: &Findings<'_>) -> Option<ExplorationFault>
        ensures { result ≡ unexplored self.left self.depth findings.now.runs_on self.is_whole }
    {
        let (left, calls) = (self.left, self.depth);
        if left > 0 {
            return Some(ExplorationFault::Cut { left, calls });
        }
        match findings.runs_on {
            Some(outcome) => Some(ExplorationFault::RunsOn { outcome }),
            // It does not come to this: a process that runs on does so in each later state, and so in an outcome.
            None if !self.is_whole => Some(ExplorationFault::Cut { left, calls }),
            None => None,
        }
    }

    /// Prints how many states, calls and outcomes there were, and whether all was explored.
    pub fn print<O: Write>(self, findings: &Findings<'_>, out: &mut O) -> io::Result<()> {
        let Totals { states, calls, .. } = self;
        let outcomes = findings.count();
        let how_far = match self.why_not_all(findings) {
            None => "complete",
            Some(_) => "not complete",
        };
        writeln!(
            out,
            "{states} states, {calls} calls, {outcomes} outcomes, {how_far}"
        )
    }

    /// Refuses a search that did not explore all.
    pub fn test_all(self, findings: &Findings<'_>) -> Result<(), Fault>
        ensures left { IfOk result (λ _. self.left ≡ 0) }
        ensures ends { OnOk result (findings.now.runs_on ≡ None) }
        ensures whole { OnOk result (self.is_whole ≡ true) }
        ensures refused { OnErr result (is_some (unexplored self.left self.depth findings.now.runs_on self.is_whole) ≡ true) }
    {
        match self.why_not_all(findings) {
            Some(why) => Err(Fault::from(why)),
            None => Ok(()),
        }
    }
}

//! All outcomes of programs: the search, and what it prints.
ghost use Rattle.std.specs.Prelude.{OnOk};
ghost use Rattle.explored_runs.specs.Explored.{Explored, SearchedAll, SearchedPart};

use crate::limits::Limits;
use crate::programs::Programs;
use crate::run_search::{Heard, Listener, search_runs, search_runs_part};
use crate::runs::Runs;
use crate::saved::{launch_lines, script_of};
use crate::visited::Visits;
use faults::Fault;
use host_files::write_file;
use order_outcomes::{
    Findings, Outcome, PartHead, Summed, Totals, print_outcome, write_end, write_head,
    write_outcome, write_state,
};
use progress::{Progress, ProgressCount};
use scripts::Launch;
use state_search::{Found, Key, StateDigest};
use std::alloc::{AllocError, Global};
use std::io::{self, Write};
use std::rt::Files;
use std::thread::Threads;

/// What is wanted of the outcomes.
#[derive(Clone, Copy)]
pub struct Wanted<'a> {
    /// The text whose lines are the outcomes that are expected, if any are.
    pub expected: Option<&'a str>,
    /// The folder into which a script of each is written, if one is given.
    pub folder: Option<&'a str>,
    /// Whether it is told how far the search has come.
    pub progress: bool,
}

/// Prints the outcomes of a search, each once.
struct Printer<'r, 'p, 'w, 'o, 'e, R, O, E> {
    rt: &'r R,
    runs: &'r Runs<'p>,
    /// Whether a part is searched.
    is_part: bool,
    wanted: Wanted<'w>,
    /// The calls of the first outcome in which a process runs on, once one is found.
    runs_on: &'r mut Option<Vec<u32>>,
    /// The set-up lines with which the script of an outcome begins.
    launch: Vec<u8>,
    findings: Findings<'w>,
    /// The outcomes of a level, before it is done.
    over: Vec<Outcome>,
    out: Summed<'o, O>,
    progress: Progress<'e, E>,
    /// How many states it was told of.
    done: u64,
}

impl<R, O, E> Drop for Printer<'_, '_, '_, '_, '_, R, O, E> {
    fn drop(self) {
        let Printer {
            rt: _,
            runs: _,
            is_part: _,
            wanted: _,
            runs_on: _,
            launch: _launch,
            findings: _findings,
            over: _over,
            out: _out,
            progress: _progress,
            done: _,
        } = self;
    }
}

/// The path of the script of an outcome.
fn script_path(alloc: Global, folder: &str, number: u64) -> Result<String, AllocError> {
    format!(in alloc; "{folder}/outcome-{number}.script")
}

impl<R: Files + AllocGlobal, O: Write, E: Write> Printer<'_, '_, '_, '_, '_, R, O, E> {
    /// Writes the script of an outcome, if it is wanted.
    fn save(&mut self, number: u64, calls: &[u32]) -> Result<(), Fault> {
        let Some(folder) = self.wanted.folder else {
            return Ok(());
        };
        let alloc = self.rt.alloc();
        let replay = self.runs.replay(calls)?;
        let script = script_of(alloc, self.launch.as_slice(), &replay)?;
        let path = script_path(alloc, folder, number)?;
        write_file(self.rt, path.as_str(), script.as_slice())
    }

    /// Prints an outcome that is new.
    fn print(&mut self, number: u64, outcome: &Outcome) -> io::Result<()> {
        if self.is_part {
            write_outcome(outcome, &mut self.out)
        } else {
            print_outcome(number, outcome, &mut self.out)
        }
    }

    /// Notes the calls of an outcome in which a process runs on, if it is the first.
    fn note_runs_on(&mut self, outcome: &Outcome) -> Result<(), AllocError> {
        if outcome.runs_on && self.runs_on.is_none() {
            let calls = Vec::from_slice(self.rt.alloc(), outcome.calls.as_slice())?;
            *self.runs_on = Some(calls);
        }
        Ok(())
    }

    /// Prints an outcome where it is new. It is refused if it is not expected.
    fn find(&mut self, outcome: &Outcome) -> Result<(), Fault> {
        let Some(number) = self.findings.keep(self.rt.alloc(), outcome)? else {
            return Ok(());
        };
        self.note_runs_on(outcome)?;
        self.print(number, outcome)?;
        self.save(number, outcome.calls.as_slice())?;
        self.findings.judge(number, outcome)
    }

    /// Tells how far it has come, with so many states to be gone on from. What was printed goes out before it.
    fn tell(&mut self, frontier: usize) {
        if self.progress.is_due(self.rt) {
            let _ = self.out.flush();
            self.progress.tell(ProgressCount {
                what: "states",
                done: self.done,
                left: frontier as u64,
                to_do: "at the frontier",
            });
        }
    }

    /// Prints the states from which a part went on.
    fn note(&mut self, states: &[Found<Vec<u32>>], calls: &[usize]) -> io::Result<()> {
        if self.is_part {
            for (found, calls) in states.iter().zip(calls.iter()) {
                write_state(found, *calls, &mut self.out)?;
            }
        }
        Ok(())
    }
}

impl<R: Files + AllocGlobal, O: Write, E: Write> Listener for Printer<'_, '_, '_, '_, '_, R, O, E> {
    type Fault = Fault;

    fn hear<T: Threads + Sync>(&mut self, _rt: &T, heard: Heard<'_, '_>) -> Result<(), Fault> {
        let Heard {
            runs: _,
            states,
            calls,
            mut over,
            visited: _visited,
            frontier,
        } = heard;
        self.note(states, calls.as_slice())?;
        self.over.append(&mut over)?;
        self.done = self.done.saturating_add(states.len() as u64);
        self.tell(frontier);
        Ok(())
    }

    /// Prints the outcomes of the level that are new, in their order.
    fn end_level(&mut self) -> Result<(), Fault> {
        let mut outcomes = Vec::new(self.rt.alloc());
        outcomes.append(&mut self.over)?;
        outcomes.sort()?;
        for outcome in &outcomes {
            self.find(outcome)?;
        }
        Ok(())
    }
}

impl<R: Files + AllocGlobal + Threads + Sync, O: Write, E: Write> Printer<
    '_,
    '_,
    '_,
    '_,
    '_,
    R,
    O,
    E,
> {
    /// Searches all, and prints how many states, calls and outcomes there were. Refused where not all was explored.
    fn search_whole(&mut self, limits: Limits) -> Result<(), Fault>
        ensures { OnOk result (SearchedAll self.old.runs.now) }
    {
        let (rt, runs) = (self.rt, self.runs);
        let searched = search_runs(rt, runs, limits.threads(rt), self, limits.bounds())?;
        let totals = Totals::of(&searched);
        totals.print(&self.findings, &mut self.out)?;
        totals.test_all(&self.findings)
    }

    /// Searches a part, whose file is printed. Refused where the part did not explore all that is its own.
    fn search_part(&mut self, limits: Limits, head: PartHead) -> Result<(), Fault>
        ensures { OnOk result (SearchedPart self.old.runs.now head.part) }
    {
        write_head(head, &mut self.out)?;
        let (rt, runs) = (self.rt, self.runs);
        let found = search_runs_part(
            rt,
            runs,
            limits.threads(rt),
            self,
            limits.bounds(),
            head.part,
        )?;
        let totals = Totals::of(&found.searched);
        write_end(found.searched.left.as_slice(), totals.depth, &mut self.out)?;
        totals.test_all(&self.findings)
    }
}

/// The sum of the set-up lines, with the images that were read.
fn sum_of(lines: &[u8]) -> Key {
    let mut digest = StateDigest::new();
    digest.text(lines);
    digest.key()
}

/// Finds all outcomes of programs, whatever the order of their calls, each by as few calls as lead to it, and prints each once, and then
/// how many states, calls and outcomes there were. Where the limits leave something unexplored, that is a fault. How far it has come is
/// told to `err`, if that is wanted. Of a part its file is printed, for `merge_parts`. `runs_on` gets the calls of the first outcome in which
/// a process runs on.
///
/// Where outcomes are expected, the first that is not among them ends the search. The expectations are read first. What is printed is the same, however many threads search.
pub fn explore_orders<R: Files + AllocGlobal + Threads + Sync, O: Write, E: Write>(
    rt: &R,
    launch: &Launch,
    limits: Limits,
    wanted: Wanted<'_>,
    runs_on: &mut Option<Vec<u32>>,
    out: &mut O,
    err: &mut E,
) -> Result<(), Fault>
    ensures { OnOk result (Explored limits.instructions limits.part) }
{
    let alloc = rt.alloc();
    let findings = Findings::new(alloc, wanted.expected)?;
    let programs = Programs::of_launch(alloc, launch)?;
    let lines = launch_lines(alloc, launch)?;
    let sum = sum_of(lines.as_slice());
    let runs = Runs {
        alloc,
        programs: &programs,
        instructions: limits.instructions,
        visits: Visits::Nothing,
    };
    let mut printer = Printer {
        rt,
        runs: &runs,
        is_part: limits.part.is_some(),
        wanted,
        runs_on,
        launch: lines,
        findings,
        over: Vec::new(alloc),
        out: Summed::new(out),
        progress: Progress::new(rt, err, wanted.progress),
        done: 0,
    };
    match limits.part {
        Some(part) => printer.search_part(
            limits,
            PartHead {
                programs: sum,
                instructions: u64::from(limits.instructions),
                states: limits.states,
                calls: limits.bounds().moves,
                part,
            },
        ),
        None => printer.search_whole(limits),
    }
}

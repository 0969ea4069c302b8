//! `try_recoveries`: whether the user's recovery gets over each crash of a run.
ghost use Rattle.std.specs.Prelude.{◌≡◌, true, is_some, IfErr, IfOk, Err, None, Ok};
ghost use Rattle.exec_runs.specs.declared.ending.Ending.TheVariants.{Over};
ghost use Rattle.crash_recoveries.specs.Verdicts.{is_failed, is_kept};
ghost use Rattle.crash_points.specs.declared.stop.Stop.TheVariants.{Fault as StoppedBy};
ghost use Rattle.crash_recoveries.specs.declared.verdict.Verdict.TheVariants.{Kept};

use crash_outcomes::{Moment, PassedOver};
use crash_points::{Course, CrashPlace, RunEnd, Stop, Taker};
use crash_visits::{Bound, Rule, Trier, WindowTrier};
use exec_runs::Ending;
use faults::Fault;
use kernel::Core;
use progress::Progress;
use recovery_runs::{Effort, Failure, Part, Recovery, Tally, Tester};
use scripts::Launch;
use std::alloc::{AllocError, Global};
use std::io::Write;
use std::rt::Files;
use std::thread::Threads;
use std::{fmt, io};

/// What is run, and how.
#[derive(Drop)]
pub struct Subject<'a> {
    pub launch: &'a Launch,
    pub course: &'a Course,
}

/// By which rule crashes are tried, if it is another than bench's, and how much.
#[derive(Clone, Copy)]
pub struct Trial {
    pub rule: Option<Rule>,
    pub effort: Effort,
}

/// What came of the recoveries.
#[derive(Drop)]
pub enum Verdict {
    /// Each ended with status 0.
    Kept,
    /// The first that did not, and the lines of the run up to its crash.
    Failed(Failure, String),
    /// Each ended with status 0, but the run was cut at its limit of instructions.
    Cut,
    /// Each ended with status 0, but then more was shown than a tape holds.
    TooLong,
}

/// What is said of what was not tried.
#[derive(Clone, Copy)]
pub enum Untried {
    /// The disks that no crash left.
    Passed(PassedOver),
    /// What is past this bound, if no recovery failed.
    Past(Option<Bound>),
    /// What a search did not come to, which came so far, if it came to its end; and by another rule than bench's what is past this bound.
    Orders(Option<SearchedStates>, Option<Bound>),
}

/// How far a search of all orders of calls came. It prints as the beginning of a line.
#[derive(Clone, Copy)]
pub struct SearchedStates {
    pub states: u64,
    /// How many calls were tried that do something.
    pub calls: u64,
    /// Whether no state was left, and each process came to its next call.
    pub is_whole: bool,
}

impl fmt::Display for SearchedStates {
    fn fmt<W: fmt::Write>(&self, f: &mut fmt::Formatter<W>) -> fmt::Result {
        let SearchedStates { states, calls, .. } = self;
        write!(f, "{states} states, {calls} calls, ")
    }
}

/// What came of the recoveries, and the core of the run at its end, where it came there.
#[derive(Drop)]
pub struct Tested {
    pub verdict: Verdict,
    pub core: Option<Core>,
}

/// A run whose crashes were tried.
#[derive(Drop)]
struct TriedRun {
    done: Result<Ending, Stop>,
    core: Option<Core>,
    /// Its lines.
    played: String,
    untried: Untried,
}

/// How a run ended, and its core then.
fn parted(done: Result<RunEnd, Stop>) -> (Result<Ending, Stop>, Option<Core>) {
    match done {
        Ok(RunEnd { ending, core }) => (Ok(ending), core),
        Err(stop) => (Err(stop), None),
    }
}

fn run_by_bench<R: AllocGlobal + Threads + Sync, T: Taker>(
    rt: &R,
    subject: Subject<'_>,
    taker: &mut T,
) -> TriedRun {
    let Subject { launch, course } = subject;
    let mut trier = Trier::new(rt, launch);
    let (done, core) = parted(trier.run(course, taker));
    let untried = Untried::Passed(trier.passed_over);
    TriedRun {
        done,
        core,
        played: trier.into_played(),
        untried,
    }
}

fn run_by_rule<R: AllocGlobal + Threads + Sync, T: Taker>(
    rt: &R,
    subject: Subject<'_>,
    rule: Rule,
    taker: &mut T,
) -> TriedRun {
    let Subject { launch, course } = subject;
    let mut trier = WindowTrier::new(rt, launch, rule, true);
    let (done, core) = parted(trier.run(course, taker));
    let untried = Untried::Past(Some(trier.bound()));
    TriedRun {
        done,
        core,
        played: trier.into_played(),
        untried,
    }
}

/// Runs what is set up, and tries its crashes by a rule, or by bench's own.
fn run_by<R: AllocGlobal + Threads + Sync, T: Taker>(
    rt: &R,
    subject: Subject<'_>,
    rule: Option<Rule>,
    taker: &mut T,
) -> TriedRun {
    match rule {
        Some(rule) => run_by_rule(rt, subject, rule, taker),
        None => run_by_bench(rt, subject, taker),
    }
}

/// The lines of a run up to a moment.
fn lines_up_to(alloc: Global, played: &str, moment: Moment) -> Result<String, AllocError> {
    let mut lines = String::new(alloc);
    let (mut boot, mut event) = (1u64, 0u64);
    for line in played.lines() {
        if boot == moment.boot && event == moment.event {
            break;
        }
        lines.push_str(line)?;
        lines.push_str("\n")?;
        if line.starts_with("crash ") {
            boot = boot.saturating_add(1);
            event = 0;
        } else {
            event = event.saturating_add(1);
        }
    }
    Ok(lines)
}

/// Prints how many disks and recoveries were tried.
fn print_tried<O: Write>(disks: usize, tally: Tally, out: &mut O) -> io::Result<()> {
    let recoveries = tally.recoveries;
    write!(out, "{disks} disks, {recoveries} recoveries")
}

/// Prints how much was tried of a run by bench's rule, and what was not.
fn print_passed<O: Write>(
    disks: usize,
    tally: Tally,
    passed_over: PassedOver,
    out: &mut O,
) -> io::Result<()> {
    let crashes = tally.crashes;
    write!(out, "{crashes} crashes, ")?;
    print_tried(disks, tally, out)?;
    write!(out, "{passed_over}")
}

/// Prints how many disks of other parts were not tried.
fn print_part<O: Write>(part: Part, tally: Tally, out: &mut O) -> io::Result<()> {
    let (Part { number, of }, others) = (part, tally.others);
    write!(
        out,
        "; part {number}/{of}: {others} disks of other parts were not tried"
    )
}

/// Prints the bound up to which all was tried, if there is one.
fn print_bound<O: Write>(bound: Option<Bound>, out: &mut O) -> io::Result<()> {
    match bound {
        Some(bound) => write!(out, "{bound}"),
        None => Ok(()),
    }
}

/// Prints how much was tried, and what was not.
fn print_untried<O: Write>(
    disks: usize,
    tally: Tally,
    untried: Untried,
    out: &mut O,
) -> io::Result<()> {
    match untried {
        Untried::Passed(passed_over) => print_passed(disks, tally, passed_over, out),
        Untried::Past(None) | Untried::Orders(None, _) => print_tried(disks, tally, out),
        Untried::Past(Some(bound)) => {
            print_tried(disks, tally, out)?;
            write!(out, "{bound}")
        }
        Untried::Orders(Some(searched), bound) => {
            write!(out, "{searched}")?;
            print_tried(disks, tally, out)?;
            print_bound(bound, out)
        }
    }
}

/// Prints how much was tried, and what was not, as a line.
fn print_sums<R: Files + AllocGlobal, E: Write, O: Write>(
    tester: &Tester<'_, R, E>,
    untried: Untried,
    effort: Effort,
    out: &mut O,
) -> io::Result<()> {
    let tally = tester.tally();
    print_untried(tester.count_disks(), tally, untried, out)?;
    if let Some(part) = effort.part {
        print_part(part, tally, out)?;
    }
    writeln!(out)
}

/// What is said of what was not tried where a recovery failed, or none did.
fn untried_of(untried: Untried, has_failed: bool) -> Untried {
    match untried {
        Untried::Past(_) if has_failed => Untried::Past(None),
        untried => untried,
    }
}

/// Prints the first recovery that failed, if one did, and how much was tried.
pub fn print_tested<R: Files + AllocGlobal, E: Write, O: Write>(
    tester: &Tester<'_, R, E>,
    untried: Untried,
    effort: Effort,
    out: &mut O,
) -> io::Result<()> {
    if let Some(failure) = &tester.failure {
        failure.print(out)?;
    }
    let untried = untried_of(untried, tester.failure.is_some());
    print_sums(tester, untried, effort, out)
}

/// The lines of the run up to the crash after which a recovery failed, if one did.
fn failed_lines(
    alloc: Global,
    failure: Option<&Failure>,
    played: &str,
) -> Result<String, AllocError> {
    match failure {
        Some(failure) => match failure.point.place {
            CrashPlace::Filled(moment, _) | CrashPlace::Apart(moment, _) => {
                lines_up_to(alloc, played, moment)
            }
            CrashPlace::Order(..) => Ok(String::new(alloc)),
        },
        None => Ok(String::new(alloc)),
    }
}

/// The verdict where recoveries were tried to this end, and these are the lines of the run up to the crash after which one failed.
pub fn verdict_of(
    done: Result<Ending, Stop>,
    failure: Option<Failure>,
    lines: String,
) -> Result<Verdict, Fault>
    ensures failed { IfOk result (λ verdict. is_failed verdict ≡ is_some failure) }
    ensures kept { IfOk result (λ verdict. is_kept verdict ≡ true → done ≡ Ok Over) }
    ensures whole { done ≡ Ok Over → failure ≡ None → result ≡ Ok Kept }
    ensures faults { IfErr result (λ fault. done ≡ Err (StoppedBy fault)) }
{
    match (done, failure) {
        (Err(Stop::Fault(fault)), _) => Err(fault),
        (_, Some(failure)) => Ok(Verdict::Failed(failure, lines)),
        (Ok(Ending::Limit { .. } | Ending::Full { .. }), None) => Ok(Verdict::Cut),
        (Err(_), None) => Ok(Verdict::TooLong),
        (Ok(Ending::Over), None) => Ok(Verdict::Kept),
    }
}

/// Runs the recovery on what is left of a run that was tried, and prints what came of all.
fn finish<R: Files + AllocGlobal + Threads + Sync, O: Write, E: Write>(
    rt: &R,
    mut tester: Tester<'_, R, E>,
    run: TriedRun,
    effort: Effort,
    out: &mut O,
) -> Result<Tested, Fault> {
    let TriedRun {
        done,
        core,
        played,
        untried,
    } = run;
    let done = tester.finish(rt, done);
    if let Err(Stop::Fault(fault)) = done {
        return Err(fault);
    }
    print_tested(&tester, untried, effort, out)?;
    let lines = failed_lines(rt.alloc(), tester.failure.as_ref(), played.as_str())?;
    let verdict = verdict_of(done, tester.into_failure(), lines)?;
    Ok(Tested { verdict, core })
}

/// Runs what is set up, and tries crashes as `explore` does, and where terminal 0 shows more. On each disk that a crash leaves the recovery is
/// run, once with each promise, and again after its own crashes. By a rule, if one is given, the disks are those that this rule allows
/// between two syncs of the changes so far, and what was printed by then is promised. Prints the first recovery that fails, which ends all, and how much was tried. Each
/// disk and promise has its turn, whatever comes of the others: what is printed is the same, however many threads run recoveries. How far
/// it has come is told to `err`, if that is wanted.
pub fn try_recoveries<R: Files + AllocGlobal + Threads + Sync, O: Write, E: Write>(
    rt: &R,
    subject: Subject<'_>,
    recovery: &Recovery,
    trial: Trial,
    out: &mut O,
    err: &mut E,
) -> Result<Tested, Fault> {
    let progress = Progress::new(rt, err, trial.effort.progress);
    let mut tester = Tester::new(rt, &recovery.program, trial.effort, progress);
    let run = run_by(rt, subject, trial.rule, &mut tester);
    finish(rt, tester, run, trial.effort, out)
}

//! The command `crashes`: crashes of a script, or of programs.
use crate::crash_orders::{OrdersTested, recover_orders};
use crate::crash_subject::CrashSubject;
use crate::exploring::{make_saved, of_expected};
use command_line::{CrashOptions, ModelName, OrderBounds};
use crash_lists::CrashModel;
use crash_points::{Course, RunEnd};
use crash_recoveries::{Subject, Tested, Trial, Verdict, save, try_recoveries};
use crash_visits::{Rule, explore, explore_by};
use exec_files::LoadedProgram;
use exec_reports::{Family, print_ending, print_processes, status_of_run};
use exec_runs::Ending;
use faults::{Fault, write_line};
use host_files::text_in;
use kernel::Core;
use recovery_runs::{Effort, Failure, Part, Recovery};
use run_files::{Input, of_subject, program_in, subject_in};
use scripts::Launch;
use std::fmt;
use std::io::{Read, Write};
use std::rt::Files;
use std::thread::Threads;

/// The exit status where a recovery failed.
const FAILED: u8 = 7;

/// The exit status where not all was tried.
const NOT_ALL: u8 = 8;

/// The rule of what a crash may leave, if it is another than bench's.
fn rule_of(options: &CrashOptions<'_>) -> Option<Rule> {
    let model = match options.model {
        ModelName::Bench => return None,
        ModelName::Ordered => CrashModel::Ordered,
        ModelName::Delayed => CrashModel::Delayed,
        ModelName::Posix => CrashModel::Posix,
    };
    Some(Rule {
        model,
        apart: options.apart,
    })
}

/// How crashes are tried.
fn trial_of(options: &CrashOptions<'_>) -> Trial {
    Trial {
        rule: rule_of(options),
        effort: Effort {
            jobs: options.jobs,
            part: options.part.map(|part| Part {
                number: part.number,
                of: part.of,
            }),
            progress: options.progress,
        },
    }
}

/// Says that the run was cut, or a process of some order, and where each process of the run stands. Gives the exit status.
fn tell_cut<E: Write>(
    options: &CrashOptions<'_>,
    family: &mut Family,
    core: Option<&Core>,
    err: &mut E,
) -> Result<u8, Fault> {
    if let Some(OrderBounds { instructions, .. }) = options.orders {
        write_line(
            err,
            format_args!(
                "bench: not all explored: a process runs {instructions} instructions, and comes to no call"
            ),
        )?;
        return Ok(NOT_ALL);
    }
    let limit = options.limit;
    write_line(
        err,
        format_args!("bench: not all tried: the run was cut at the limit of {limit} instructions"),
    )?;
    if let Some(core) = core {
        family.forget_executed(core);
        print_processes(core, family, err)?;
    }
    Ok(NOT_ALL)
}

/// Writes numbers, each after a space.
fn write_all<W: fmt::Write>(f: &mut fmt::Formatter<W>, numbers: &[u32]) -> fmt::Result {
    for number in numbers {
        write!(f, " {number}")?;
    }
    Ok(())
}

/// The line of a run whose programs did not end well, and of an order of calls its processes, in that order.
#[derive(Clone, Copy)]
struct FailedRun<'a> {
    status: u8,
    calls: Option<&'a [u32]>,
}

impl fmt::Display for FailedRun<'_> {
    fn fmt<W: fmt::Write>(&self, f: &mut fmt::Formatter<W>) -> fmt::Result {
        let status = self.status;
        let Some(calls) = self.calls else {
            return write!(f, "bench: run failed: status {status}");
        };
        write!(
            f,
            "bench: run failed in some order: status {status}, calls of processes"
        )?;
        write_all(f, calls)
    }
}

/// Says how the programs of a run ended, if they did not end well, and gives the exit status: that of the run. Of an order of calls these
/// are its processes.
fn tell_run<E: Write>(
    family: &mut Family,
    core: &Core,
    calls: Option<&[u32]>,
    err: &mut E,
) -> Result<u8, Fault> {
    family.forget_executed(core);
    print_ending(core, family, Ending::Over, err)?;
    let status = status_of_run(core, Ending::Over);
    if status != 0 {
        write_line(err, FailedRun { status, calls })?;
    }
    Ok(status)
}

/// Says how the programs ended, as `tell_run` does. How those of a script end is the script's affair.
fn tell_programs<E: Write>(
    subject: &mut CrashSubject,
    core: Option<&Core>,
    err: &mut E,
) -> Result<u8, Fault> {
    let is_told = matches!(subject.course, Course::ToEnd { .. });
    match core {
        Some(core) if is_told => tell_run(&mut subject.family, core, None, err),
        _ => Ok(0),
    }
}

/// Prints what each crash leaves, or compares it with what is expected. Gives how the run ended.
fn explore_to_end<R: Files + AllocGlobal + Threads + Sync, O: Write>(
    rt: &R,
    options: &CrashOptions<'_>,
    subject: &mut CrashSubject,
    out: &mut O,
) -> Result<RunEnd, Fault> {
    let (launch, course) = (&subject.launch, &subject.course);
    if let Some(rule) = rule_of(options) {
        return explore_by(rt, launch, course, rule, out);
    }
    let Some(path) = options.expect else {
        return explore(rt.alloc(), launch, course, None, out);
    };
    let expected = text_in(rt, path)?;
    explore(rt.alloc(), launch, course, Some(expected.as_str()), out)
}

/// Explores, and says how the run ended.
fn explore_in<R: Files + AllocGlobal + Threads + Sync, O: Write, E: Write>(
    rt: &R,
    options: &CrashOptions<'_>,
    subject: &mut CrashSubject,
    out: &mut O,
    err: &mut E,
) -> Result<u8, Fault> {
    let RunEnd { ending, core } = explore_to_end(rt, options, subject, out)?;
    out.flush()?;
    match ending {
        Ending::Over => tell_programs(subject, core.as_ref(), err),
        Ending::Limit { .. } | Ending::Full { .. } => {
            tell_cut(options, &mut subject.family, core.as_ref(), err)
        }
    }
}

/// Says why a recovery failed, and keeps it, if it is to be kept.
fn end_failed<R: Files + AllocGlobal, E: Write>(
    rt: &R,
    options: &CrashOptions<'_>,
    launch: &Launch,
    recovery: &mut Recovery,
    failed: (Failure, String),
    err: &mut E,
) -> Result<u8, Fault> {
    let (failure, played) = failed;
    failure.tell(&mut recovery.family, err)?;
    if let Some(folder) = options.save {
        let program = &recovery.program;
        save(rt, folder, launch, program, &failure, played.as_str())?;
    }
    Ok(FAILED)
}

/// What came of the recoveries, and what the exit status is where none failed and all was tried.
#[derive(Drop)]
struct Judged {
    tested: Tested,
    status: u8,
}

/// Has the recovery run on what crashes of all orders leave. Says how the first order ended that did not end well.
fn judge_orders<R: Files + AllocGlobal + Threads + Sync, O: Write, E: Write>(
    rt: &R,
    subject: &mut CrashSubject,
    recovery: &Recovery,
    bounds: OrderBounds,
    trial: Trial,
    out: &mut O,
    err: &mut E,
) -> Result<Judged, Fault> {
    let launch = &subject.launch;
    let OrdersTested { tested, calls } = recover_orders(
        rt, launch, recovery, bounds, trial, out, err,
    )?;
    out.flush()?;
    let status = match (&tested.verdict, &tested.core) {
        (Verdict::Kept, Some(core)) => {
            tell_run(&mut subject.family, core, Some(calls.as_slice()), err)?
        }
        _ => 0,
    };
    Ok(Judged { tested, status })
}

/// Has the recovery run on what crashes of the run leave. Says how it ended, if its programs did not end well.
fn judge_run<R: Files + AllocGlobal + Threads + Sync, O: Write, E: Write>(
    rt: &R,
    subject: &mut CrashSubject,
    recovery: &Recovery,
    trial: Trial,
    out: &mut O,
    err: &mut E,
) -> Result<Judged, Fault> {
    let run = Subject {
        launch: &subject.launch,
        course: &subject.course,
    };
    let tested = try_recoveries(rt, run, recovery, trial, out, err)?;
    out.flush()?;
    let status = match &tested.verdict {
        Verdict::Kept => tell_programs(subject, tested.core.as_ref(), err)?,
        _ => 0,
    };
    Ok(Judged { tested, status })
}

/// Has the recovery run on what crashes leave: those of all orders, or of the run.
fn test_recovery<R: Files + AllocGlobal + Threads + Sync, O: Write, E: Write>(
    rt: &R,
    options: &CrashOptions<'_>,
    subject: &mut CrashSubject,
    recovery: &Recovery,
    out: &mut O,
    err: &mut E,
) -> Result<Judged, Fault> {
    let trial = trial_of(options);
    match options.orders {
        Some(bounds) => judge_orders(rt, subject, recovery, bounds, trial, out, err),
        None => judge_run(rt, subject, recovery, trial, out, err),
    }
}

/// Has the recovery run on what each crash leaves, and gives the exit status.
fn recover_in<R: Files + AllocGlobal + Threads + Sync, O: Write, E: Write>(
    rt: &R,
    options: &CrashOptions<'_>,
    program: LoadedProgram,
    subject: &mut CrashSubject,
    out: &mut O,
    err: &mut E,
) -> Result<u8, Fault> {
    let mut recovery = Recovery::new(rt.alloc(), program, options.limit, options.nested)?;
    let Judged { tested, status } = test_recovery(rt, options, subject, &recovery, out, err)?;
    let Tested { verdict, core } = tested;
    match verdict {
        Verdict::Kept => Ok(status),
        Verdict::Failed(failure, played) => {
            let (launch, failed) = (&subject.launch, (failure, played));
            end_failed(rt, options, launch, &mut recovery, failed, err)
        }
        Verdict::Cut => tell_cut(options, &mut subject.family, core.as_ref(), err),
        Verdict::TooLong => {
            write_line(
                err,
                "bench: not all tried: terminal 0 shows more than the 65536 bytes that a tape holds",
            )?;
            Ok(NOT_ALL)
        }
    }
}

/// Tries the crashes of what was read. The recovery is read first, if there is one, and then what is to be saved has its folder.
fn try_in<R: Files + AllocGlobal + Threads + Sync, I: Read, O: Write, E: Write>(
    rt: &R,
    options: &CrashOptions<'_>,
    input: &mut I,
    out: &mut O,
    err: &mut E,
) -> Result<u8, Fault> {
    let mut input = Input::new(input);
    let subject = subject_in(rt, &options.programs, &mut input)?;
    let mut subject = CrashSubject::new(rt.alloc(), subject, options.limit)?;
    let Some(path) = options.recover else {
        return explore_in(rt, options, &mut subject, out, err);
    };
    let program = program_in(rt, path, &mut input)?;
    make_saved(rt, options.save)?;
    recover_in(rt, options, program, &mut subject, out, err)
}

/// Tries the crashes of a script, or of programs. All files are read first: the script or the programs and their tapes, and then what is
/// expected, or the recovery. Gives the exit status. A line says why a recovery failed, what was not tried, and how programs ended that
/// did not end well.
pub fn try_crashes<R: Files + AllocGlobal + Threads + Sync, I: Read, O: Write, E: Write>(
    rt: &R,
    options: &CrashOptions<'_>,
    input: &mut I,
    out: &mut O,
    err: &mut E,
) -> Result<u8, Fault> {
    let alloc = rt.alloc();
    let done = try_in(rt, options, input, out, err);
    of_expected(
        alloc,
        options.expect,
        of_subject(alloc, &options.programs, done),
    )
}

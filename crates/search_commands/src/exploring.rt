//! All orders of the calls of programs in files of the host.
use command_line::{ExploreOptions, Explored, OrderBounds, ProgramOptions};
use exec_reports::{Family, print_processes};
use explored_runs::{Limits, Wanted, end_of_calls, explore_orders};
use faults::{ExplorationFault, Fault, Refusal, Role};
use host_files::text_in;
use order_outcomes::merge_parts;
use run_files::{Input, Subject, make_folder, of_subject, subject_in};
use state_search::Part;
use std::alloc::Global;
use std::io::{Read, Write};
use std::rt::Files;
use std::thread::Threads;

/// The outcomes that are expected, if any are.
fn expected_in<R: Files + AllocGlobal>(
    rt: &R,
    options: &ExploreOptions<'_>,
) -> Result<Option<String>, Fault> {
    match options.expect {
        Some(path) => Ok(Some(text_in(rt, path)?)),
        None => Ok(None),
    }
}

/// How far orders are searched, by how many threads. The whole, and no part.
pub fn limits_of(bounds: OrderBounds, threads: Option<u32>) -> Limits {
    Limits {
        instructions: bounds.instructions,
        states: bounds.states,
        calls: Some(bounds.calls),
        threads,
        part: None,
    }
}

/// How far is searched.
fn limits_in(options: &ExploreOptions<'_>) -> Limits {
    let part = options.part.map(|part| Part {
        number: part.number,
        of: part.of,
    });
    let mut limits = limits_of(options.bounds, options.jobs);
    limits.part = part;
    limits
}

/// Makes the folder into which files are to be written, if one is given.
pub fn make_saved<R: Files + AllocGlobal>(rt: &R, folder: Option<&str>) -> Result<(), Fault> {
    match folder {
        Some(folder) => make_folder(rt, folder),
        None => Ok(()),
    }
}

/// Says where each process stands at the end to which these calls lead.
fn tell_processes<E: Write>(
    alloc: Global,
    subject: Subject,
    instructions: u32,
    calls: &[u32],
    err: &mut E,
) -> Result<(), Fault> {
    let Subject {
        launch,
        steps: _steps,
        programs,
    } = subject;
    let core = end_of_calls(alloc, &launch, instructions, calls)?;
    let mut family = Family::new(alloc, programs, launch.programs().len())?;
    family.forget_executed(&core);
    print_processes(&core, &family, err)
}

/// Whether a search was cut since a process runs on.
fn runs_on(fault: &Fault) -> bool {
    matches!(
        fault,
        Fault::Refused {
            refusal: Refusal::Exploration(ExplorationFault::RunsOn { .. }),
            ..
        }
    )
}

/// Finds all outcomes of programs, or explores a part, and gives the exit status. The programs or the script are read first, and then what
/// is expected, if anything is. If a process runs on, lines say where each stands.
fn explore_in<R: Files + AllocGlobal + Threads + Sync, I: Read, O: Write, E: Write>(
    rt: &R,
    options: &ExploreOptions<'_>,
    programs: &ProgramOptions<'_>,
    input: &mut I,
    out: &mut O,
    err: &mut E,
) -> Result<u8, Fault> {
    let subject = subject_in(rt, programs, &mut Input::new(input))?;
    let expected = expected_in(rt, options)?;
    make_saved(rt, options.save)?;
    let wanted = Wanted {
        expected: expected.as_ref().map(|text| text.as_str()),
        folder: options.save,
        progress: options.progress,
    };
    let limits = limits_in(options);
    let mut calls = None;
    let done = explore_orders(rt, &subject.launch, limits, wanted, &mut calls, out, err);
    if let (Err(fault), Some(calls)) = (&done, &calls)
        && runs_on(fault)
    {
        out.flush()?;
        tell_processes(
            rt.alloc(),
            subject,
            limits.instructions,
            calls.as_slice(),
            err,
        )?;
    }
    done?;
    Ok(0)
}

/// Puts the files of parts together. What is expected is read first, if anything is.
fn merge_in<R: Files + AllocGlobal, O: Write>(
    rt: &R,
    options: &ExploreOptions<'_>,
    paths: &[&str],
    out: &mut O,
) -> Result<u8, Fault> {
    let expected = expected_in(rt, options)?;
    let expected = expected.as_ref().map(|text| text.as_str());
    merge_parts(rt, paths, expected, out)?;
    Ok(0)
}

/// What came of a search for which something is expected in a file. A fault of what is expected has the file's path then.
pub fn of_expected(
    alloc: Global,
    path: Option<&str>,
    done: Result<u8, Fault>,
) -> Result<u8, Fault> {
    match (done, path) {
        (Err(fault), Some(path)) => Err(fault.of(alloc, Role::Expectations, path)),
        (done, _) => done,
    }
}

/// Finds all outcomes of programs, or of the parts of a search. Gives the exit status. A line says which part is refused.
pub fn explore_programs<R: Files + AllocGlobal + Threads + Sync, I: Read, O: Write, E: Write>(
    rt: &R,
    options: &ExploreOptions<'_>,
    input: &mut I,
    out: &mut O,
    err: &mut E,
) -> Result<u8, Fault> {
    let alloc = rt.alloc();
    let done = match &options.explored {
        Explored::Programs(programs) => of_subject(
            alloc,
            programs,
            explore_in(rt, options, programs, input, out, err),
        ),
        Explored::Parts(paths) => merge_in(rt, options, paths.as_slice(), out),
    };
    of_expected(alloc, options.expect, done)
}

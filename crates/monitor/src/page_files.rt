//! Pages of runs.
use crate::shown_runs::ShownRun;
use command_line::{PageOptions, ProgramOptions};
use exec_files::{LoadedProgram, Names, Places};
use exec_reports::Family;
use faults::{Fault, Refusal};
use host_files::{source_lines, source_text};
use run_files::{Input, of_subject, subject_in};
use run_page::{PagedRun, write_json, write_page};
use scripts::Launch;
use std::alloc::{AllocError, Global};
use std::io::{Read, Write};
use std::rt::Files;

/// The name of a file, without its folders.
fn name_in(path: &str) -> &str {
    match path.rsplit_once('/') {
        Some((_folders, name)) => name,
        None => path,
    }
}

/// The names of files, with a blank between them.
fn names_in(alloc: Global, options: &ProgramOptions<'_>) -> Result<String, AllocError> {
    let mut names = String::new(alloc);
    for path in options.paths.as_slice() {
        if !names.is_empty() {
            names.push_str(" ")?;
        }
        names.push_str(name_in(path))?;
    }
    Ok(names)
}

/// Names the files of programs without their folders, since a page goes elsewhere.
fn drop_folders(alloc: Global, programs: &mut [Option<LoadedProgram>]) -> Result<(), AllocError> {
    for program in programs {
        if let Some(program) = program {
            let name = String::from_str(alloc, name_in(program.places.path.as_str()))?;
            program.places.path = name;
        }
    }
    Ok(())
}

/// Reads a source beside the programs that it assembles to, of which its lines are known then. Refused where there is none.
fn know_source<R: Files + AllocGlobal>(
    rt: &R,
    launch: &Launch,
    family: &mut Family,
    path: &str,
) -> Result<(), Fault> {
    let alloc = rt.alloc();
    let source = source_text(rt, path)?;
    let mut is_known = false;
    for (program, known) in launch
        .programs()
        .iter()
        .zip(family.programs_mut().iter_mut())
    {
        let image = program.image.try_clone(alloc)?;
        let Some(lines) = source_lines(alloc, path, source.as_str(), &image)? else {
            continue;
        };
        is_known = true;
        let places = Places {
            path: String::from_str(alloc, path)?,
            names: Names::Source(lines),
        };
        *known = Some(LoadedProgram { image, places });
    }
    if is_known {
        Ok(())
    } else {
        Err(Fault::from(Refusal::OtherImage).at(alloc, path))
    }
}

fn make_page<R: Files + AllocGlobal, I: Read, O: Write, E: Write>(
    rt: &R,
    options: &PageOptions<'_>,
    input: &mut I,
    out: &mut O,
    err: &mut E,
) -> Result<(), Fault> {
    let alloc = rt.alloc();
    let subject = subject_in(rt, &options.programs, &mut Input::new(input))?;
    let ShownRun {
        launch,
        steps,
        mut family,
    } = ShownRun::of(alloc, subject, options.limit, err)?;
    for source in &options.sources {
        know_source(rt, &launch, &mut family, source)?;
    }
    drop_folders(alloc, family.programs_mut())?;
    let name = names_in(alloc, &options.programs)?;
    let paged = PagedRun {
        name: name.as_str(),
        launch,
        steps,
        family,
    };
    if options.json {
        write_json(alloc, paged, out)
    } else {
        write_page(alloc, paged, out)
    }
}

/// Makes a page of the run of programs, or of a script, or prints what the page has of it as JSON. The lines of sources are shown; those of an
/// image, where its source is given too.
pub fn page_programs<R: Files + AllocGlobal, I: Read, O: Write, E: Write>(
    rt: &R,
    options: &PageOptions<'_>,
    input: &mut I,
    out: &mut O,
    err: &mut E,
) -> Result<(), Fault> {
    let done = make_page(rt, options, input, out, err);
    of_subject(rt.alloc(), &options.programs, done)
}

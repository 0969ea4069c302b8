//! Pictures of runs.
use crate::shown_runs::ShownRun;
use command_line::PictureOptions;
use faults::Fault;
use pictured_runs::picture;
use run_files::{Input, of_subject, subject_in};
use std::io::{Read, Write};
use std::rt::Files;

fn draw_run<R: Files + AllocGlobal, I: Read, O: Write, E: Write>(
    rt: &R,
    options: &PictureOptions<'_>,
    input: &mut I,
    out: &mut O,
    err: &mut E,
) -> Result<(), Fault> {
    let subject = subject_in(rt, &options.programs, &mut Input::new(input))?;
    let ShownRun {
        launch,
        steps,
        family: _family,
    } = ShownRun::of(rt.alloc(), subject, options.limit, err)?;
    picture(rt.alloc(), &launch, steps.as_slice(), options.cone, out)
}

/// Draws the run of programs, or of a script, and in it the cone of an event, if a number is given.
pub fn picture_programs<R: Files + AllocGlobal, I: Read, O: Write, E: Write>(
    rt: &R,
    options: &PictureOptions<'_>,
    input: &mut I,
    out: &mut O,
    err: &mut E,
) -> Result<(), Fault> {
    let done = draw_run(rt, options, input, out, err);
    of_subject(rt.alloc(), &options.programs, done)
}

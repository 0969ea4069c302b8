//! The command `debug`: an image is debugged with a trace, or with `--live` a process, whose calls a kernel answers.
use crate::fault::of_session;
use command_line::LiveOptions;
use debug_commands::{Source, debug};
use exec_files::{Names, Places};
use faults::{Fault, Refusal};
use host_files::{image_in, replies_in, source_lines_in};
use kernel::{Core, Event, Refused};
use machine_model::Image;
use recorder::Recorder;
use run_files::{Input, Subject, of_subject, subject_in};
use std::alloc::Global;
use std::io::{Read, Write};
use std::rt::Files;
use timeline::Origin;

/// The most loans that the kernel runs until the wanted process is there.
const LOANS: u32 = 4096;

/// The process of the last Enter of a history.
fn last_entered(history: &[Event]) -> Option<u32> {
    history.iter().rev().find_map(|event| match event {
        Event::Enter { pid } => Some(*pid),
        _ => None,
    })
}

fn is_there(core: &Core, process: u32) -> bool {
    core.standing(process).is_ok()
}

/// Of each process the place of the image from which it descends by forks. The entry of process p stands at index p - 1.
#[derive(Drop)]
struct Ancestors {
    images: Vec<usize>,
}

impl Ancestors {
    /// The entries of the first processes, one for each image.
    fn new(alloc: Global, count: usize) -> Result<Ancestors, Fault> {
        let mut images = Vec::new(alloc);
        for image in 0..count {
            images.push(image)?;
        }
        Ok(Ancestors { images })
    }

    /// The place of the image from which a process descends. None where no such process was noted.
    fn of(&self, process: u32) -> Option<usize> {
        self.images.get(process.checked_sub(1)? as usize).copied()
    }

    /// The number that the next process will have.
    fn next(&self) -> Option<u32> {
        u32::try_from(self.images.len()).ok()?.checked_add(1)
    }

    /// Notes a process that a fork has just made, if one did. Its parent is the process of the last Enter.
    fn add(&mut self, core: &Core) -> Result<(), Fault> {
        if !self.next().is_some_and(|next| is_there(core, next)) {
            return Ok(());
        }
        if let Some(image) = last_entered(core.history()).and_then(|parent| self.of(parent)) {
            self.images.push(image)?;
        }
        Ok(())
    }
}

fn fault_of(why: Refused, process: u32) -> Fault {
    match why {
        Refused::OutOfMemory => Fault::OutOfMemory,
        _ => Fault::from(Refusal::Process { process }),
    }
}

/// Runs the kernel on until a process is there. Gives the place of the image from which it descends.
fn await_process(
    alloc: Global,
    recorder: &mut Recorder,
    process: u32,
    images: usize,
) -> Result<usize, Fault> {
    let mut ancestors = Ancestors::new(alloc, images)?;
    for _ in 0..LOANS {
        if let Some(image) = ancestors.of(process) {
            return Ok(image);
        }
        if let Err(why) = recorder.more(1) {
            return Err(fault_of(why, process));
        }
        ancestors.add(recorder.core())?;
    }
    Err(Fault::from(Refusal::Process { process }))
}

/// A process that is to be debugged: the image from which it descends, what is known of that image, and what answers its calls.
#[derive(Drop)]
pub struct Debuggee {
    pub image: Image,
    pub places: Option<Places>,
    pub origin: Origin,
}

/// The program of what was booted from which a process descends.
fn process_of(
    alloc: Global,
    mut subject: Subject,
    core: Core,
    process: u32,
) -> Result<Debuggee, Fault> {
    let mut recorder = Recorder::new(alloc, core, process);
    let booted = subject.launch.programs();
    let place = await_process(alloc, &mut recorder, process, booted.len())?;
    let Some(program) = booted.get(place) else {
        return Err(Fault::from(Refusal::Process { process }));
    };
    let image = program.image.try_clone(alloc)?;
    let places = if place < subject.programs.len() {
        Some(subject.programs.swap_remove(place).into_parts().1)
    } else {
        None
    };
    Ok(Debuggee {
        image,
        places,
        origin: Origin::Kernel(recorder, process),
    })
}

/// A process of a run of programs, or of what a script sets up, and the kernel that answers its calls. Refused is a process that no fork
/// makes.
pub fn process_in<R: Files + AllocGlobal, I: Read>(
    rt: &R,
    options: &LiveOptions<'_>,
    input: &mut Input<'_, I>,
) -> Result<Debuggee, Fault> {
    let subject = subject_in(rt, &options.programs, input)?;
    let booted = subject.boot_on(rt, options.disk);
    let core = of_subject(rt.alloc(), &options.programs, booted)?;
    process_of(rt.alloc(), subject, core, options.process)
}

/// Debugs the image in a file, by the commands on the input. The program's calls get the replies of the trace in another file, or
/// none. Where the path of its source is given, the source's lines are printed too.
pub fn debug_file<R: Files + AllocGlobal, I: Read, O: Write>(
    rt: &R,
    image: &str,
    trace: Option<&str>,
    source: Option<&str>,
    input: &mut I,
    out: &mut O,
) -> Result<(), Fault> {
    let image = image_in(rt, image)?;
    let origin = Origin::Trace(replies_in(rt, trace)?);
    let source = given_source(rt, source, &image)?;
    debug(rt.alloc(), image, origin, source, input, out).map_err(of_session)
}

/// The source that a program was made of, if it was.
fn source_of(places: Option<Places>) -> Option<Source> {
    let Places { path, names } = places?;
    match names {
        Names::Source(lines) => Some(Source { path, lines }),
        Names::Executable { .. } => None,
    }
}

/// The source at a path, if one is given. Refused is one that assembles to another image.
fn given_source<R: Files + AllocGlobal>(
    rt: &R,
    path: Option<&str>,
    image: &Image,
) -> Result<Option<Source>, Fault> {
    match (source_lines_in(rt, path, image)?, path) {
        (Some(lines), Some(path)) => {
            let path = String::from_str(rt.alloc(), path)?;
            Ok(Some(Source { path, lines }))
        }
        _ => Ok(None),
    }
}

/// Debugs a process of a run of programs, or of what a script sets up, by the commands on the input. A kernel answers its calls, and
/// nothing is written to the disk's file. Refused is a process that no fork makes. The lines of a source are printed too, and those of
/// another one where its path is given.
pub fn debug_live<R: Files + AllocGlobal, I: Read, O: Write>(
    rt: &R,
    options: &LiveOptions<'_>,
    input: &mut I,
    out: &mut O,
) -> Result<(), Fault> {
    let Debuggee {
        image,
        places,
        origin,
    } = process_in(rt, options, &mut Input::<I>::none())?;
    let source = match given_source(rt, options.source, &image)? {
        Some(source) => Some(source),
        None => source_of(places),
    };
    debug(rt.alloc(), image, origin, source, input, out).map_err(of_session)
}

//! `subject_in`: what a command runs, of files of the host.
ghost use Rattle.std.specs.Prelude.{◌≡◌, true, IfOk, IfSome, []};
ghost use Rattle.disk_model.specs.Storage.{is_quiet};

use crate::inputs::{Input, file_in, name_of, tapes_in};
use crate::setup::of_disk;
use byte_list::Bytes;
use command_line::ProgramOptions;
use exec_files::{LoadedProgram, program_of, refused};
use faults::{Fault, Refusal, Role};
use host_files::{FileKind, disk_or_zeros, kind_of, text_of_file};
use kernel::{Core, SimDisk};
use machine_model::Image;
use scripts::{Launch, Script, Step, TapeList};
use std::alloc::{AllocError, Global};
use std::io::Read;
use std::rt::Files;

/// What a command runs: programs, or what a script sets up and does.
#[derive(Drop)]
pub struct Subject {
    pub launch: Launch,
    /// None of programs, and of set-up lines alone: they are run to their end.
    pub steps: Vec<Step>,
    /// What is known of the programs, in order; none of a script's.
    pub programs: Vec<LoadedProgram>,
}

/// Adds tapes in order, of which an empty one is as good as none.
fn push_tapes(alloc: Global, list: &mut TapeList, tapes: &[Bytes]) -> Result<(), AllocError> {
    let mut number = 0u32;
    for tape in tapes {
        if !tape.as_slice().is_empty() {
            list.push(Some(number), Some(tape.try_clone(alloc)?))?;
        }
        number = number.saturating_add(1);
    }
    Ok(())
}

/// A launch of these images with these tapes, in order. There are 1 to 8 images, which the command line sees to.
pub fn launch_of(alloc: Global, images: Vec<Image>, tapes: &[Bytes]) -> Result<Launch, Fault> {
    let mut images = images;
    images.reverse();
    let Some(first) = images.pop() else {
        return Err(Fault::from(Refusal::NoProgram));
    };
    images.reverse();
    let mut launch = Launch::of_image(alloc, first)?;
    for image in images {
        launch.push_image(image)?;
    }
    push_tapes(alloc, &mut launch.tapes, tapes)?;
    Ok(launch)
}

/// Copies of the images of programs.
fn images_of(alloc: Global, programs: &[LoadedProgram]) -> Result<Vec<Image>, AllocError> {
    let mut images = Vec::new(alloc);
    for program in programs {
        images.push(program.image.try_clone(alloc)?)?;
    }
    Ok(images)
}

/// Refuses tapes beside a script.
fn test_no_tapes(alloc: Global, options: &ProgramOptions<'_>, name: &str) -> Result<(), Fault> {
    if options.tapes.as_slice().iter().all(|tape| tape.is_none()) {
        return Ok(());
    }
    Err(refused(
        alloc,
        name,
        "a script has tapes of its own; --tape and --tape-of are for programs",
    ))
}

/// The script of these bytes of a file, with the images that it names.
fn subject_of_script<R: Files + AllocGlobal>(
    rt: &R,
    options: &ProgramOptions<'_>,
    name: &str,
    file: &[u8],
) -> Result<Subject, Fault> {
    let alloc = rt.alloc();
    let text = text_of_file(alloc, name, file)?;
    test_no_tapes(alloc, options, name)?;
    let (setup, steps) = Script::of_file(alloc, name, text)?.into_parts();
    match setup.read(rt) {
        Ok(launch) => Ok(Subject {
            launch,
            steps,
            programs: Vec::new(alloc),
        }),
        Err(fault) => Err(fault.of(alloc, Role::Script, name)),
    }
}

/// What a command runs: the programs of its options, of whatever kinds, with their tapes, or the script of its only file. What a file is
/// its bytes say. The files are read in order, each once.
pub fn subject_in<R: Files + AllocGlobal, I: Read>(
    rt: &R,
    options: &ProgramOptions<'_>,
    input: &mut Input<'_, I>,
) -> Result<Subject, Fault> {
    let alloc = rt.alloc();
    let paths = options.paths.as_slice();
    let mut programs = Vec::new(alloc);
    for path in paths {
        let file = file_in(rt, path, input)?;
        let (name, file) = (name_of(path), file.as_slice());
        match (kind_of(file), paths) {
            (FileKind::Script, [_]) => return subject_of_script(rt, options, name, file),
            (FileKind::Script, _) => {
                let why = "this is a script, which is given alone";
                return Err(refused(alloc, name, why));
            }
            _ => {}
        }
        programs.push(program_of(alloc, name, file)?)?;
    }
    let tapes = tapes_in(rt, options.tapes.as_slice(), input)?;
    let images = images_of(alloc, programs.as_slice())?;
    Ok(Subject {
        launch: launch_of(alloc, images, tapes.as_slice())?,
        steps: Vec::new(alloc),
        programs,
    })
}

/// What came of what a command runs. A fault of a script, or of what it sets up, has the path of its file then.
pub fn of_subject<T: Drop>(
    alloc: Global,
    options: &ProgramOptions<'_>,
    done: Result<T, Fault>,
) -> Result<T, Fault> {
    match (options.paths.as_slice(), done) {
        ([path], Err(fault)) => Err(fault.of(alloc, Role::Script, name_of(path))),
        (_, done) => done,
    }
}

/// The disk of a file, if one is given.
fn device_in<R: Files + AllocGlobal>(rt: &R, path: Option<&str>) -> Result<Option<SimDisk>, Fault>
    ensures { IfOk result (λ device. IfSome device (λ device. is_quiet device ≡ true)) }
{
    match path {
        Some(path) => Ok(Some(disk_or_zeros(rt, path)?)),
        None => Ok(None),
    }
}

impl Subject {
    /// Refuses a disk that is given beside a script, which has its own.
    pub fn test_disk(&self, alloc: Global, path: Option<&str>) -> Result<(), Fault> {
        match path {
            Some(path) if self.programs.is_empty() => {
                let why = "a script has a disk of its own; --disk is for programs";
                Err(refused(alloc, path, why))
            }
            _ => Ok(()),
        }
    }

    fn boot<R: Files + AllocGlobal>(&self, rt: &R, disk: Option<&str>) -> Result<Core, Fault> {
        let device = device_in(rt, disk)?;
        self.launch.boot(rt.alloc(), device)
    }

    /// Boots it on the disk in a file, which is zeros if there is none, and is not written; or, if no path is given, on a new one. Refused is a
    /// script that is to have another disk than its own.
    pub fn boot_on<R: Files + AllocGlobal>(
        &self,
        rt: &R,
        disk: Option<&str>,
    ) -> Result<Core, Fault> {
        self.test_disk(rt.alloc(), disk)?;
        of_disk(rt.alloc(), disk, self.boot(rt, disk))
    }
}

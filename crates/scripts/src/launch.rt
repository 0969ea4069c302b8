//! `Launch`: a run that was read. It boots as often as is wanted, without the host's files.
ghost use Rattle.std.specs.Prelude.{◌≡◌, ◌<◌, ◌≤◌, [], true, length, vec_len, IfOk, IfSome};
ghost use Rattle.std.specs.List.{AllByRecursion};
ghost use Rattle.disk_model.specs.Storage.{is_quiet};
ghost use Rattle.kernel_model.specs.World.{most_programs, terminal_count};

use crate::disk_with::disk_with;
use crate::setup::Words;
use crate::tapes::TapeList;
use crate::words::{Terminal, terminal_of};
use faults::Fault;
use files::FileList;
use kernel::{BootFault, Core, Program, SimDisk};
use kernel_model::MOST_PROGRAMS;
use machine_model::Image;
use std::alloc::{AllocError, Global};

/// A program of a launch.
pub struct LaunchProgram {
    pub image: Image,
    pub terminal: Terminal,
    /// The words of which a script made it.
    pub words: Option<Words>,
}

impl Drop for LaunchProgram {
    fn drop(self) {
        let LaunchProgram {
            image: _image,
            terminal: _,
            words: _words,
        } = self;
    }
}

/// What a run begins with: 1 to 8 programs, their tapes, and the files that the disk holds at the first boot.
pub struct Launch {
    programs: Vec<LaunchProgram>,
    pub tapes: TapeList,
    pub files: FileList,
    ghost some: { 1 ≤ vec_len programs },
    ghost few: { vec_len programs ≤ most_programs },
}

impl Drop for Launch {
    fn drop(self) {
        let Launch {
            programs: _programs,
            tapes: _tapes,
            files: _files,
        } = self;
    }
}

/// Copies of the programs, to be booted once.
fn programs_of(alloc: Global, programs: &[LaunchProgram]) -> Result<Vec<Program>, AllocError>
    ensures len { IfOk result (λ booted. length booted.items ≡ length programs.now) }
    ensures terminals { IfOk result (λ booted. AllByRecursion (λ p. p.terminal < terminal_count) booted.items) }
{
    let mut booted = Vec::new(alloc);
    for program in programs {
        let image = program.image.try_clone(alloc)?;
        let terminal = program.terminal.number;
        booted.push(Program { image, terminal })?;
    }
    Ok(booted)
}

/// The disk that a crash left, or else one that holds these files.
fn disk_of(alloc: Global, left: Option<SimDisk>, files: &FileList) -> Result<SimDisk, Fault>
    requires { IfSome left (λ device. is_quiet device ≡ true) }
    ensures quiet { IfOk result (λ device. is_quiet device ≡ true) }
    ensures left { IfSome left (λ device. IfOk result (λ it. it ≡ device)) }
{
    match left {
        Some(device) => Ok(device),
        None => disk_with(alloc, files),
    }
}

/// Why a boot ends the program.
pub fn boot_fault(fault: BootFault) -> Fault {
    match fault {
        BootFault::Disk(fault) => Fault::from(fault),
        BootFault::OutOfMemory => Fault::OutOfMemory,
    }
}

impl Launch {
    /// These programs, with these tapes, on a disk with these files. None where there is no program, or there are more than eight.
    pub fn new(programs: Vec<LaunchProgram>, tapes: TapeList, files: FileList) -> Option<Launch> {
        if programs.is_empty() || programs.len() > MOST_PROGRAMS {
            return None;
        }
        Some(Launch {
            programs,
            tapes,
            files,
        })
    }

    /// The program of an image, for terminal 0, with empty tapes, on a disk without files.
    pub fn of_image(alloc: Global, image: Image) -> Result<Launch, AllocError> {
        let first = LaunchProgram {
            image,
            terminal: Terminal { number: 0 },
            words: None,
        };
        let programs = vec![in alloc; first]?;
        Ok(Launch {
            programs,
            tapes: TapeList::new(alloc),
            files: FileList::new(alloc),
        })
    }

    /// Adds the program of an image, for the next terminal. False where there are eight already.
    pub fn push_image(&mut self, image: Image) -> Result<bool, AllocError> {
        let count = self.programs.len();
        match terminal_of(count as u32) {
            Some(terminal) if count < MOST_PROGRAMS => {
                self.programs.push(LaunchProgram {
                    image,
                    terminal,
                    words: None,
                })?;
                Ok(true)
            }
            _ => Ok(false),
        }
    }

    pub fn programs(&self) -> &[LaunchProgram] {
        self.programs.as_slice()
    }

    /// Boots the programs, on the disk that a crash left, or on one with the files.
    pub fn boot(&self, alloc: Global, left: Option<SimDisk>) -> Result<Core, Fault>
        requires { IfSome left (λ device. is_quiet device ≡ true) }
        ensures { IfOk result (λ core. core.history ≡ []) }
    {
        let programs = programs_of(alloc, self.programs.as_slice())?;
        let device = disk_of(alloc, left, &self.files)?;
        let tapes = self.tapes.all(alloc)?;
        match Core::boot(alloc, device, programs, tapes) {
            Ok(core) => Ok(core),
            Err(why) => Err(boot_fault(why)),
        }
    }
}

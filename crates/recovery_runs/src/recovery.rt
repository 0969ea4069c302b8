//! The user's recovery.
use crash_points::Promise;
use exec_files::LoadedProgram;
use exec_reports::Family;
use machine_model::Image;
use scripts::Launch;
use std::alloc::{AllocError, Global};

/// The program that is run after each crash, and how far.
#[derive(Drop)]
pub struct RecoveryProgram {
    image: Image,
    /// How many instructions a run of it may have.
    pub limit: u64,
    /// How many crashes of recoveries may come one after the other.
    pub nested: u32,
}

/// The user's recovery.
#[derive(Drop)]
pub struct Recovery {
    pub program: RecoveryProgram,
    /// What is known of its instructions.
    pub family: Family,
}

impl Recovery {
    /// A program as the recovery.
    pub fn new(
        alloc: Global,
        program: LoadedProgram,
        limit: u64,
        nested: u32,
    ) -> Result<Recovery, AllocError> {
        let image = program.image.try_clone(alloc)?;
        let mut programs = Vec::new(alloc);
        programs.push(program)?;
        Ok(Recovery {
            program: RecoveryProgram {
                image,
                limit,
                nested,
            },
            family: Family::new(alloc, programs, 1)?,
        })
    }
}

impl RecoveryProgram {
    /// What a run of it begins with beside the files that a crash left: the promise on its tape.
    pub fn launch(&self, alloc: Global, promise: &Promise) -> Result<Launch, AllocError> {
        let mut launch = Launch::of_image(alloc, self.image.try_clone(alloc)?)?;
        launch.tapes.push(Some(0), Some(promise.tape(alloc)?))?;
        Ok(launch)
    }
}

//! Runs the recovery on a disk.
ghost use Rattle.std.specs.Prelude.{◌≡◌, true, IfSome};
ghost use Rattle.disk_model.specs.Storage.{is_quiet};

use crate::asked::Asked;
use crate::failure::Failure;
use crate::nested::{Nested, NestedCrash};
use crate::pending::Pending;
use crate::recovery::RecoveryProgram;
use crash_points::{CrashPoint, SpareDisk, play_some, play_to_end};
use exec_reports::status_of_run;
use faults::Fault;
use kernel::{Core, SimDisk};
use scripts::Launch;
use std::alloc::Global;

/// What came of a run of the recovery.
#[derive(Drop)]
pub struct Ran {
    pub status: u8,
    pub asked: Asked,
    /// How many of its crashes were tried.
    pub crashes: u64,
    /// What they left, each disk once.
    pub left: Vec<NestedCrash>,
}

/// The core after a crash of a recovery that was just booted.
fn crashed(
    alloc: Global,
    launch: &Launch,
    core: Core,
    point: &CrashPoint,
    limit: u64,
) -> Result<Core, Fault> {
    let mut core = core;
    play_some(&mut core, limit, point.events())?;
    launch.boot(alloc, Some(core.halt(point.fill().bytes())))
}

/// The core after the crashes of a chain, booted first on this disk, or on one with the files that are set up.
fn reach(
    alloc: Global,
    launch: &Launch,
    first: Option<SimDisk>,
    chain: &[CrashPoint],
    limit: u64,
) -> Result<Core, Fault>
    requires { IfSome first (λ device. is_quiet device ≡ true) }
{
    let mut core = launch.boot(alloc, first)?;
    for point in chain {
        core = crashed(alloc, launch, core, point, limit)?;
    }
    Ok(core)
}

/// Runs the recovery on a disk after the crashes of a chain, and tries its crashes where more may come. The files are put on a disk that
/// was used before.
pub fn run_recovery(
    alloc: Global,
    program: &RecoveryProgram,
    disk: &Pending,
    chain: &[CrashPoint],
    spare: &mut SpareDisk,
) -> Result<Ran, Fault> {
    let launch = program.launch(alloc, &disk.promise)?;
    let device = spare.take(alloc, &disk.files)?;
    let mut core = reach(alloc, &launch, Some(device), chain, program.limit)?;
    let before = chain.len() as u64;
    let mut nested = Nested::new(alloc, before, before < u64::from(program.nested));
    let ending = play_to_end(&mut nested, &mut core, program.limit)?;
    let ran = nested.into_ran(status_of_run(&core, ending));
    spare.put_back(core.halt(&[]));
    Ok(ran)
}

/// Runs a recovery that fails once more, and gives what there is to tell of it.
pub fn failure_of(
    alloc: Global,
    program: &RecoveryProgram,
    disk: &Pending,
    chain: Vec<CrashPoint>,
) -> Result<Failure, Fault> {
    let mut launch = program.launch(alloc, &disk.promise)?;
    launch.files = disk.files.try_clone()?;
    let mut core = reach(alloc, &launch, None, chain.as_slice(), program.limit)?;
    let mut nested = Nested::new(alloc, 0, false);
    let ending = play_to_end(&mut nested, &mut core, program.limit)?;
    Ok(Failure {
        point: disk.point(alloc)?,
        chain,
        launch,
        core,
        ending,
    })
}

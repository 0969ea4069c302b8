//! The two programs, others, and cores that are booted with them.
ghost use Rattle.std.specs.Prelude.{◌≡◌, ◌<◌, true, length, IfOk};
ghost use Rattle.std.specs.List.{AllByRecursion};
ghost use Rattle.disk_model.specs.Storage.{is_quiet};
ghost use Rattle.kernel_model.specs.World.{terminal_count};

use crate::fault::Fault;
use bursts::{Done, run_loan};
use kernel::{Core, Program, SimDisk};
use machine_model::Image;
use std::alloc::{AllocError, Global};

/// A program that creates a file `f`, writes 3 bytes to it, of which the first is `A`, writes that byte to its terminal, and exits.
const WRITER: [u32; 19] = [
    0x06600293, 0xfe512e23, 0xffc10513, 0x00100593, 0x00200613, 0x00400893, 0x00000073, 0x04100293,
    0xfe512e23, 0xffc10593, 0x00300613, 0x00200893, 0x00000073, 0x00100513, 0x00100613, 0x00000073,
    0x00000513, 0x00100893, 0x00000073,
];

/// A program that writes `B` to its terminal, and exits.
const PRINTER: [u32; 10] = [
    0x04200293, 0xfe512e23, 0x00100513, 0xffc10593, 0x00100613, 0x00200893, 0x00000073, 0x00000513,
    0x00100893, 0x00000073,
];

/// A program that forks, and exits. So does the process that it makes.
const FORKER: [u32; 5] = [0x00700893, 0x00000073, 0x00000513, 0x00100893, 0x00000073];

/// Both programs, on terminals 0 and 1.
fn programs(alloc: Global) -> Result<Vec<Program>, AllocError>
    ensures count { IfOk result (λ programs. length programs.items ≡ 2) }
    ensures terminals { IfOk result (λ programs. AllByRecursion (λ p. p.terminal < terminal_count) programs.items) }
{
    let mut programs = Vec::new(alloc);
    let image = Image::from_text(alloc, &WRITER)?;
    programs.push(Program { image, terminal: 0 })?;
    let image = Image::from_text(alloc, &PRINTER)?;
    programs.push(Program { image, terminal: 1 })?;
    Ok(programs)
}

/// Eight programs that fork.
fn forkers(alloc: Global) -> Result<Vec<Program>, AllocError>
    ensures count { IfOk result (λ programs. length programs.items ≡ 8) }
    ensures terminals { IfOk result (λ programs. AllByRecursion (λ p. p.terminal < terminal_count) programs.items) }
{
    let mut programs = Vec::new(alloc);
    for terminal in 0..8u32 {
        let image = Image::from_text(alloc, &FORKER)?;
        programs.push(Program { image, terminal })?;
    }
    Ok(programs)
}

fn device(alloc: Global) -> Result<SimDisk, Fault>
    ensures { IfOk result (λ device. is_quiet device ≡ true) }
{
    match SimDisk::zero(alloc) {
        Ok(device) => Ok(device),
        Err(_) => Err(Fault::OutOfMemory),
    }
}

/// A core of both programs.
pub fn boot(alloc: Global) -> Result<Core, Fault> {
    let programs = programs(alloc)?;
    let device = device(alloc)?;
    Ok(Core::boot(alloc, device, programs, Vec::new(alloc))?)
}

/// The bytes of a disk of zeros.
pub fn zeros(alloc: Global) -> Result<Vec<u8>, Fault> {
    let device = device(alloc)?;
    Ok(Vec::from_slice(alloc, device.bytes())?)
}

/// A core of both programs, on a disk of these bytes.
pub fn boot_on(alloc: Global, bytes: &[u8]) -> Result<Core, Fault> {
    let programs = programs(alloc)?;
    match SimDisk::open(alloc, bytes) {
        Ok(device) => Ok(Core::boot(alloc, device, programs, Vec::new(alloc))?),
        Err(_) => Err(Fault::OutOfMemory),
    }
}

/// A core of eight programs that fork.
pub fn boot_forkers(alloc: Global) -> Result<Core, Fault> {
    let programs = forkers(alloc)?;
    let device = device(alloc)?;
    Ok(Core::boot(alloc, device, programs, Vec::new(alloc))?)
}

/// The results of the first two loans of another core, of process 1 and of process 2.
pub fn two_of_another(alloc: Global) -> Result<(Done, Done), Fault> {
    let mut core = boot(alloc)?;
    let first = next_result(&mut core)?;
    Ok((first, next_result(&mut core)?))
}

/// The result of the next loan of this core, of at most 50 instructions.
fn next_result(core: &mut Core) -> Result<Done, Fault> {
    match core.lend(50) {
        Ok(Some(loan)) => Ok(run_loan(loan)),
        Ok(None) => Err(Fault::NothingLent),
        Err(why) => Err(Fault::Refused(why)),
    }
}

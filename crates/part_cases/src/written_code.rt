//! A program that writes over one of its own words: self-modifying code.
use crate::limits::check_each;
use crate::overwriting::check_overwriting_programs;
use crate::programs::program_of;
use crate::replies::OnCall;
use anyhow::{Error, bail};
use formats::Reg;
use machine::{Cause, Machine, Stop};
use machine_model::Rights;
use memory::Space;
use std::alloc::{AllocError, Global};

/// The page's number; its address is 4,096 times that.
const PAGE: u32 = 16;

/// The fourth word is `li a0, 1` until the third has written the last one over it, `li a0, 2`.
const WORDS: [u32; 6] = [
    0x0000_0297, // auipc t0, 0
    0x0142_a303, // lw t1, 20(t0)
    0x0062_a623, // sw t1, 12(t0)
    0x0010_0513, // li a0, 1
    0x0000_0073, // ecall
    0x0020_0513, // li a0, 2
];

/// The page with these words at its beginning, and zeros after them.
fn page(alloc: Global) -> Result<Space, AllocError> {
    let mut bytes = [0; 4096];
    for (k, word) in WORDS.iter().enumerate() {
        bytes[4 * k..4 * k + 4].copy_from_slice(&word.to_le_bytes());
    }
    let rights = Rights {
        read: true,
        write: true,
        execute: true,
    };
    let mut space = Space::new(alloc);
    space.map(alloc, PAGE, rights, &bytes)?;
    Ok(space)
}

/// Runs the program. Compares how many instructions were done, the stop and a0.
fn check_run(alloc: Global, first: &Machine, wanted: (u32, Stop, u32)) -> Result<(), Error> {
    let mut ran = first.try_clone(alloc)?;
    if ran.count() > 1 << 32 {
        bail!("more instructions than are tried here");
    }
    let (done, stop) = ran.run(100);
    let found = (done, stop, ran.reg(Reg::new(10)));
    if found != wanted {
        bail!("a program that writes over its words comes to {found:?}");
    }
    check_each(alloc, first, 100, OnCall::End)?;
    Ok(())
}

/// Loads the program with words that may be written, or may not.
fn load(alloc: Global, write: bool) -> Result<Machine, Error> {
    let image = program_of(alloc, PAGE * 4096, &WORDS, write)?;
    Ok(Machine::load(alloc, &image)?)
}

/// Runs the program whole and to each limit: as an image that is loaded, as one whose words may not be written, and in a memory
/// without decoded words. Then runs random self-modifying programs.
pub fn check_written_code(alloc: Global) -> Result<String, Error> {
    check_run(alloc, &load(alloc, true)?, (4, Stop::Call, 2))?;
    check_run(
        alloc,
        &load(alloc, false)?,
        (2, Stop::Trap(Cause::PageFault), 0),
    )?;
    let plain = Machine::with_space(alloc, PAGE * 4096, page(alloc)?)?;
    check_run(alloc, &plain, (4, Stop::Call, 2))?;
    check_entered(alloc)?;
    check_overwriting_programs(alloc)
}

/// Enters the program anew where it stands at its call, and compares with the program that was loaded.
fn check_entered(alloc: Global) -> Result<(), Error> {
    let image = program_of(alloc, PAGE * 4096, &WORDS, true)?;
    let mut machine = Machine::load(alloc, &image)?;
    if machine.count() > 1 << 32 {
        bail!("more instructions than are tried here");
    }
    machine.run(100);
    if machine.stopped() != Some(Stop::Call) || machine.count() != 4 {
        bail!("a program that writes over its words does not come to its call");
    }
    machine.enter(alloc, &image)?;
    let found = (machine.count(), machine.pc(), machine.reg(Reg::new(10)));
    if found != (5, PAGE * 4096, 0) {
        bail!("a program that was entered anew is at {found:?}");
    }
    let (done, stop) = machine.run(100);
    let found = (done, stop, machine.reg(Reg::new(10)));
    if found != (4, Stop::Call, 2) {
        bail!("a program that was entered anew comes to {found:?}");
    }
    Ok(())
}

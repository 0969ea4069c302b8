//! Random self-modifying code. Stores write the program's own words, also the very next one and words of the sequence in which the
//! store stands. The bytes of replies write them too. Half of the words stand in another page than the rest.
use crate::limits::{check_each, check_growing};
use crate::numbers::Numbers;
use crate::programs::program_of;
use crate::replies::OnCall;
use anyhow::{Error, bail};
use machine::Machine;
use std::alloc::{AllocError, Global};

/// How many programs are tried.
const PROGRAMS: u32 = 2_000;

/// The random words of a program.
const WORDS: u32 = 30;

/// The most instructions that a program does here.
const STEPS: u32 = 150;

/// The address of a program's first word: the twentieth is the last of its page.
pub const FIRST: u32 = 0x0001_0fb0;

/// The bytes of a program: those of `START`, the random words and `END`.
pub const SIZE: u32 = 4 * 39;

/// The first words of each program.
const START: [u32; 6] = [
    0x0000_0617, // auipc x12, 0: the first word
    0x0000_0697, // auipc x13, 0
    0x0030_0493, // addi x9, x0, 3: how often the random words are done
    0x0206_2703, // lw x14, 32(x12): two of the program's words
    0x0306_2783, // lw x15, 48(x12)
    0x0050_0413, // addi x8, x0, 5
];

/// The last words of each program.
const END: [u32; 3] = [
    0xfff4_8493, // addi x9, x9, -1
    0xf804_92e3, // bne x9, x0, -124: back to the random words
    0x0010_0073, // ebreak
];

/// What a program is made of, as in `random`. Results go to x8 and x10, words of the program to x14 and x15; x12 and x13 hold
/// addresses of words.
pub const PATTERNS: &[(u32, u32)] = &[
    // lw x14 or x15, 0..124(x12)
    (0x0006_2703, 0x07c0_0080),
    (0x0006_2703, 0x07c0_0080),
    // sw, sh of x14 or x15 to 0..124(x12)
    (0x00e6_2023, 0x0610_0e00),
    (0x00e6_2023, 0x0610_0e00),
    (0x00e6_1023, 0x0610_0f00),
    // sb of x8 to x15 to 0..127(x12)
    (0x0086_0023, 0x0670_0f80),
    // auipc x13, 0; sw of x14 or x15 to 0..28(x13)
    (0x0000_0697, 0x0000_0000),
    (0x00e6_a023, 0x0010_0e00),
    (0x00e6_a023, 0x0010_0e00),
    // addi, slli, xori, andi of x8 to x15
    (0x0004_0413, 0x0073_8100),
    (0x0004_0413, 0x0073_8100),
    (0x0004_1413, 0x0033_8100),
    (0x0004_4413, 0x0073_8100),
    (0x0004_7413, 0x0073_8100),
    // add, xor, sub, mul
    (0x0084_0433, 0x0073_8100),
    (0x0084_0433, 0x0073_8100),
    (0x0084_4433, 0x0073_8100),
    (0x4084_0433, 0x0073_8100),
    (0x0284_0433, 0x0073_8100),
    // lw x8 or x10, lbu
    (0x0006_2403, 0x07c0_0100),
    (0x0006_4403, 0x0070_0100),
    // beq, bne, bltu two words forward, jal x0 two words forward
    (0x0084_0463, 0x0073_8000),
    (0x0084_1463, 0x0073_8000),
    (0x0084_6463, 0x0073_8000),
    (0x0080_006f, 0x0000_0000),
    // fence.i, ecall
    (0x0000_100f, 0x0000_0000),
    (0x0000_0073, 0x0000_0000),
    (0x0000_0073, 0x0000_0000),
];

fn program(alloc: Global, numbers: &mut Numbers) -> Result<Vec<u32>, AllocError> {
    let mut words = Vec::from_slice(alloc, &START)?;
    for _ in 0..WORDS {
        words.push(numbers.word(PATTERNS))?;
    }
    words.extend_from_slice(&END)?;
    Ok(words)
}

/// Runs a program to each limit, and in longer and longer runs. Says how many limits there were.
fn check_program(alloc: Global, seed: u32) -> Result<u32, Error> {
    let mut numbers = Numbers::new(seed);
    let words = program(alloc, &mut numbers)?;
    let image = program_of(alloc, FIRST, words.as_slice(), true)?;
    let first = Machine::load(alloc, &image)?;
    let limits = check_each(alloc, &first, STEPS, OnCall::Overwrite(seed))?;
    check_growing(alloc, &first, STEPS, OnCall::Overwrite(seed))?;
    Ok(limits)
}

/// Checks each program. Says how many limits there were.
pub fn check_overwriting_programs(alloc: Global) -> Result<String, Error> {
    let mut count = 0u64;
    for seed in 1..PROGRAMS + 1 {
        match check_program(alloc, seed) {
            Ok(limits) => count = count.saturating_add(u64::from(limits)),
            Err(error) => bail!("overwriting program {seed}: {error}"),
        }
    }
    Ok(format!(in alloc; "{PROGRAMS} programs that write over their words: {count} limits")?)
}

//! Random programs, half of them made of whole sequences (superinstructions). They jump to near words, also into the middle of a
//! sequence and past the program's end. Their accesses pass the end of a page, are not aligned, or are forbidden.
use crate::limits::check_each;
use crate::numbers::Numbers;
use crate::replies::OnCall;
use anyhow::{Error, bail};
use machine::{Image, Machine};
use std::alloc::Global;

/// How many programs are tried.
const PROGRAMS: u32 = 2_000;

/// The most words, or sequences of words, that a program has after its first ones.
const WORDS: u32 = 40;

/// The most instructions that a program does here.
const STEPS: u32 = 120;

/// The first words of each program: registers that hold the ends of pages of the stack and of the text.
const START: [u32; 6] = [
    0x7fff_d437, // lui x8, 0x7fffd: the second page of the stack
    0x8000_04b7, // lui x9, 0x80000: where the stack ends
    0xff84_8493, // addi x9, x9, -8
    0x0001_1537, // lui x10, 0x11: the end of the text's page
    0x0030_0593, // addi x11, x0, 3
    0x7fff_c637, // lui x12, 0x7fffc: where the stack begins
];

/// What a program is made of: words without registers and numbers, and the bits that are filled in at random. Those of
/// registers name x8 to x15.
const PATTERNS: &[(u32, u32)] = &[
    // addi, andi, xori, ori, slti, sltiu
    (0x0004_0413, 0x0ff3_8380),
    (0x0004_0413, 0x0003_8380),
    (0x0004_7413, 0x0ff3_8380),
    (0x0004_4413, 0xfff3_8380),
    (0x0004_6413, 0x00f3_8380),
    (0x0004_2413, 0xff03_8380),
    (0x0004_3413, 0x00f3_8380),
    // slli, srli, srai
    (0x0004_1413, 0x0033_8380),
    (0x0004_5413, 0x01f3_8380),
    (0x4004_5413, 0x00f3_8380),
    // add (twice as often), sub, xor, or, and, srl, mul, remu, div, mulhu, of two registers
    (0x0084_0433, 0x0073_8380),
    (0x0084_0433, 0x0073_8380),
    (0x4084_0433, 0x0073_8380),
    (0x0084_4433, 0x0073_8380),
    (0x0084_6433, 0x0073_8380),
    (0x0084_7433, 0x0073_8380),
    (0x0084_5433, 0x0073_8380),
    (0x0284_0433, 0x0073_8380),
    (0x0284_7433, 0x0073_8380),
    (0x0284_4433, 0x0073_8380),
    (0x0284_3433, 0x0073_8380),
    // sll, slt, sltu, sra, mulh, mulhsu, divu, rem
    (0x0084_1433, 0x0073_8380),
    (0x0084_2433, 0x0073_8380),
    (0x0084_3433, 0x0073_8380),
    (0x4084_5433, 0x0073_8380),
    (0x0284_1433, 0x0073_8380),
    (0x0284_2433, 0x0073_8380),
    (0x0284_5433, 0x0073_8380),
    (0x0284_6433, 0x0073_8380),
    // lw, lh, lbu, lb, lhu at small offsets from x8 to x12, the first of them aligned mostly
    (0x0004_2403, 0x00c2_0380),
    (0x0004_2403, 0xffc1_8380),
    (0x0004_1403, 0xffe1_8380),
    (0x0004_4403, 0x0073_8380),
    (0x0004_0403, 0xfff0_8380),
    (0x0004_5403, 0x00e1_8380),
    // sw, sh, sb
    (0x0084_2023, 0x0070_8600),
    (0x0084_2023, 0xfe71_8e00),
    (0x0084_1023, 0x0070_8700),
    (0x0084_0023, 0x0071_8f80),
    // beq, blt, bne, bge, bltu, bne, bgeu: two words or so forward, or back
    (0x0084_0463, 0x0073_8400),
    (0x0084_4463, 0x0073_8400),
    (0x0084_1463, 0x0073_8400),
    (0x0084_5463, 0x0073_8c00),
    (0xfe84_6ce3, 0x0073_8400),
    (0xfe84_1ae3, 0x0073_8400),
    (0x0084_7463, 0x0073_8600),
    // jal x0 and x8 to near words, jalr to a register, lui, auipc
    (0x0080_006f, 0x0040_0000),
    (0x0080_006f, 0x0040_0400),
    (0xff9f_f0ef, 0x0040_0000),
    (0x0005_0067, 0x0010_8000),
    (0x0000_0437, 0x0000_7380),
    (0x0000_0417, 0x0000_3380),
    // addi x0, fence, fence.i, ecall
    (0x0010_0013, 0x00f0_0000),
    (0x0ff0_000f, 0x0000_0000),
    (0x0000_100f, 0x0000_0000),
    (0x0000_0073, 0x0000_0000),
];

/// Words in a row that the machine's loop does as one operation, each by the number of its pattern.
const SEQUENCES: &str = "\
    0,0 38,10,10,45 29,0 7,10 17,10,41 0,41 29,29 0,10 10,0,16,2 7,10,29 35,35 31,31,0,0 0,39,29,46 10,41 0,13,17,41 \
    32,0,0,39 29,29,0,0 32,41,0,0 0,2 0,17,9,12 29,0,0,0 7,0,10 0,0,0 7,0,42 10,10 12,42 0,29 35,0 32,39,0,0 38,0,41 \
    14,41 10,29,0,12 7,8 0,43 7,10,7,7 18,10,18,41 0,35 7,10,29,49 7,10,29,41 29,0,42,29 0,18,0,41 35,35,42,0 \
    18,0,38,41 32,41 0,13,8,39 0,2,39 10,29 35,35,35,35 17,0,10,8 29,29,29,29 0,39 10,10,29,29 45,35,0,42 7,10,0,29 \
    29,39 35,0,0,0 7,8,14 7,0,10,40 2,7,0,10 29,0,49 10,35 39,29,0 35,35,0,0 10,29,29 10,41,0,41 32,0,0 29,0,39 \
    0,29,0,49 0,7,10 0,40 29,0,0 0,0,41 32,39 10,10,41 0,0,10 29,41 32,41,0 0,46 42,0,0,0 7,10,29,39 39,0,0 10,45 \
    2,10 0,35,35,35 10,0 10,29,41 10,7,10 29,0,17 29,29,0,10 38,0";

/// How many sequences there are.
const SEQUENCE_COUNT: usize = 90;

/// The program of a seed. Every second one is made of whole sequences.
fn program(alloc: Global, seed: u32) -> Result<Vec<u32>, Error> {
    let mut numbers = Numbers::new(seed);
    let mut words = Vec::from_slice(alloc, &START)?;
    for _ in 0..1 + seed % WORDS {
        if seed % 2 == 0 {
            words.push(numbers.word(PATTERNS))?;
        } else {
            add_sequence(&mut words, &mut numbers)?;
        }
    }
    Ok(words)
}

/// Adds the words of a sequence.
fn add_sequence(words: &mut Vec<u32>, numbers: &mut Numbers) -> Result<(), Error> {
    let place = numbers.next() as usize % SEQUENCE_COUNT;
    let sequence = SEQUENCES.split_whitespace().nth(place).unwrap_or("");
    for number in sequence.split(',') {
        if let Some(pattern) = PATTERNS.get(number.parse::<usize>()?) {
            words.push(numbers.filled(*pattern))?;
        }
    }
    Ok(())
}

/// Runs each program to each limit. Says how many limits there were.
fn check_programs(alloc: Global) -> Result<u64, Error> {
    let mut count = 0u64;
    for seed in 1..PROGRAMS + 1 {
        let words = program(alloc, seed)?;
        if words.is_empty() || words.len() > 61_440 {
            continue;
        }
        let image = Image::from_text(alloc, words.as_slice())?;
        let first = Machine::load(alloc, &image)?;
        match check_each(alloc, &first, STEPS, OnCall::End) {
            Ok(limits) => count = count.saturating_add(u64::from(limits)),
            Err(error) => bail!("random program {seed}: {error}"),
        }
    }
    Ok(count)
}

/// Runs random programs to each limit, and gives a line that says how many limits there were.
pub fn check_random_programs(alloc: Global) -> Result<String, Error> {
    let count = check_programs(alloc)?;
    Ok(format!(in alloc; "{PROGRAMS} random programs: {count} limits")?)
}

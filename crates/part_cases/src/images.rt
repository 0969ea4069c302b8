//! Tests machines of images: runs to their first limits, and longer and longer runs.
use crate::limits::{check_each, check_growing};
use crate::replies::OnCall;
use anyhow::Error;
use machine::Machine;
use std::fs;
use std::rt::Files;

/// How many instructions of an image are tried at each limit, and how many in longer and longer runs.
const EACH: u32 = 1_500;

const WHOLE: u32 = 1_000_000;

/// Runs the image of this file. Gives a line that says how many limits and how many instructions there were.
pub fn check_image<R: Files + AllocGlobal>(rt: &R, name: &str) -> Result<String, Error> {
    let alloc = rt.alloc();
    let file = fs::read(rt, name)?;
    let image = elf32::parse(alloc, file.as_slice())?;
    let first = Machine::load(alloc, &image)?;
    let count = check_each(alloc, &first, EACH, OnCall::End)?;
    let whole = check_growing(alloc, &first, WHOLE, OnCall::End)?;
    Ok(format!(in alloc; "{name}: {count} limits, {whole} instructions")?)
}

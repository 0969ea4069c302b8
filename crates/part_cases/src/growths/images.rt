//! Calls that make an image of a source, a file of the image, and a machine.
use anyhow::{Error, ensure};
use assembler::{AsmFault, Cause, assemble};
use elf32::{ElfFault, parse, write};
use machine::{Image, Machine};
use std::alloc::{AllocError, Global};

/// A loop of four instructions, which counts on the stack how often it went round; and a word of data.
pub const LOOP: &str =
    "_start: addi t0,t0,1\nsw t0,-4(sp)\naddi t1,t1,1\nj _start\n.data\nword: .word 0x66\n";

fn assemble_once(alloc: Global, source: &str) -> Result<Image, AsmFault> {
    let (image, _listing) = assemble(alloc, source)?;
    Ok(image)
}

/// The image of a source.
pub fn assembled(alloc: Global, source: &str) -> Result<Image, AsmFault> {
    match assemble_once(alloc, source) {
        Err(fault) if fault.why == Cause::OutOfMemory => assemble_once(alloc, source),
        image => image,
    }
}

fn write_once(alloc: Global, image: &Image) -> Result<Vec<u8>, AllocError> {
    write(alloc, image)
}

fn written(alloc: Global, image: &Image) -> Result<Vec<u8>, AllocError> {
    match write_once(alloc, image) {
        Err(_) => write_once(alloc, image),
        file => file,
    }
}

fn parse_once(alloc: Global, file: &[u8]) -> Result<Image, ElfFault> {
    parse(alloc, file)
}

fn parsed(alloc: Global, file: &[u8]) -> Result<Image, ElfFault> {
    match parse_once(alloc, file) {
        Err(ElfFault::OutOfMemory) => parse_once(alloc, file),
        image => image,
    }
}

fn load_once(alloc: Global, image: &Image) -> Result<Machine, AllocError> {
    Machine::load(alloc, image)
}

fn loaded(alloc: Global, image: &Image) -> Result<Machine, AllocError> {
    match load_once(alloc, image) {
        Err(_) => load_once(alloc, image),
        machine => machine,
    }
}

/// A source's image is written, read again and loaded: it has the same file and the same first state.
pub fn check_image(alloc: Global) -> Result<(), Error> {
    let image = assembled(alloc, LOOP)?;
    let file = written(alloc, &image)?;
    ensure!(file.len() == 8196, "the file has another length");
    let again = parsed(alloc, file.as_slice())?;
    ensure!(
        written(alloc, &again)?.as_slice() == file.as_slice(),
        "the file is read otherwise"
    );
    let machine = loaded(alloc, &image)?;
    ensure!(
        machine.is_same(&loaded(alloc, &again)?),
        "the image is loaded otherwise"
    );
    Ok(())
}

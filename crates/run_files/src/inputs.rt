//! The files that a command reads, of which one may be standard input, by the path `-`.
ghost use Rattle.std.specs.Prelude.{◌≡◌, ◌≤◌, length, IfOk};
ghost use Rattle.kernel_model.specs.World.{tape_count};

use byte_list::Bytes;
use elf32::MOST_LINKED_BYTES;
use exec_files::{LoadedProgram, program_of, refused};
use faults::{Fault, Refusal, at_path};
use host_files::{FileKind, kind_of};
use input_reading::{MOST_TAPE_BYTES, bytes_in};
use std::alloc::Global;
use std::fs;
use std::io::{self, Read};
use std::rt::Files;

/// How standard input is named where it is read as a file.
const STANDARD_INPUT: &str = "standard input";

/// Standard input, which at most one file of a command is. None once it was read, or where it has the commands of a session.
#[derive(Drop)]
pub struct Input<'i, I> {
    reader: Option<&'i mut I>,
}

impl<'i, I: Read> Input<'i, I> {
    pub fn new(reader: &'i mut I) -> Input<'i, I> {
        Input {
            reader: Some(reader),
        }
    }

    /// Standard input that is no file of the command.
    pub fn none() -> Input<'i, I> {
        Input { reader: None }
    }

    fn take(&mut self, alloc: Global) -> Result<&'i mut I, Fault> {
        match self.reader.take() {
            Some(reader) => Ok(reader),
            None => Err(refused(
                alloc,
                STANDARD_INPUT,
                "it is read for something else already",
            )),
        }
    }
}

/// How the file at a path is named.
pub fn name_of(path: &str) -> &str {
    match path {
        "-" => STANDARD_INPUT,
        path => path,
    }
}

/// Adds bytes of a file, at most so many.
fn read_some<F: Read>(file: &mut F, bytes: &mut Vec<u8>, most: usize) -> io::Result<()> {
    file.take((most as u64).saturating_add(1))
        .read_to_end(bytes)?;
    Ok(())
}

/// The bytes of a file: all of a script, which may be of any length, and of another file one more than the longest program has.
fn bytes_of<F: Read>(alloc: Global, file: &mut F) -> io::Result<Vec<u8>> {
    let mut bytes = Vec::new(alloc);
    read_some(file, &mut bytes, MOST_LINKED_BYTES)?;
    if kind_of(bytes.as_slice()) == FileKind::Script {
        file.read_to_end(&mut bytes)?;
    }
    Ok(bytes)
}

fn open_and_read<R: Files + AllocGlobal>(rt: &R, path: &str) -> io::Result<Vec<u8>> {
    bytes_of(rt.alloc(), &mut fs::open(rt, path)?)
}

/// The bytes of a program's file, or of a script's.
pub fn file_in<R: Files + AllocGlobal, I: Read>(
    rt: &R,
    path: &str,
    input: &mut Input<'_, I>,
) -> Result<Vec<u8>, Fault> {
    let read = match path {
        "-" => bytes_of(rt.alloc(), input.take(rt.alloc())?),
        path => open_and_read(rt, path),
    };
    at_path(rt.alloc(), name_of(path), read)
}

/// The program in a file, of whatever kind: an image, an executable, or a source.
pub fn program_in<R: Files + AllocGlobal, I: Read>(
    rt: &R,
    path: &str,
    input: &mut Input<'_, I>,
) -> Result<LoadedProgram, Fault> {
    let file = file_in(rt, path, input)?;
    program_of(rt.alloc(), name_of(path), file.as_slice())
}

/// A tape of the bytes that were read of a file. InputOutput where there are more than a tape may have.
fn tape_of(alloc: Global, path: &str, read: io::Result<Vec<u8>>) -> Result<Bytes, Fault> {
    let bytes = at_path(alloc, path, read)?;
    if bytes.len() > MOST_TAPE_BYTES {
        let why = "a tape has at most 65536 bytes, and this file has more";
        return Err(Fault::of_file(alloc, Refusal::InputOutput, path, why));
    }
    Ok(Bytes::new(bytes))
}

fn tape_bytes<F: Read>(alloc: Global, file: &mut F) -> io::Result<Vec<u8>> {
    let mut bytes = Vec::new(alloc);
    read_some(file, &mut bytes, MOST_TAPE_BYTES)?;
    Ok(bytes)
}

fn tape_in<R: Files + AllocGlobal, I: Read>(
    rt: &R,
    path: &str,
    input: &mut Input<'_, I>,
) -> Result<Bytes, Fault> {
    let alloc = rt.alloc();
    let read = match path {
        "-" => tape_bytes(alloc, input.take(alloc)?),
        path => bytes_in(rt, path, MOST_TAPE_BYTES),
    };
    tape_of(alloc, name_of(path), read)
}

/// The tapes of a run, in order; one without a file is empty.
pub fn tapes_in<R: Files + AllocGlobal, I: Read>(
    rt: &R,
    paths: &[Option<&str>],
    input: &mut Input<'_, I>,
) -> Result<Vec<Bytes>, Fault>
    requires { length paths.now ≤ tape_count }
    ensures { IfOk result (λ tapes. length tapes.items ≤ tape_count) }
{
    let mut tapes = Vec::new(rt.alloc());
    for path in paths {
        let tape = match path {
            Some(path) => tape_in(rt, path, input)?,
            None => Bytes::new(Vec::new(rt.alloc())),
        };
        tapes.push(tape)?;
    }
    Ok(tapes)
}

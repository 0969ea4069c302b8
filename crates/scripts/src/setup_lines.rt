//! What is set up, as the lines of a script.
use crate::launch::{Launch, LaunchProgram};
use crate::printing::bytes_text;
use files::FileList;
use std::alloc::Global;
use std::io;
use std::io::Write;

/// Writes the line of a file to be there at the first boot.
fn write_file<W: Write>(alloc: Global, name: &[u8], bytes: &[u8], out: &mut W) -> io::Result<()> {
    let digits = bytes_text(alloc, bytes)?;
    out.write_all(b"file ")?;
    out.write_all(name)?;
    writeln!(out, " {digits}")
}

fn write_files<W: Write>(alloc: Global, files: &FileList, out: &mut W) -> io::Result<()> {
    for place in 0..files.count() {
        write_file(alloc, files.name(place), files.bytes(place), out)?;
    }
    Ok(())
}

fn write_program<W: Write>(alloc: Global, program: &LaunchProgram, out: &mut W) -> io::Result<()> {
    let terminal = program.terminal.number;
    if let Some(words) = &program.words {
        write!(out, "program {terminal}")?;
        for word in words.as_slice() {
            write!(out, " {word:08x}")?;
        }
        return writeln!(out);
    }
    let digits = bytes_text(alloc, &elf32::write(alloc, &program.image)?)?;
    writeln!(out, "binary {terminal} {digits}")
}

/// Writes the set-up lines of a script that sets up the same. An image stands in its line.
pub fn write_launch<W: Write>(alloc: Global, launch: &Launch, out: &mut W) -> io::Result<()> {
    write_files(alloc, &launch.files, out)?;
    for program in launch.programs() {
        write_program(alloc, program, out)?;
    }
    for tape in launch.tapes.as_slice() {
        let number = tape.number;
        let digits = bytes_text(alloc, tape.bytes.as_slice())?;
        writeln!(out, "tape {number} {digits}")?;
    }
    Ok(())
}

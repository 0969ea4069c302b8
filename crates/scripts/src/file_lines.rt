//! Prints a list of files, a line each.
use files::FileList;
use std::io;
use std::io::Write;

/// Writes a line for each file, in order of creation: its name, and its length.
pub fn write_files<O: Write>(files: &FileList, out: &mut O) -> io::Result<()> {
    for place in 0..files.count() {
        let length = files.length(place);
        out.write_all(files.name(place))?;
        writeln!(out, " {length}")?;
    }
    Ok(())
}

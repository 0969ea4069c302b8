//! Folders of the host into which a command writes files.
use faults::{Fault, Refusal};
use std::fs;
use std::io::ErrorKind;
use std::rt::Files;

/// Whether there is a folder at a path.
fn is_folder<R: Files>(rt: &R, path: &str) -> bool {
    match fs::metadata(rt, path) {
        Ok(there) => there.is_dir(),
        Err(_) => false,
    }
}

/// Makes a folder, unless it is there. The folder in which it stands is not made.
pub fn make_folder<R: Files + AllocGlobal>(rt: &R, path: &str) -> Result<(), Fault> {
    match fs::create_dir(rt, path) {
        Ok(()) => Ok(()),
        Err(_) if is_folder(rt, path) => Ok(()),
        Err(error) if error.kind() == ErrorKind::AlreadyExists => {
            let why = "it is a file, and no folder";
            Err(Fault::of_file(rt.alloc(), Refusal::InputOutput, path, why))
        }
        Err(error) => Err(Fault::from(error).at(rt.alloc(), path)),
    }
}

//! `OutputFile`: a file that a command writes beside its place, and puts there once it is whole.
use faults::{Fault, Refusal, at_path};
use std::alloc::Global;
use std::fs::{OpenFile, OpenOptions, Permissions};
use std::io::{ErrorKind, Write};
use std::os::unix::fs::{OpenOptionsExt, PermissionsExt};
use std::rt::Files;
use std::{fs, io};

/// The ending of the file beside another one, under which it is written.
pub const NEW: &str = ".new";

/// A file that is being written. Its path has `.new` after it until `keep` renames it. If it is dropped before, it is removed, and what
/// stood at the path stays. A device or a link at the path is written to directly, and stays.
pub struct OutputFile<'a, R: Files> {
    rt: &'a R,
    path: &'a str,
    /// The path with `.new` after it, unless the file is written to directly.
    beside: Option<String>,
    file: R::File,
}

impl<R: Files> Drop for OutputFile<'_, R> {
    fn drop(self) {
        if let Some(beside) = &self.beside {
            // If it cannot be removed, it stays; the next run makes it anew.
            let _ = fs::remove_file(self.rt, beside.as_str());
        }
        let OutputFile {
            rt: _,
            path: _,
            beside: _beside,
            file: _file,
        } = self;
    }
}

/// The fault of an empty path, which no file has.
pub fn no_path(alloc: Global) -> Fault {
    let text = String::from_str(alloc, "an empty path names no file");
    Fault::saying(Refusal::InputOutput, text)
}

/// The fault where the file with this ending beside the one at a path cannot be made, or used.
pub fn beside_fault(
    alloc: Global,
    path: &str,
    ending: &str,
    done: &str,
    error: io::Error,
) -> Fault {
    match error.kind() {
        ErrorKind::OutOfMemory => Fault::OutOfMemory,
        _ => {
            let said = format!(in alloc;
                "the file {path}{ending} beside it cannot be {done}: {error}"
            );
            Fault::saying(Refusal::InputOutput, said).at(alloc, path)
        }
    }
}

/// The rights of the file of a path, if there is one.
fn rights_of<R: Files>(rt: &R, path: &str) -> io::Result<Option<Permissions>> {
    match fs::metadata(rt, path) {
        Ok(metadata) => Ok(Some(metadata.permissions())),
        Err(error) if error.kind() == ErrorKind::NotFound => Ok(None),
        Err(error) => Err(error),
    }
}

/// Removes what stands at a path, if anything does. A link is removed, and not what it leads to.
fn remove_if_there<R: Files>(rt: &R, path: &str) -> io::Result<()> {
    match fs::remove_file(rt, path) {
        Err(error) if error.kind() == ErrorKind::NotFound => Ok(()),
        removed => removed,
    }
}

/// Makes a file anew, in the place of what stands at its path. No link is followed. The file has these rights, or those of any new
/// file.
fn make_anew<R: Files>(rt: &R, path: &str, rights: Option<Permissions>) -> io::Result<R::File> {
    remove_if_there(rt, path)?;
    let mut options = OpenOptions::new();
    options.write(true).create_new(true);
    match rights {
        Some(rights) => {
            let file = options.mode(rights.mode()).open(rt, path)?;
            file.set_permissions(rights)?;
            Ok(file)
        }
        None => options.open(rt, path),
    }
}

/// Opens what stands at a path to write to it. What a link leads to is made, if it is not there.
fn open_there<R: Files>(rt: &R, path: &str) -> io::Result<R::File> {
    OpenOptions::new().write(true).create(true).open(rt, path)
}

impl<'a, R: Files + AllocGlobal> OutputFile<'a, R> {
    /// Makes the file with the rights of the one at its path, for which a link at the path makes way. InputOutput where that cannot be
    /// done, or where the path is empty.
    pub fn beside(rt: &'a R, path: &'a str) -> Result<OutputFile<'a, R>, Fault> {
        if path.is_empty() {
            return Err(no_path(rt.alloc()));
        }
        let alloc = rt.alloc();
        let rights = at_path(alloc, path, rights_of(rt, path))?;
        let beside = format!(in alloc; "{path}{NEW}")?;
        match make_anew(rt, beside.as_str(), rights) {
            Ok(file) => Ok(OutputFile {
                rt,
                path,
                beside: Some(beside),
                file,
            }),
            // (the folder is not there)
            Err(error) if error.kind() == ErrorKind::NotFound => {
                Err(Fault::from(error).at(alloc, path))
            }
            Err(error) => Err(beside_fault(alloc, path, NEW, "made", error)),
        }
    }

    /// The same, but a device or a link at the path is opened as it is, and a file there that may not be written is refused.
    pub fn open(rt: &'a R, path: &'a str) -> Result<OutputFile<'a, R>, Fault> {
        let alloc = rt.alloc();
        let is_file = match fs::symlink_metadata(rt, path) {
            Ok(there) => there.is_file(),
            Err(error) if error.kind() == ErrorKind::NotFound => {
                return OutputFile::beside(rt, path);
            }
            Err(error) => return Err(Fault::from(error).at(alloc, path)),
        };
        let file = at_path(alloc, path, open_there(rt, path))?;
        if is_file {
            return OutputFile::beside(rt, path);
        }
        Ok(OutputFile {
            rt,
            path,
            beside: None,
            file,
        })
    }

    /// Empties the file, which holds something only where a link leads to it.
    pub fn empty(&self) -> Result<(), Fault> {
        let emptied = match self.file.metadata() {
            Ok(there) if there.is_file() => self.file.set_len(0),
            Ok(_) => Ok(()),
            Err(error) => Err(error),
        };
        at_path(self.rt.alloc(), self.path, emptied)
    }

    /// The open file once more, for what writes it while a run goes on.
    pub fn try_clone(&self) -> Result<R::File, Fault> {
        at_path(self.rt.alloc(), self.path, self.file.try_clone())
    }

    /// Puts the file in its place.
    pub fn keep(mut self) -> Result<(), Fault> {
        if let Some(beside) = &self.beside {
            let renamed = fs::rename(self.rt, beside.as_str(), self.path);
            at_path(self.rt.alloc(), self.path, renamed)?;
        }
        self.beside = None;
        Ok(())
    }

    /// Writes these bytes, and puts the file in its place.
    pub fn keep_with(mut self, bytes: &[u8]) -> Result<(), Fault> {
        at_path(self.rt.alloc(), self.path, self.file.write_all(bytes))?;
        self.keep()
    }

    /// The same, with the bytes on the host's disk before the file takes its place.
    pub fn keep_synced(mut self, bytes: &[u8]) -> Result<(), Fault> {
        let (alloc, path) = (self.rt.alloc(), self.path);
        at_path(alloc, path, self.file.write_all(bytes))?;
        at_path(alloc, path, self.file.sync_all())?;
        self.keep()
    }
}

impl<R: Files> Write for OutputFile<'_, R> {
    fn write(&mut self, buf: &[u8]) -> io::Result<usize> {
        self.file.write(buf)
    }

    fn flush(&mut self) -> io::Result<()> {
        self.file.flush()
    }
}

/// Writes a file whole, as an `OutputFile`.
pub fn write_file<R: Files + AllocGlobal>(rt: &R, path: &str, bytes: &[u8]) -> Result<(), Fault> {
    let file = OutputFile::open(rt, path)?;
    file.empty()?;
    file.keep_with(bytes)
}

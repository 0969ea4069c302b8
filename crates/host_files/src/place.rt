//! `Place`: the file to which a path leads, or would lead.
use crate::output_file::NEW;
use faults::{Fault, at_path};
use std::fs::{self, Metadata};
use std::io::{self, ErrorKind};
use std::os::unix::fs::MetadataExt;
use std::path::PathBuf;
use std::rt::Files;

/// The most links in a row that are followed, as Linux has it.
const MOST_LINKS: u32 = 40;

/// Where a path leads.
#[derive(Drop)]
pub struct Place {
    /// The path with its folder without links. A file that is written beside the one at the path is in that folder.
    given: String,
    /// The path without links; of a device, and of a path to no folder, as it is given.
    whole: String,
    /// Of a file that is there.
    file: Option<Metadata>,
}

/// A path without links, or as it is given where nothing is there.
fn whole_path<R: Files + AllocGlobal>(rt: &R, path: &str) -> io::Result<String> {
    match fs::canonicalize(rt, path) {
        Ok(whole) => Ok(whole.into_string()),
        Err(error) if error.kind() == ErrorKind::NotFound => Ok(String::from_str(
            rt.alloc(),
            path,
        )?),
        Err(error) => Err(error),
    }
}

/// The path at the end of a row of links, the last of which leads to nothing.
fn end_of_links<R: Files + AllocGlobal>(rt: &R, path: &str) -> io::Result<PathBuf> {
    let mut end = PathBuf::from_str(rt.alloc(), path)?;
    for _ in 0..MOST_LINKS {
        match fs::read_link(rt, end.as_path()) {
            Ok(next) => {
                end.pop();
                end.push(next.as_path())?;
            }
            Err(error) if error.kind() == ErrorKind::OutOfMemory => return Err(error),
            Err(_) => break,
        }
    }
    Ok(end)
}

/// A path with its folder without links.
fn in_its_folder<R: Files + AllocGlobal>(rt: &R, path: PathBuf) -> io::Result<String> {
    let (Some(folder), Some(name)) = (path.parent(), path.file_name()) else {
        return Ok(path.into_string());
    };
    let folder = match folder.as_str() {
        "" => whole_path(rt, ".")?,
        folder => whole_path(rt, folder)?,
    };
    let mut whole = PathBuf::from_str(rt.alloc(), folder.as_str())?;
    whole.push(name)?;
    Ok(whole.into_string())
}

fn place_of<R: Files + AllocGlobal>(rt: &R, path: &str) -> io::Result<Place> {
    let given = in_its_folder(rt, PathBuf::from_str(rt.alloc(), path)?)?;
    let (whole, file) = match fs::metadata(rt, path) {
        Ok(there) if there.is_file() => (whole_path(rt, path)?, Some(there)),
        Ok(_) => (String::from_str(rt.alloc(), path)?, None),
        Err(error) if error.kind() == ErrorKind::NotFound => {
            (in_its_folder(rt, end_of_links(rt, path)?)?, None)
        }
        Err(error) => return Err(error),
    };
    Ok(Place { given, whole, file })
}

impl Place {
    /// Where a path leads.
    pub fn of<R: Files + AllocGlobal>(rt: &R, path: &str) -> Result<Place, Fault> {
        at_path(rt.alloc(), path, place_of(rt, path))
    }

    /// Whether both are one file that is there, by whatever names.
    fn is_one_file(&self, other: &Place) -> bool {
        match (&self.file, &other.file) {
            (Some(one), Some(other)) => one.dev() == other.dev() && one.ino() == other.ino(),
            _ => false,
        }
    }

    /// Whether a path is that of the file beside this one.
    fn has_beside(&self, path: &str) -> bool {
        path.strip_suffix(NEW) == Some(self.given.as_str())
    }

    /// Whether a file that is written here would be written over the other one, or the file beside it would.
    pub fn writes_over(&self, other: &Place) -> bool {
        self.whole.as_str() == other.whole.as_str()
            || self.has_beside(other.given.as_str())
            || self.has_beside(other.whole.as_str())
            || self.is_one_file(other)
    }
}

/// Whether a file that is written at a path would be written over the one at another.
pub fn writes_over<R: Files + AllocGlobal>(rt: &R, path: &str, other: &str) -> Result<bool, Fault> {
    Ok(Place::of(rt, path)?.writes_over(&Place::of(rt, other)?))
}

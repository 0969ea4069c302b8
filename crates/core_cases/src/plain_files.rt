//! The plain fold of changes to files, whose result is compared with the files that a disk holds.
use files::FileList;
use std::alloc::{AllocError, Global};

/// A file of the fold: its name, a letter, and its bytes.
#[derive(Drop)]
pub struct PlainFile {
    pub name: u8,
    pub bytes: Vec<u8>,
}

impl PlainFile {
    /// Writes these bytes from an offset on, in the plainest way.
    fn write(&mut self, offset: usize, bytes: &[u8]) -> Result<(), AllocError> {
        let end = offset.saturating_add(bytes.len());
        if self.bytes.len() < end {
            self.bytes.resize(end, 0)?;
        }
        for (place, byte) in bytes.iter().enumerate() {
            if let Some(old) = self.bytes.get_mut(offset.saturating_add(place)) {
                *old = *byte;
            }
        }
        Ok(())
    }
}

fn file_named(files: &mut [PlainFile], name: u8) -> Option<&mut PlainFile> {
    for file in files {
        if file.name == name {
            return Some(file);
        }
    }
    None
}

/// Writes these bytes to the file of this name, from an offset on.
pub fn write(
    files: &mut [PlainFile],
    name: u8,
    offset: usize,
    bytes: &[u8],
) -> Result<(), AllocError> {
    match file_named(files, name) {
        Some(file) => file.write(offset, bytes),
        None => Ok(()),
    }
}

/// Makes a file of this name after the others, or empties it where it is there.
pub fn make(alloc: Global, files: &mut Vec<PlainFile>, name: u8) -> Result<(), AllocError> {
    let bytes = Vec::new(alloc);
    match file_named(files, name) {
        Some(file) => {
            file.bytes = bytes;
            Ok(())
        }
        None => Ok(files.push(PlainFile { name, bytes })?),
    }
}

/// Takes the file of this name away.
pub fn remove(files: &mut Vec<PlainFile>, name: u8) {
    files.retain(|file| file.name != name);
}

/// Gives the file of an old name a new one, and takes away the file that had the new name. No place of a file is used here: so what
/// changes say by places is compared with what programs say by names.
pub fn rename(files: &mut Vec<PlainFile>, old: u8, new: u8) {
    remove(files, new);
    if let Some(file) = file_named(files, old) {
        file.name = new;
    }
}

/// Whether a list has these files, in this order.
pub fn has(list: &FileList, files: &[PlainFile]) -> bool {
    if list.count() != files.len() {
        return false;
    }
    for place in 0..list.count() {
        let file = &files[place];
        if list.name(place) != [file.name].as_slice()
            || list.bytes(place) != file.bytes.as_slice()
        {
            return false;
        }
    }
    true
}

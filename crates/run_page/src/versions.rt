//! The files after each change.
ghost use Rattle.std.specs.Prelude.{◌<◌, length};

use crate::file_data::FileData;
use files::FileList;
use sha2::{Digest, Sha256};
use std::alloc::{AllocError, Global};

/// How many of a file's first bytes a page has.
const HEAD: usize = 64;

/// How many bytes of a file's digest a page has.
const DIGEST_BYTES: usize = 8;

/// The states of files so far, and the files after each change by their places among these.
pub struct FileVersions {
    states: Vec<FileData>,
    versions: Vec<Vec<usize>>,
    /// The files after the last change.
    last: FileList,
}

impl Drop for FileVersions {
    fn drop(self) {
        let FileVersions {
            states: _states,
            versions: _versions,
            last: _last,
        } = self;
    }
}

fn digest_text(alloc: Global, bytes: &[u8]) -> Result<String, AllocError> {
    let digest = Sha256::digest(bytes);
    hex::encode(alloc, &digest[..DIGEST_BYTES])
}

/// The state of the file at a place.
fn state_of(alloc: Global, files: &FileList, place: usize) -> Result<FileData, AllocError>
    requires { place < length files.now }
{
    let bytes = files.bytes(place);
    let head = &bytes[..bytes.len().min(HEAD)];
    Ok(FileData {
        name: String::from_utf8_lossy(alloc, files.name(place))?,
        length: bytes.len(),
        head: hex::encode(alloc, head)?,
        digest: digest_text(alloc, bytes)?,
    })
}

fn is_same(one: &FileData, other: &FileData) -> bool {
    one.length == other.length
        && one.name.as_str() == other.name.as_str()
        && one.digest.as_str() == other.digest.as_str()
}

impl FileVersions {
    /// The files of a boot, before any change.
    pub fn new(alloc: Global, files: &FileList) -> Result<FileVersions, AllocError> {
        let mut versions = FileVersions {
            states: Vec::new(alloc),
            versions: Vec::new(alloc),
            last: FileList::new(alloc),
        };
        versions.push(alloc, files)?;
        Ok(versions)
    }

    /// The states, and the versions by their places.
    pub fn into_parts(self) -> (Vec<FileData>, Vec<Vec<usize>>) {
        let FileVersions {
            states,
            versions,
            last: _last,
        } = self;
        (states, versions)
    }

    /// The place of a state, if there is one that is the same.
    fn place_of(&self, state: &FileData) -> Option<usize> {
        self.states.iter().position(|other| is_same(other, state))
    }

    /// The place of the state of a file that the last change left as it was.
    fn unchanged(&self, files: &FileList, place: usize) -> Option<usize>
        requires { place < length files.now }
    {
        let before = self.last.find(files.name(place))?;
        if self.last.bytes(before) != files.bytes(place) {
            return None;
        }
        self.versions.last()?.get(before).copied()
    }

    /// The place of the state of a file, which is added if it is new.
    fn state_place(
        &mut self,
        alloc: Global,
        files: &FileList,
        place: usize,
    ) -> Result<usize, AllocError>
        requires { place < length files.now }
    {
        if let Some(known) = self.unchanged(files, place) {
            return Ok(known);
        }
        let state = state_of(alloc, files, place)?;
        if let Some(known) = self.place_of(&state) {
            return Ok(known);
        }
        let new = self.states.len();
        self.states.push(state)?;
        Ok(new)
    }

    /// Adds the files after one change more.
    pub fn push(&mut self, alloc: Global, files: &FileList) -> Result<(), AllocError> {
        let mut version = Vec::new(alloc);
        for place in 0..files.count() {
            version.push(self.state_place(alloc, files, place)?)?;
        }
        self.versions.push(version)?;
        self.last = files.try_clone()?;
        Ok(())
    }

    /// The places of the states of files, if all are known.
    fn places_of(&self, alloc: Global, files: &FileList) -> Result<Option<Vec<usize>>, AllocError> {
        let mut places = Vec::new(alloc);
        for place in 0..files.count() {
            let state = state_of(alloc, files, place)?;
            match self.place_of(&state) {
                Some(known) => places.push(known)?,
                None => return Ok(None),
            }
        }
        Ok(Some(places))
    }

    /// The least number of changes, from this one on, after which the files were these. None where they never were.
    pub fn find(
        &self,
        alloc: Global,
        files: &FileList,
        least: u64,
    ) -> Result<Option<u64>, AllocError> {
        let Some(wanted) = self.places_of(alloc, files)? else {
            return Ok(None);
        };
        for (number, version) in self.versions.iter().enumerate() {
            let number = number as u64;
            if number >= least && version.as_slice() == wanted.as_slice() {
                return Ok(Some(number));
            }
        }
        Ok(None)
    }
}

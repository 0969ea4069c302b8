//! `Sights`: on which lists of files the recovery need not be run, since it cannot tell them from others.
use crate::asked::Asked;
use crate::pending::Pending;
use crash_points::digest_of;
use std::alloc::{AllocError, Global};
use std::collections::HashSet;

/// The digest of what runs can see that asked for files by these names: each name with its file's bytes, or that there is no file, and
/// the promise. How many files there are counts where one may be made.
fn digest_of_sight(alloc: Global, asked: &Asked, disk: &Pending) -> Result<String, AllocError> {
    let count = (disk.files.count() as u64).to_be_bytes();
    let mut texts: Vec<&[u8]> = Vec::new(alloc);
    texts.push(disk.promise.digest.as_bytes())?;
    if asked.makes {
        texts.push(count.as_slice())?;
    }
    for name in asked.names.iter() {
        if let Some(place) = disk.files.find(name.as_slice()) {
            texts.push(name.as_slice())?;
            texts.push(disk.files.bytes(place))?;
        }
    }
    digest_of(alloc, texts.as_slice())
}

/// What is known of a list of files with its promise.
#[derive(Clone, Copy, PartialEq, Eq)]
pub enum Sight {
    /// No run can tell it from one on which the recovery was run, and again after its own crashes.
    Tried,
    /// It may be the same as one on which the recovery is to be run.
    Awaited,
    New,
}

/// What the recovery could see of the lists on which it was run. All that any run of it asked for counts, so what is known is forgotten
/// where one asks for more.
#[derive(Drop)]
pub struct Sights {
    asked: Asked,
    tried: HashSet<String>,
    /// Of those on which it is to be run.
    awaited: HashSet<String>,
}

impl Sights {
    /// No run yet.
    pub fn new(alloc: Global) -> Sights {
        Sights {
            asked: Asked::new(alloc),
            tried: HashSet::new(alloc),
            awaited: HashSet::new(alloc),
        }
    }

    /// What is known of a disk. If it is new, the recovery is to be run on it.
    pub fn look(&mut self, alloc: Global, disk: &Pending) -> Result<Sight, AllocError> {
        let sight = digest_of_sight(alloc, &self.asked, disk)?;
        if self.tried.contains(sight.as_str()) {
            Ok(Sight::Tried)
        } else if self.awaited.insert(sight)? {
            Ok(Sight::New)
        } else {
            Ok(Sight::Awaited)
        }
    }

    /// Is told that the recovery was run on these disks, which are all that were awaited, and what the runs asked for.
    pub fn learn(
        &mut self,
        alloc: Global,
        disks: &[Pending],
        asked: &Asked,
    ) -> Result<(), AllocError> {
        self.awaited.clear();
        if self.asked.join(alloc, asked)? {
            self.tried.clear();
        }
        for disk in disks {
            self.tried
                .insert(digest_of_sight(alloc, &self.asked, disk)?)?;
        }
        Ok(())
    }
}

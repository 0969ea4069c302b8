//! Which disks were tried with which promises.
use std::alloc::{AllocError, Global};
use std::collections::HashSet;

/// Digests of the disks that were tried with those of promises, and with how many crashes of recoveries were still to be tried.
#[derive(Drop)]
pub struct Tried {
    pairs: HashSet<String>,
}

/// What stands for a disk and a promise where so many crashes of recoveries are still to be tried.
fn pair_of(alloc: Global, disk: &str, promise: &str, left: u32) -> Result<String, AllocError> {
    format!(in alloc; "{disk} {promise} {left}")
}

impl Tried {
    /// Nothing was tried yet.
    pub fn new(alloc: Global) -> Tried {
        Tried {
            pairs: HashSet::new(alloc),
        }
    }

    /// Adds a disk and a promise, by their digests, with how many crashes of recoveries are still to be tried. Whether that is new:
    /// what was tried with as many or more of them is not.
    pub fn add(
        &mut self,
        alloc: Global,
        disk: &str,
        promise: &str,
        left: u32,
    ) -> Result<bool, AllocError> {
        let is_new = self.pairs.insert(pair_of(alloc, disk, promise, left)?)?;
        if is_new {
            for fewer in 0..left {
                self.pairs.insert(pair_of(alloc, disk, promise, fewer)?)?;
            }
        }
        Ok(is_new)
    }
}

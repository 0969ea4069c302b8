//! What a crash would leave.
use crate::versions::FileVersions;
use crash_outcomes::FILLS;
use faults::Fault;
use journal::recover;
use kernel::Core;
use std::alloc::{AllocError, Global};

/// What a crash now leaves, for each fill: the files after so many changes. The core goes on as if there were none.
pub fn outcomes(
    alloc: Global,
    core: &Core,
    versions: &FileVersions,
) -> Result<Vec<Option<u64>>, Fault> {
    let mut outcomes = Vec::new(alloc);
    for fill in FILLS {
        let left = core.after_crash(fill.bytes())?;
        let files = recover(alloc, &left)?;
        outcomes.push(versions.find(alloc, files.list(), core.committed())?)?;
    }
    Ok(outcomes)
}

/// The fills, as `crash` lines write them.
pub fn fill_texts(alloc: Global) -> Result<Vec<&'static str>, AllocError> {
    let mut texts = Vec::new(alloc);
    for fill in FILLS {
        texts.push(fill.text())?;
    }
    Ok(texts)
}

/// The same outcomes once more.
pub fn copy_of(alloc: Global, outcomes: &[Option<u64>]) -> Result<Vec<Option<u64>>, AllocError> {
    let mut copy = Vec::new(alloc);
    for outcome in outcomes {
        copy.push(*outcome)?;
    }
    Ok(copy)
}

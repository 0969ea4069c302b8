//! Disks on which the recovery is to be run.
use crash_outcomes::outcome_of;
use crash_points::{CrashPlace, CrashPoint, Promise, Telling, Told};
use files::FileList;
use std::alloc::{AllocError, Global};

/// How much was tried.
#[derive(Clone, Copy)]
pub struct Tally {
    pub crashes: u64,
    pub recoveries: u64,
    /// How many disks and promises are left to other parts.
    pub others: u64,
}

impl Tally {
    /// Nothing.
    pub const NONE: Tally = Tally {
        crashes: 0,
        recoveries: 0,
        others: 0,
    };

    /// Both together.
    pub fn with(self, more: Tally) -> Tally {
        Tally {
            crashes: self.crashes.saturating_add(more.crashes),
            recoveries: self.recoveries.saturating_add(more.recoveries),
            others: self.others.saturating_add(more.others),
        }
    }
}

/// A disk that a crash of the run left, and what was promised before.
#[derive(Drop)]
pub struct Pending {
    pub place: CrashPlace,
    pub told: Telling,
    pub files: FileList,
    /// What tells the files from others.
    pub digest: String,
    pub promise: Promise,
    /// How much of the run was tried up to its crash.
    pub before: Tally,
    /// How much was tried of recoveries on it.
    pub tried: Tally,
}

/// The files of a disk with what tells them from others, and what was promised before the crash that left it.
#[derive(Drop)]
pub struct Disk<'a> {
    pub files: &'a FileList,
    pub digest: String,
    pub promise: &'a Promise,
}

impl Pending {
    /// A disk that a crash left, before any recovery on it.
    pub fn new(
        alloc: Global,
        place: CrashPlace,
        told: Told<'_>,
        disk: Disk<'_>,
        before: Tally,
    ) -> Result<Pending, AllocError> {
        let Disk {
            files,
            digest,
            promise,
        } = disk;
        Ok(Pending {
            place,
            told: told.telling(alloc)?,
            files: files.try_clone()?,
            digest,
            promise: promise.try_clone(alloc)?,
            before,
            tried: Tally::NONE,
        })
    }

    /// The crash, with the files that it left.
    pub fn point(&self, alloc: Global) -> Result<CrashPoint, AllocError> {
        Ok(CrashPoint {
            place: self.place,
            outcome: outcome_of(alloc, &self.files)?,
            told: self.told.try_clone(alloc)?,
        })
    }
}

/// A run of the recovery: on which of the disks, and after which crashes of recoveries.
#[derive(Drop)]
pub struct Job {
    pub disk: usize,
    pub chain: Chain,
}

/// Crashes of recoveries, one after the other: each cut the recovery short that the one before led to.
pub type Chain = Vec<CrashPoint>;

/// The chain with one more crash.
pub fn with_crash(
    alloc: Global,
    chain: &[CrashPoint],
    point: CrashPoint,
) -> Result<Chain, AllocError> {
    let mut longer = Vec::new(alloc);
    for earlier in chain {
        longer.push(earlier.try_clone(alloc)?)?;
    }
    longer.push(point)?;
    Ok(longer)
}

//! `Batch`: disks on which the recovery is run together, and again after its own crashes.
ghost use Rattle.std.specs.Prelude.{◌≡◌, ◌<◌, ℕ, None, IfOk, MatchOption, OnOk, position, slice_get, slice_index_or, vec_len};
ghost use Rattle.recovery_runs.specs.Batches.{IsFirst, has_failed};
ghost use Rattle.recovery_runs.specs.declared.pending.Job.{Job};

use crate::asked::Asked;
use crate::nested::NestedCrash;
use crate::pending::{Job, Pending, Tally, with_crash};
use crate::running::Ran;
use crate::tried::Tried;
use crash_points::CrashPoint;
use std::alloc::{AllocError, Global};

/// A disk that one of the disks of a batch led to, by its digest.
#[derive(Drop)]
pub struct Seen {
    pub digest: String,
    pub disk: usize,
}

/// Disks, and the recoveries that are still to be run on them.
#[derive(Drop)]
pub struct Batch {
    pub disks: Vec<Pending>,
    pub jobs: Vec<Job>,
    pub seen: Vec<Seen>,
    /// What the recoveries asked for.
    pub asked: Asked,
    /// The first disk, by its place, on which a recovery failed, and after which crashes of recoveries.
    pub failed: Option<Job>,
}

/// The recoveries that are run first: one on each disk, in their order.
fn first_jobs(alloc: Global, disks: usize) -> Result<Vec<Job>, AllocError>
    ensures count { IfOk result (λ jobs. vec_len jobs ≡ disks) }
    ensures each { IfOk result (λ jobs. (disk : ℕ) (d : Job) → disk < disks → IsFirst disk (slice_index_or jobs.items disk d)) }
{
    let mut jobs = Vec::with_capacity(alloc, disks)?;
    for disk in 0..disks {
        jobs.push(Job {
            disk,
            chain: Vec::new(alloc),
        })?;
    }
    Ok(jobs)
}

/// How many crashes of recoveries may come after one more than these.
fn more_after(chain: &[CrashPoint], nested: u32) -> u32 {
    let before = u32::try_from(chain.len()).unwrap_or(u32::MAX);
    nested.saturating_sub(before).saturating_sub(1)
}

/// Where among what came of recoveries the first is that failed, if one did.
fn first_failed(all: &[Ran]) -> Option<usize>
    ensures { result ≡ position has_failed all.now }
{
    all.iter().position(|ran| ran.status != 0)
}

/// The job at a place, if there is one.
fn nth(jobs: Vec<Job>, place: usize) -> Option<Job>
    ensures { result ≡ slice_get jobs.items place }
{
    let mut jobs = jobs;
    if place < jobs.len() {
        Some(jobs.swap_remove(place))
    } else {
        None
    }
}

impl Batch {
    /// Before any recovery.
    pub fn new(alloc: Global, disks: Vec<Pending>, seen: Vec<Seen>) -> Result<Batch, AllocError>
        ensures failed { IfOk result (λ batch. batch.failed ≡ None) }
        ensures count { IfOk result (λ batch. vec_len batch.jobs ≡ vec_len disks) }
        ensures each { IfOk result (λ batch. (disk : ℕ) (d : Job) → disk < vec_len disks → IsFirst disk (slice_index_or batch.jobs.items disk d)) }
    {
        Ok(Batch {
            jobs: first_jobs(alloc, disks.len())?,
            disks,
            seen,
            asked: Asked::new(alloc),
            failed: None,
        })
    }

    /// The place of the last disk that counts: those after one on which a recovery failed do not.
    pub fn last(&self) -> usize
        ensures { MatchOption self.now.failed (result ≡ vec_len self.now.disks) (λ job. result ≡ job.disk) }
    {
        match &self.failed {
            Some(job) => job.disk,
            None => self.disks.len(),
        }
    }

    /// Counts a recovery, and its crashes.
    fn count(&mut self, disk: usize, crashes: u64) {
        if let Some(disk) = self.disks.get_mut(disk) {
            disk.tried = disk.tried.with(Tally {
                crashes,
                recoveries: 1,
                others: 0,
            });
        }
    }

    /// Whether a disk to which one of these led is new with its promise, where so many crashes of recoveries may still come.
    fn is_new(
        &self,
        alloc: Global,
        disk: usize,
        digest: &str,
        more: u32,
        tried: &mut Tried,
    ) -> Result<bool, AllocError> {
        match self.disks.get(disk) {
            Some(disk) => tried.add(alloc, digest, disk.promise.digest.as_str(), more),
            None => Ok(false),
        }
    }

    /// Adds a recovery after a crash of one, where its disk is new with the promise.
    fn follow(
        &mut self,
        alloc: Global,
        job: &Job,
        crash: NestedCrash,
        nested: u32,
        tried: &mut Tried,
    ) -> Result<(), AllocError> {
        let NestedCrash { point, digest } = crash;
        let (disk, chain) = (job.disk, job.chain.as_slice());
        if self.is_new(
            alloc,
            disk,
            digest.as_str(),
            more_after(chain, nested),
            tried,
        )? {
            let chain = with_crash(alloc, chain, point)?;
            self.jobs.push(Job { disk, chain })?;
        }
        self.seen.push(Seen { digest, disk })?;
        Ok(())
    }

    /// Takes what came of a recovery.
    fn take(
        &mut self,
        alloc: Global,
        job: &Job,
        ran: Ran,
        nested: u32,
        tried: &mut Tried,
    ) -> Result<(), AllocError> {
        let Ran {
            asked,
            crashes,
            left,
            ..
        } = ran;
        self.count(job.disk, crashes);
        self.asked.join(alloc, &asked)?;
        for crash in left {
            self.follow(alloc, job, crash, nested, tried)?;
        }
        Ok(())
    }

    /// Takes what came of recoveries, in their order.
    fn take_all(
        &mut self,
        alloc: Global,
        jobs: &[Job],
        all: Vec<Ran>,
        nested: u32,
        tried: &mut Tried,
    ) -> Result<(), AllocError> {
        for (job, ran) in jobs.iter().zip(all) {
            self.take(alloc, job, ran, nested, tried)?;
        }
        Ok(())
    }

    /// Takes what came of the recoveries that were to be run, in their order, up to the first that failed. Those that are to be run next
    /// are on disks before that.
    pub fn sort_out(
        &mut self,
        alloc: Global,
        mut all: Vec<Ran>,
        nested: u32,
        tried: &mut Tried,
    ) -> Result<(), AllocError>
        ensures { OnOk result (MatchOption (position has_failed all.items) (self.new.failed ≡ self.old.failed)
            (λ place. self.new.failed ≡ slice_get self.old.jobs.items place)) }
    {
        let failed = first_failed(all.as_slice());
        if let Some(place) = failed {
            all.truncate(place.saturating_add(1));
        }
        let failed_before = self.failed.take();
        let mut jobs = Vec::new(alloc);
        jobs.append(&mut self.jobs)?;
        self.take_all(alloc, jobs.as_slice(), all, nested, tried)?;
        self.failed = match failed {
            Some(place) => nth(jobs, place),
            None => failed_before,
        };
        let last = self.last();
        self.jobs.retain(|job| job.disk < last);
        Ok(())
    }
}

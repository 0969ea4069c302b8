//! Runs the recovery on what crashes leave.
ghost use Rattle.std.specs.Prelude.{◌≡◌, true, is_some, Err, None, OnOk};
ghost use Rattle.crash_points.specs.declared.stop.Stop.TheVariants.{Failed};

use crate::batch::{Batch, Seen};
use crate::crew::{Work, run_all};
use crate::effort::Effort;
use crate::failure::Failure;
use crate::pending::{Disk, Job, Pending, Tally};
use crate::recovery::RecoveryProgram;
use crate::running::{Ran, failure_of};
use crate::sights::{Sight, Sights};
use crate::tried::Tried;
use crash_points::{CrashPlace, Promise, SpareDisk, Stop, Taker, Told, digest_of_files};
use faults::Fault;
use files::FileList;
use progress::{Progress, ProgressCount};
use std::alloc::{AllocError, Global};
use std::collections::HashSet;
use std::io::Write;
use std::rt::Files;
use std::thread::Threads;

/// The most disks on which the recovery is run together. The first batches are smaller, so that a first failure is found soon.
const MOST_TOGETHER: usize = 256;

/// A block of so many bytes is taken and freed before the first recovery: 4 MiB, as two disks have.
const BLOCK: usize = 4_194_304;

/// How many recoveries each thread runs before it is told how far it has come.
const TAKEN: usize = 16;

/// Has the host's allocator keep memory from one recovery to the next. Each takes and frees blocks of 2 MiB. The allocator of the GNU C
/// library hands free memory at the end of its heap back to the system, and takes it again later, page by page. It keeps up to twice the
/// largest block that was ever mapped by itself and freed. So such a block is taken here and freed at once; nobody writes to it. Where
/// there is no memory for it, or the allocator is another one, nothing changes.
fn keep_freed_memory(alloc: Global) {
    let _block: Result<Vec<u8>, AllocError> = Vec::with_capacity(alloc, BLOCK);
}

/// What runs the recovery on disks, on each once with each promise. Of those that it cannot tell apart it is run on the first.
#[derive(Drop)]
pub struct Tester<'a, R, E> {
    rt: &'a R,
    program: &'a RecoveryProgram,
    effort: Effort,
    progress: Progress<'a, E>,
    /// The disks on which threads ran recoveries before.
    spares: Vec<SpareDisk>,
    tried: Tried,
    sights: Sights,
    disks: HashSet<String>,
    /// What was found since the last time that it was settled, in its order.
    taken: Vec<Pending>,
    pending: Vec<Pending>,
    seen: Vec<Seen>,
    /// How many disks are to be pending before the recovery is run on them.
    together: usize,
    /// The disks that were found, each with its promise.
    found: HashSet<String>,
    /// How much of the run was tried.
    run: Tally,
    /// How much was tried of recoveries.
    recovered: Tally,
    /// The first recovery that failed, if one did.
    pub failure: Option<Failure>,
}

impl<'a, R: Files + AllocGlobal, E: Write> Tester<'a, R, E> {
    /// Nothing was tried yet.
    pub fn new(
        rt: &'a R,
        program: &'a RecoveryProgram,
        effort: Effort,
        progress: Progress<'a, E>,
    ) -> Tester<'a, R, E> {
        let alloc = rt.alloc();
        keep_freed_memory(alloc);
        Tester {
            rt,
            program,
            effort,
            progress,
            spares: Vec::new(alloc),
            tried: Tried::new(alloc),
            sights: Sights::new(alloc),
            disks: HashSet::new(alloc),
            taken: Vec::new(alloc),
            pending: Vec::new(alloc),
            seen: Vec::new(alloc),
            together: 1,
            found: HashSet::new(alloc),
            run: Tally::NONE,
            recovered: Tally::NONE,
            failure: None,
        }
    }

    /// The first recovery that failed, if one did.
    pub fn into_failure(self) -> Option<Failure> {
        let Tester { failure, .. } = self;
        failure
    }

    /// How much was tried.
    pub fn tally(&self) -> Tally {
        self.run.with(self.recovered)
    }

    /// How many disks with promises were found.
    pub fn found(&self) -> u64 {
        self.found.len() as u64
    }

    /// How many disks were tried, or cannot be told from one that was.
    pub fn count_disks(&self) -> usize {
        self.disks.len()
    }

    /// Whether a disk was not found with a promise yet.
    fn is_new(&mut self, disk: &str, promise: &Promise) -> Result<bool, AllocError> {
        let promise = promise.digest.as_str();
        let pair = format!(in self.rt.alloc(); "{disk} {promise}")?;
        Ok(self.found.insert(pair)?)
    }

    /// Whether the disk that was found last is in the part that is tried.
    fn is_taken(&mut self) -> bool {
        let is_taken = self.effort.takes(self.found().saturating_sub(1));
        if !is_taken {
            self.run.others = self.run.others.saturating_add(1);
        }
        is_taken
    }

    /// What is known of a disk. Where it may be the same as one that is pending, the recovery is run first on what is.
    fn look<T: Threads + Sync>(&mut self, rt: &T, disk: &Pending) -> Result<Sight, Stop> {
        let alloc = self.rt.alloc();
        let sight = self.sights.look(alloc, disk)?;
        if sight != Sight::Awaited {
            return Ok(sight);
        }
        self.run_batch(rt)?;
        Ok(self.sights.look(alloc, disk)?)
    }

    /// Adds a disk to those on which the recovery is to be run.
    fn push(&mut self, disk: Pending) -> Result<(), AllocError> {
        let (digest, promise) = (disk.digest.as_str(), disk.promise.digest.as_str());
        let nested = self.program.nested;
        self.tried.add(self.rt.alloc(), digest, promise, nested)?;
        self.pending.push(disk)?;
        Ok(())
    }

    /// Adds a disk to those on which the recovery is to be run, unless it cannot be told from one on which it was.
    fn sort_in<T: Threads + Sync>(&mut self, rt: &T, disk: Pending) -> Result<(), Stop> {
        let sight = self.look(rt, &disk)?;
        self.seen.push(Seen {
            digest: String::from_str(self.rt.alloc(), disk.digest.as_str())?,
            disk: self.pending.len(),
        })?;
        if sight == Sight::New {
            self.push(disk)?;
        }
        Ok(())
    }

    /// Sorts in what was found since the last time.
    fn sort_in_all<T: Threads + Sync>(&mut self, rt: &T) -> Result<(), Stop> {
        let mut taken = Vec::new(self.rt.alloc());
        taken.append(&mut self.taken)?;
        for disk in taken {
            self.sort_in(rt, disk)?;
        }
        Ok(())
    }

    /// Tells how far it has come, if that is due.
    fn tell(&mut self, batch: &Batch, ran: usize) {
        if self.progress.is_due(self.rt) {
            let mut done = self.recovered.recoveries.saturating_add(ran as u64);
            for disk in &batch.disks {
                done = done.saturating_add(disk.tried.recoveries);
            }
            self.progress.tell(ProgressCount {
                what: "recoveries",
                done,
                left: batch.jobs.len().saturating_sub(ran) as u64,
                to_do: "left of this batch",
            });
        }
    }

    /// Runs the recoveries of a batch that are to be run now. Gives what came of each.
    fn run_jobs<T: Threads + Sync>(&mut self, rt: &T, batch: &Batch) -> Result<Vec<Ran>, Fault> {
        let alloc = self.rt.alloc();
        let threads = self.effort.threads(rt);
        let mut all = Vec::with_capacity(alloc, batch.jobs.len())?;
        for jobs in batch.jobs.chunks(threads.saturating_mul(TAKEN).max(1)) {
            let work = Work {
                program: self.program,
                disks: batch.disks.as_slice(),
                jobs,
            };
            let mut ran = run_all(rt, alloc, work, threads, &mut self.spares)?;
            all.append(&mut ran)?;
            self.tell(batch, all.len());
        }
        Ok(all)
    }

    /// Adds up what was tried of disks up to this one.
    fn add_tried(&mut self, disks: &[Pending], last: usize) {
        if let Some(disk) = disks.get(last) {
            self.run = disk.before;
        }
        for disk in disks.iter().take(last.saturating_add(1)) {
            self.recovered = self.recovered.with(disk.tried);
        }
    }

    /// Adds the disks to which those up to this one led.
    fn add_seen(&mut self, seen: Vec<Seen>, last: usize) -> Result<(), AllocError> {
        for Seen { digest, disk } in seen {
            if disk <= last {
                self.disks.insert(digest)?;
            }
        }
        Ok(())
    }

    /// Adds up what was tried of a batch: all of it, or that up to the first disk on which a recovery failed.
    fn sum_up(&mut self, batch: &mut Batch) -> Result<(), AllocError> {
        let last = batch.last();
        self.add_tried(batch.disks.as_slice(), last);
        let mut seen = Vec::new(self.rt.alloc());
        seen.append(&mut batch.seen)?;
        self.add_seen(seen, last)
    }

    /// What is pending, as a batch.
    fn next_batch(&mut self) -> Result<Batch, AllocError> {
        let alloc = self.rt.alloc();
        let mut disks = Vec::new(alloc);
        disks.append(&mut self.pending)?;
        let mut seen = Vec::new(alloc);
        seen.append(&mut self.seen)?;
        Batch::new(alloc, disks, seen)
    }

    /// Runs the recoveries of a batch that are to be run now.
    fn run_round<T: Threads + Sync>(&mut self, rt: &T, batch: &mut Batch) -> Result<(), Fault> {
        if batch.jobs.is_empty() {
            return Ok(());
        }
        let ran = self.run_jobs(rt, batch)?;
        let (alloc, nested) = (self.rt.alloc(), self.program.nested);
        batch.sort_out(alloc, ran, nested, &mut self.tried)?;
        Ok(())
    }

    /// Runs the recovery on the disks that are pending, and again after its own crashes. Failed where one of these fails.
    fn run_batch<T: Threads + Sync>(&mut self, rt: &T) -> Result<(), Stop> {
        let mut batch = self.next_batch()?;
        for _ in 0..=self.program.nested {
            self.run_round(rt, &mut batch)?;
        }
        self.together = self.together.saturating_mul(2).min(MOST_TOGETHER);
        self.sights
            .learn(self.rt.alloc(), batch.disks.as_slice(), &batch.asked)?;
        self.sum_up(&mut batch)?;
        self.judge(batch)
    }

    /// The recovery that failed on one of these disks.
    fn failure_at(&self, disks: &[Pending], job: Job) -> Result<Failure, Fault> {
        let Job { disk, chain } = job;
        match disks.get(disk) {
            Some(disk) => failure_of(self.rt.alloc(), self.program, disk, chain),
            None => Err(Fault::OutOfMemory),
        }
    }

    /// Keeps the first recovery of a batch that failed, if one did.
    fn judge(&mut self, batch: Batch) -> Result<(), Stop>
        ensures failed { OnOk result (batch.failed ≡ None) }
        ensures kept { result ≡ Err Failed → is_some self.new.failure ≡ true }
    {
        let Batch { disks, failed, .. } = batch;
        let Some(job) = failed else {
            return Ok(());
        };
        match self.failure_at(disks.as_slice(), job) {
            Ok(failure) => {
                self.failure = Some(failure);
                Err(Stop::Failed)
            }
            Err(fault) => Err(Stop::Fault(fault)),
        }
    }

    /// Runs the recovery on what is still pending when the run is over, and says how all ended.
    pub fn finish<T: Threads + Sync, D: Drop>(
        &mut self,
        rt: &T,
        done: Result<D, Stop>,
    ) -> Result<D, Stop> {
        if !matches!(done, Err(Stop::Fault(_) | Stop::Failed)) {
            self.sort_in_all(rt)?;
            self.run_batch(rt)?;
        }
        done
    }
}

impl<R: Files + AllocGlobal, E: Write> Taker for Tester<'_, R, E> {
    /// Counts a crash that leaves these files. Where these and the promise are new together, the recovery is to be run on them, if they
    /// are in the part that is tried.
    fn take(
        &mut self,
        files: &FileList,
        promise: &Promise,
        place: CrashPlace,
        told: Told<'_>,
    ) -> Result<(), Stop> {
        if !promise.fits() {
            return Err(Stop::TooLong);
        }
        let alloc = self.rt.alloc();
        self.again(1);
        let digest = digest_of_files(alloc, files)?;
        if !self.is_new(digest.as_str(), promise)? || !self.is_taken() {
            return Ok(());
        }
        let disk = Disk {
            files,
            digest,
            promise,
        };
        self.taken
            .push(Pending::new(alloc, place, told, disk, self.run)?)?;
        Ok(())
    }

    fn again(&mut self, times: u64) {
        self.run.crashes = self.run.crashes.saturating_add(times);
    }

    fn settle<T: Threads + Sync>(&mut self, rt: &T) -> Result<(), Stop> {
        self.sort_in_all(rt)?;
        if self.pending.len() < self.together {
            return Ok(());
        }
        self.run_batch(rt)
    }
}

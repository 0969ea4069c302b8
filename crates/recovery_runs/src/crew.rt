//! Recoveries are shared among threads, and what came of them is put together in their order.
use crate::pending::{Job, Pending};
use crate::recovery::RecoveryProgram;
use crate::running::{Ran, run_recovery};
use crash_points::SpareDisk;
use faults::Fault;
use std::alloc::{AllocError, Global};
use std::thread;
use std::thread::Threads;

/// Recoveries that are to be run, and the disks of which they are.
#[derive(Clone, Copy)]
pub struct Work<'a> {
    pub program: &'a RecoveryProgram,
    pub disks: &'a [Pending],
    pub jobs: &'a [Job],
}

/// One thread's share: the recoveries at the places `first`, `first + step`, and so on, and the disk on which it runs them.
#[derive(Drop)]
struct Task {
    first: usize,
    step: usize,
    spare: SpareDisk,
}

/// What came of one thread's share, the last recovery first, the fault that cut it short, and its disk.
#[derive(Drop)]
struct Share {
    ran: Vec<Ran>,
    fault: Option<Fault>,
    spare: SpareDisk,
}

/// Runs the recoveries of a task, up to the first fault.
fn run_each(
    alloc: Global,
    work: Work<'_>,
    task: &mut Task,
    ran: &mut Vec<Ran>,
) -> Result<(), Fault> {
    let mut place = task.first;
    for _ in 0..work.jobs.len() {
        let Some(job) = work.jobs.get(place) else {
            break;
        };
        if let Some(disk) = work.disks.get(job.disk) {
            let chain = job.chain.as_slice();
            ran.push(run_recovery(alloc, work.program, disk, chain, &mut task.spare)?)?;
        }
        place = place.saturating_add(task.step);
    }
    Ok(())
}

fn share_of(alloc: Global, work: Work<'_>, mut task: Task) -> Share {
    let mut ran = Vec::new(alloc);
    let fault = run_each(alloc, work, &mut task, &mut ran).err();
    ran.reverse();
    let Task { spare, .. } = task;
    Share { ran, fault, spare }
}

/// A task for each of so many threads, with a disk that was used before, if there is one.
fn tasks_of(
    alloc: Global,
    threads: usize,
    spares: &mut Vec<SpareDisk>,
) -> Result<Vec<Task>, AllocError> {
    let mut tasks = Vec::with_capacity(alloc, threads)?;
    for first in 0..threads {
        let spare = match spares.pop() {
            Some(spare) => spare,
            None => SpareDisk::new(),
        };
        tasks.push(Task {
            first,
            step: threads,
            spare,
        })?;
    }
    Ok(tasks)
}

impl Share {
    /// What came of the next recovery of the share.
    fn take(&mut self) -> Result<Ran, Fault> {
        match (self.ran.pop(), self.fault.take()) {
            (Some(ran), _) => Ok(ran),
            (None, Some(fault)) => Err(fault),
            (None, None) => Err(Fault::OutOfMemory),
        }
    }
}

/// Runs recoveries by so many threads, on disks that were used before. Gives what came of each, in their order. The fault is that of the
/// first that has one.
pub fn run_all<R: Threads + Sync>(
    rt: &R,
    alloc: Global,
    work: Work<'_>,
    threads: usize,
    spares: &mut Vec<SpareDisk>,
) -> Result<Vec<Ran>, Fault> {
    let threads = threads.min(work.jobs.len()).max(1);
    let tasks = tasks_of(alloc, threads, spares)?;
    let mut shares: Vec<Share> = thread::map_vec(
        rt,
        tasks,
        &|task| { share_of(alloc, work, task) },
    )?;
    let mut all = Vec::with_capacity(alloc, work.jobs.len())?;
    for place in 0..work.jobs.len() {
        if let Some(share) = shares.get_mut(place % threads) {
            all.push(share.take()?)?;
        }
    }
    for Share { spare, .. } in shares {
        spares.push(spare)?;
    }
    Ok(all)
}

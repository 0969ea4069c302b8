//! `Pool`: a bench under a lock, and the queue of results.
ghost use Rattle.std.specs.Prelude.{◌≡◌, ◌≤◌, IfOk, IfErr};
ghost use Rattle.crossbeam_queue.specs.Passes.{ruled_capacity};

use crate::results::{Results, empty_queue};
use bursts::{Bench, Naming};
use std::alloc::Global;
use std::sync::Mutex;

/// A bench under a lock, and a queue in which results lie until a worker that has the lock settles them.
#[derive(Drop)]
pub struct Pool<'b, N: Naming> {
    /// How many workers it is for, 1 to 16.
    pub workers: u32,
    pub(crate) bench: Mutex<Bench<'b, N>>,
    pub(crate) results: Results<N>,
    ghost few: { (1 ≤ workers) × (workers ≤ 16) },
    ghost room: { ruled_capacity results ≡ 1024 },
}

impl<'b, N: Naming> Pool<'b, N> {
    /// A pool for 1 to 16 workers. It has room for 1,024 results: there are no more processes, and each is lent once at a time.
    /// Where memory runs out the bench comes back.
    pub fn new(
        alloc: Global,
        bench: Bench<'b, N>,
        workers: u32,
    ) -> Result<Pool<'b, N>, Bench<'b, N>>
        requires { (1 ≤ workers) × (workers ≤ 16) }
        ensures workers { IfOk result (λ p. p.workers ≡ workers) }
        ensures back { IfErr result (λ b. b ≡ bench.entry) }
    {
        match empty_queue(alloc) {
            Ok(results) => Ok(Pool {
                workers,
                bench: Mutex::new(bench),
                results,
            }),
            Err(_) => Err(bench),
        }
    }

    /// The bench, under its lock: for whoever cuts, completes or looks while the workers work.
    pub fn bench(&self) -> &Mutex<Bench<'b, N>>
        ensures { result.now ≡ self.now.bench }
    {
        &self.bench
    }

    /// Ends the pool, and gives its bench back. Results still in the queue are dropped; after a `pool_crew` without fault there are
    /// none.
    pub fn end(self) -> Bench<'b, N> {
        let Pool { bench, .. } = self;
        bench.into_inner()
    }
}

//! `lock_soon`: how a worker comes to the lock.
use crate::seats::Seat;
use bursts::{Bench, Naming};
use std::hint::spin_loop;
use std::sync::{Mutex, MutexGuard, Wait};

/// How often a worker tries for the lock before it sleeps until it is free.
const TRIES: u32 = 100;

/// The bench, under its lock. The lock is mostly held for a few microseconds at a time, and to be woken takes longer. So a worker
/// spins for about as long, and then sleeps.
pub(crate) fn lock_soon<'m, 'b, N: Naming, R: Wait>(
    rt: &R,
    lock: &'m Mutex<Bench<'b, N>>,
) -> MutexGuard<'m, Bench<'b, N>> {
    for _ in 0..TRIES {
        if let Some(guard) = lock.try_lock() {
            return guard;
        }
        spin_loop();
    }
    lock.lock(rt)
}

impl<'p, 'b, N: Naming> Seat<'p, 'b, N> {
    /// Whether nobody has the lock just now.
    pub(crate) fn is_lock_free(&self) -> bool {
        self.pool.bench.try_lock().is_some()
    }
}

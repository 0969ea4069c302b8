//! A crew that stops since a result in the queue is of no loan that is out.
use crate::fault::Fault;
use crate::programs::two_of_another;
use crate::workers::{Worker, crew_fault, seat_at};
use bursts::{Bench, Done, Naming};
use pool::Seat;
use std::alloc::Global;
use std::sync::{Mutex, Wait};
use std::thread::Threads;

/// The work is to stop before these workers begin, so that they are idle, and a result of another core is handed in. Says the
/// number of the crew's fault, 0 for none.
pub fn play<N: Naming + Send + Sync, R: Threads + Wait + Sync>(
    rt: &R,
    alloc: Global,
    bench: &Mutex<Bench<'_, N>>,
    workers: &mut [Worker<'_, '_, '_, N>],
    line: &mut String,
) -> Result<(), Fault> {
    bench.lock(rt).stop();
    hand_in_another(rt, alloc, workers)?;
    let fault = crew_fault(rt, workers);
    Ok(write!(
        line,
        "a result of another core, and idle workers: fault {fault}"
    )?)
}

/// Puts a result of another core into the queue.
fn hand_in_another<N: Naming, R: Wait>(
    rt: &R,
    alloc: Global,
    workers: &mut [Worker<'_, '_, '_, N>],
) -> Result<(), Fault> {
    let (first, _second) = two_of_another(alloc)?;
    hand_in(rt, seat_at(workers, 0)?, first)
}

/// Puts a result into the queue, which has room.
pub fn hand_in<N: Naming, R: Wait>(
    rt: &R,
    seat: &mut Seat<'_, '_, N>,
    done: Done,
) -> Result<(), Fault> {
    if seat.hand_in(rt, done).is_ok() {
        Ok(())
    } else {
        Err(Fault::QueueFull)
    }
}

/// Whether the work is to stop.
pub fn is_stopped<N: Naming, R: Wait>(rt: &R, bench: &Mutex<Bench<'_, N>>) -> bool {
    bench.lock(rt).is_stopped()
}

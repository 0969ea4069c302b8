//! Makes the workers at the seats of a pool, and has them work.
ghost use Rattle.std.specs.Prelude.{◌<◌};

use crate::case::QUANTUM;
use crate::fault::Fault;
use crate::gates::CaseGate;
use bursts::{Naming, Share};
use pool::{CrewFault, Pool, Seat, pool_crew};
use std::alloc::{AllocError, Global};
use std::sync::Wait;
use std::thread::Threads;

/// A worker: its seat, and its gate.
pub type Worker<'p, 'b, 'g, N> = (Seat<'p, 'b, N>, CaseGate<'g>);

/// A worker for each seat of a pool, each with a gate such as this.
pub fn workers_of<'p, 'b, 'g, N: Naming>(
    alloc: Global,
    pool: &'p Pool<'b, N>,
    share: &mut Share<N>,
    gate: CaseGate<'g>,
) -> Result<Vec<Worker<'p, 'b, 'g, N>>, AllocError>
    requires { pool.now.workers < share.old.parts }
{
    let mut workers = Vec::new(alloc);
    for seat in pool.seats(alloc, share)? {
        workers.push((seat, gate))?;
    }
    Ok(workers)
}

/// The seat of the worker at this place.
pub fn seat_at<'w, 'p, 'b, N: Naming>(
    workers: &'w mut [Worker<'p, 'b, '_, N>],
    place: usize,
) -> Result<&'w mut Seat<'p, 'b, N>, Fault> {
    match workers.get_mut(place) {
        Some(worker) => Ok(&mut worker.0),
        None => Err(Fault::NoSeat),
    }
}

/// Has the workers work in threads of their own until the work is over.
pub fn crew_result<N: Naming + Send + Sync, R: Threads + Wait + Sync>(
    rt: &R,
    workers: &mut [Worker<'_, '_, '_, N>],
) -> Result<(), CrewFault> {
    pool_crew(rt, workers, QUANTUM)
}

/// As `crew_result`, with the number of the fault with which the workers stop, 0 for none.
pub fn crew_fault<N: Naming + Send + Sync, R: Threads + Wait + Sync>(
    rt: &R,
    workers: &mut [Worker<'_, '_, '_, N>],
) -> u8 {
    match crew_result(rt, workers) {
        Ok(()) => 0,
        Err(fault) => fault.number(),
    }
}

/// As `crew_fault`, with a fault as the error.
pub fn crew<N: Naming + Send + Sync, R: Threads + Wait + Sync>(
    rt: &R,
    workers: &mut [Worker<'_, '_, '_, N>],
) -> Result<(), Fault> {
    match crew_fault(rt, workers) {
        0 => Ok(()),
        number => Err(Fault::Crew(number)),
    }
}

/// The shares of workers that have ended, and one more.
pub fn shares_of<N: Naming>(
    alloc: Global,
    workers: Vec<Worker<'_, '_, '_, N>>,
    share: Share<N>,
) -> Result<Vec<Share<N>>, AllocError> {
    let mut shares = Vec::new(alloc);
    for (seat, _gate) in workers {
        shares.push(seat.end())?;
    }
    shares.push(share)?;
    Ok(shares)
}

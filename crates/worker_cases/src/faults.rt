//! Two workers whose turns both fail, that of the second first.
use crate::fault::Fault;
use crate::gates::CaseGate;
use crate::nine::fetch;
use crate::programs::two_of_another;
use crate::stranger::{hand_in, is_stopped};
use crate::workers::{Worker, crew_result, seat_at};
use bursts::{Bench, Naming, WorkFault};
use pool::CrewFault;
use std::alloc::Global;
use std::sync::{Mutex, Wait};
use std::thread;
use std::thread::Threads;

/// Two results of another core are handed in, of process 1 and then of process 2. The first worker has loans in its deque, and is
/// held with one of them until the work is to stop. The second steals another one, fails by the result of process 1, and says stop.
/// Then the first fails by that of process 2. Says by which of them the crew stops.
pub fn play<N: Naming + Send + Sync, R: Threads + Wait + Sync>(
    rt: &R,
    alloc: Global,
    bench: &Mutex<Bench<'_, N>>,
    workers: &mut [Worker<'_, '_, '_, N>],
    line: &mut String,
) -> Result<(), Fault> {
    let (first, second) = two_of_another(alloc)?;
    let seat = seat_at(workers, 0)?;
    fetch(rt, seat)?;
    hand_in(rt, seat, first)?;
    hand_in(rt, seat, second)?;
    let gate = hold_first(workers)?;
    let worked = thread::scope(thread::scope_env(), rt, |scope| {
        let _ = scope.spawn(move || free_once_stopped(rt, bench, gate));
        crew_result(rt, workers)
    });
    let pid = rejected_process(&worked);
    Ok(write!(
        line,
        "of two turns that fail the first pair's, by the result of process {pid}, is the crew's"
    )?)
}

/// The first worker's gate holds from now on.
fn hold_first<'g, N: Naming>(workers: &mut [Worker<'_, '_, 'g, N>]) -> Result<CaseGate<'g>, Fault> {
    match workers.first_mut() {
        Some((_seat, gate)) => {
            *gate = gate.until_freed();
            Ok(*gate)
        }
        None => Err(Fault::NoSeat),
    }
}

/// Frees who is held at a gate, once the work is to stop.
fn free_once_stopped<N: Naming, R: Wait>(rt: &R, bench: &Mutex<Bench<'_, N>>, gate: CaseGate<'_>) {
    for _ in 0..10_000_000 {
        if is_stopped(rt, bench) {
            break;
        }
        thread::yield_now();
    }
    gate.free();
}

/// The process of the result by which a crew stopped. 0 where the crew stopped otherwise or not at all.
fn rejected_process(crew: &Result<(), CrewFault>) -> u32 {
    match crew {
        Err(CrewFault::Work(WorkFault::Settle(rejected))) => rejected.done.pid,
        _ => 0,
    }
}

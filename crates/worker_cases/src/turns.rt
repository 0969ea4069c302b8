//! Turns one after the other, at a seat and at a desk.
use crate::case::QUANTUM;
use crate::desk::turn;
use crate::fault::Fault;
use crate::looks::Looks;
use crate::workers::{Worker, crew, seat_at};
use bursts::{Bench, Gate, Naming, WorkFault};
use pool::{Pooled, Seat};
use run_threads::Desk;
use std::sync::{Mutex, Wait};
use std::thread::Threads;

/// One turn at a desk, then turns at the one seat until it is idle, and at the end a crew of nobody. Says how many turns at the
/// seat settled one result each, how often the gate was held, and how often with a process that was then out on loan.
pub fn play<N: Naming + Send + Sync, D: Desk, R: Threads + Wait + Sync>(
    rt: &R,
    bench: &Mutex<Bench<'_, N>>,
    workers: &mut [Worker<'_, '_, '_, N>],
    desk: &mut D,
    line: &mut String,
) -> Result<(), Fault> {
    let mut gate = Looks::new(rt, bench);
    if turn(desk, &mut gate).is_none() {
        return Err(Fault::NothingSettled);
    }
    let count = turns_at(rt, seat_at(workers, 0)?, &mut gate);
    crew(rt, &mut workers[..0])?;
    let held = gate.held;
    let lent = gate.lent;
    Ok(write!(
        line,
        "a turn at a desk, and {count} at a seat, each settle one result; held {held} times, {lent} with a process on loan"
    )?)
}

/// How many turns at a seat settle one result each, up to the first that is idle, or settles another number of results.
fn turns_at<N: Naming, G: Gate, R: Wait>(rt: &R, seat: &mut Seat<'_, '_, N>, gate: &mut G) -> u32 {
    for count in 0..10 {
        if !turns_one(rt, seat, gate) {
            return count;
        }
    }
    10
}

/// One turn at a seat. Says whether it settled one result.
fn turns_one<N: Naming, G: Gate, R: Wait>(
    rt: &R,
    seat: &mut Seat<'_, '_, N>,
    gate: &mut G,
) -> bool {
    let turned = seat.turn(rt, gate, QUANTUM);
    settles_one(&turned)
}

fn settles_one(turned: &Result<Pooled, WorkFault>) -> bool {
    match turned {
        Ok(Pooled::Worked(settling)) => settling.settled == 1,
        _ => false,
    }
}

//! One seat fetches loans among nine processes.
use crate::case::QUANTUM;
use crate::desk::turn;
use crate::fault::Fault;
use crate::gates::Open;
use crate::looks::is_lent;
use crate::workers::{Worker, seat_at};
use bursts::{Bench, Naming};
use pool::Seat;
use run_threads::Desk;
use std::sync::{Mutex, Wait};

/// How many processes there are, once the first of eight has forked.
const PROCESSES: u32 = 9;

/// How many loans a seat is lent at once.
const AT_ONCE: usize = 8;

/// A process forks at a desk. Then one seat fetches eight loans. Says of which processes, and how many processes are lent after the
/// first of them, and after the last. All are lent with the first, so the ninth is lent with a further one.
pub fn play<N: Naming, D: Desk, R: Wait>(
    rt: &R,
    bench: &Mutex<Bench<'_, N>>,
    workers: &mut [Worker<'_, '_, '_, N>],
    desk: &mut D,
    line: &mut String,
) -> Result<(), Fault> {
    if turn(desk, &mut Open).is_none() {
        return Err(Fault::NothingSettled);
    }
    let seat = seat_at(workers, 0)?;
    let mut fetched = [fetch(rt, seat)?; AT_ONCE];
    let first = lent_in(rt, bench);
    for place in 1..AT_ONCE {
        fetched[place] = fetch(rt, seat)?;
    }
    let last = lent_in(rt, bench);
    fetch(rt, seat)?;
    let all = lent_in(rt, bench);
    Ok(write!(
        line,
        "a seat fetches processes {fetched:?}; lent are {first} of {PROCESSES} after the first, {last} after the last, then {all}"
    )?)
}

/// Whose loan a seat fetches. The loan is dropped.
pub fn fetch<N: Naming, R: Wait>(rt: &R, seat: &mut Seat<'_, '_, N>) -> Result<u32, Fault> {
    match seat.fetch(rt, QUANTUM)? {
        Some(loan) => Ok(loan.pid),
        None => Err(Fault::NothingLent),
    }
}

/// How many of the processes are out on loan.
fn lent_in<N: Naming, R: Wait>(rt: &R, bench: &Mutex<Bench<'_, N>>) -> u32 {
    let mut lent = 0u32;
    for pid in 1..PROCESSES + 1 {
        if is_lent(rt, bench, pid) {
            lent = lent.saturating_add(1);
        }
    }
    lent
}

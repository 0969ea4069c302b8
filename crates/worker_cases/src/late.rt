//! A worker that is idle while a process is lent at a desk, and a result that lies in the queue before it begins.
use crate::case::QUANTUM;
use crate::fault::Fault;
use crate::stranger::hand_in;
use crate::workers::{Worker, crew, seat_at};
use bursts::{Bench, Done, Naming, run_loan};
use kernel::{Loan, Standing};
use run_threads::Desk;
use std::sync::{Mutex, Wait};
use std::thread;
use std::thread::Threads;

/// A desk, and a result that it is to settle late.
#[derive(Drop)]
struct Late<'x, D: Desk> {
    desk: &'x mut D,
    done: Option<Done>,
}

/// Process 1 is lent at a desk, and process 2 at a seat, whose result is put into the queue and is not settled. Then one worker
/// works. It settles that result, since else nothing is lendable, and runs process 2 to its end. It is idle until the desk settles
/// its loan, and then runs process 1 to its end. Says how many events there were.
pub fn play<N: Naming + Send + Sync, D: Desk + Send, R: Threads + Wait + Sync>(
    rt: &R,
    bench: &Mutex<Bench<'_, N>>,
    workers: &mut [Worker<'_, '_, '_, N>],
    desk: &mut D,
    line: &mut String,
) -> Result<(), Fault> {
    let at_desk = run_loan(lent(desk.lend(QUANTUM)?)?);
    let seat = seat_at(workers, 0)?;
    let at_seat = run_loan(lent(seat.fetch(rt, QUANTUM)?)?);
    hand_in(rt, seat, at_seat)?;
    let late = Mutex::new(Late {
        desk: &mut *desk,
        done: Some(at_desk),
    });
    work_and_settle(rt, bench, workers, &late)?;
    let events = bench.lock(rt).core().history().len();
    Ok(write!(
        line,
        "a worker idle while a process is lent elsewhere: {events} events"
    )?)
}

/// The workers work until the work is over, while the result is settled late.
fn work_and_settle<N: Naming + Send + Sync, D: Desk + Send, R: Threads + Wait + Sync>(
    rt: &R,
    bench: &Mutex<Bench<'_, N>>,
    workers: &mut [Worker<'_, '_, '_, N>],
    late: &Mutex<Late<'_, D>>,
) -> Result<(), Fault> {
    thread::scope(thread::scope_env(), rt, |scope| {
        let _ = scope.spawn(move || settle_late(rt, bench, late));
        crew(rt, workers)
    })
}

fn lent(given: Option<Loan>) -> Result<Loan, Fault> {
    given.ok_or(Fault::NothingLent)
}

/// Settles the result at its desk, once process 2 has ended, and a while after that.
fn settle_late<N: Naming, D: Desk, R: Wait>(
    rt: &R,
    bench: &Mutex<Bench<'_, N>>,
    late: &Mutex<Late<'_, D>>,
) {
    let mut after = 0u32;
    for _ in 0..1_000_000 {
        if has_ended(rt, bench) {
            after = after.saturating_add(1);
        }
        if after > 100 {
            break;
        }
        thread::yield_now();
    }
    let mut late = late.lock(rt);
    if let Some(done) = late.done.take() {
        let _ = late.desk.settle(done);
    }
}

fn has_ended<N: Naming, R: Wait>(rt: &R, bench: &Mutex<Bench<'_, N>>) -> bool {
    matches!(bench.lock(rt).core().standing(2), Ok(Standing::Ended))
}

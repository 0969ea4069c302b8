//! Both programs run to their ends by two workers, and committed from a third desk.
use crate::desk::commit;
use crate::fault::Fault;
use crate::workers::{Worker, crew};
use bursts::{Bench, Naming};
use run_threads::Desk;
use std::sync::{Mutex, Wait};
use std::thread::Threads;

/// Two workers run both programs to their ends; then a third desk commits. Says how many events there were before that.
pub fn play<N: Naming + Send + Sync, D: Desk, R: Threads + Wait + Sync>(
    rt: &R,
    bench: &Mutex<Bench<'_, N>>,
    workers: &mut [Worker<'_, '_, '_, N>],
    desk: &mut D,
    line: &mut String,
) -> Result<(), Fault> {
    crew(rt, workers)?;
    let events = bench.lock(rt).core().history().len();
    write!(line, "two workers: {events} events")?;
    commit(desk)
}

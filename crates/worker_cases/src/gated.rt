//! Two workers at work at once: one is held until the other, which has to steal its loan from it, has had two.
use crate::fault::Fault;
use crate::workers::{Worker, crew};
use bursts::{Bench, Naming};
use std::sync::{Mutex, Wait};
use std::thread::Threads;

/// Two workers with gates that hold run both programs to their ends. Says how many instructions ran.
pub fn play<N: Naming + Send + Sync, R: Threads + Wait + Sync>(
    rt: &R,
    bench: &Mutex<Bench<'_, N>>,
    workers: &mut [Worker<'_, '_, '_, N>],
    line: &mut String,
) -> Result<(), Fault> {
    crew(rt, workers)?;
    if is_late(workers) {
        return Err(Fault::Late);
    }
    let ran = bench.lock(rt).core().ran();
    Ok(write!(
        line,
        "one worker held while the other steals: {ran} instructions"
    )?)
}

/// Whether the gates of these workers, which share what they count, were late.
fn is_late<N: Naming>(workers: &[Worker<'_, '_, '_, N>]) -> bool {
    match workers.first() {
        Some((_seat, gate)) => gate.is_late(),
        None => true,
    }
}

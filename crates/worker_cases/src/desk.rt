//! All turns of both programs at one desk, with a group that is committed after the first and one that fails at the end, and what
//! the board shows. 18 events are wanted. Six loans are a Turn and an Enter each; a Cut and two completions, and a Cut, a completion
//! and a failure, are the others.
use crate::case::QUANTUM;
use crate::fault::Fault;
use crate::gates::Open;
use bursts::{Gate, Naming, WorkFault};
use kernel::{Answer, Event};
use run_threads::{BoardReader, Desk, Turned, worker_turn};
use std::alloc::AllocError;
use std::sync::Wait;

/// What the turns came to.
#[derive(Clone, Copy)]
struct Found {
    /// What the board showed after the first turn, after the commit, and at the end.
    shown: [(u64, u64); 3],
    /// Whether the desk was over at first, after the commit, and once it was told to stop.
    over: [bool; 3],
    /// How many instructions the first turn ran.
    first: u32,
    /// How many turns settled a result after the commit.
    rest: u32,
    /// The answer where the gate of the last group failed.
    failed: Answer,
}

/// How many instructions a settled result ran. None where a turn is idle or fails.
fn count_of(turned: &Result<Turned, WorkFault>) -> Option<u32> {
    match turned {
        Ok(Turned::Settled(Answer::Settled { count, .. })) => Some(*count),
        _ => None,
    }
}

/// A turn of a worker. How many instructions its result ran; None where it is idle or fails.
pub fn turn<D: Desk, G: Gate>(desk: &mut D, gate: &mut G) -> Option<u32> {
    let turned = worker_turn(desk, gate, QUANTUM);
    count_of(&turned)
}

/// How many turns of a worker settle a result, up to the first that is idle or fails, at most 10.
fn turns<D: Desk>(desk: &mut D) -> u32 {
    for count in 0..10 {
        if turn(desk, &mut Open).is_none() {
            return count;
        }
    }
    10
}

/// A Cut and the completion of its two writes.
pub fn commit<D: Desk>(desk: &mut D) -> Result<(), Fault> {
    desk.apply(Event::Cut)?;
    for _ in 0..2 {
        let at = first_in_flight(desk)?;
        desk.apply(Event::Complete { at })?;
    }
    Ok(())
}

/// A Cut, the completion of its record, and the failure of its gate, which is written last. Gives the failure's answer.
fn fail_to_commit<D: Desk>(desk: &mut D) -> Result<Answer, Fault> {
    desk.apply(Event::Cut)?;
    let record = first_in_flight(desk)?;
    desk.apply(Event::Complete { at: record })?;
    let gate = first_in_flight(desk)?;
    Ok(desk.apply(Event::Fail { at: gate })?)
}

fn first_in_flight<D: Desk>(desk: &mut D) -> Result<u32, Fault> {
    desk.in_flight().ok_or(Fault::NoWrite)
}

/// The first turn, and a commit. Gives how many instructions the turn ran, and what the board showed after each.
fn begin<N: Naming, D: Desk, R: Wait>(
    rt: &R,
    reader: &mut BoardReader<'_, N>,
    desk: &mut D,
) -> Result<(u32, [(u64, u64); 2]), Fault> {
    let Some(first) = turn(desk, &mut Open) else {
        return Err(Fault::NothingSettled);
    };
    let made = reader.seen(rt);
    commit(desk)?;
    Ok((first, [made, reader.seen(rt)]))
}

fn all_turns<N: Naming, D: Desk, R: Wait>(
    rt: &R,
    reader: &mut BoardReader<'_, N>,
    desk: &mut D,
) -> Result<Found, Fault> {
    let before = desk.over(QUANTUM);
    let (first, [made, committed]) = begin(rt, reader, desk)?;
    let between = desk.over(QUANTUM);
    desk.stop();
    let after = desk.over(QUANTUM);
    let rest = turns(desk);
    let failed = fail_to_commit(desk)?;
    Ok(Found {
        shown: [made, committed, reader.seen(rt)],
        over: [before, between, after],
        first,
        rest,
        failed,
    })
}

fn say(found: Found, line: &mut String) -> Result<(), AllocError> {
    let Found {
        shown,
        over,
        first,
        rest,
        failed,
    } = found;
    write!(
        line,
        "a desk: {first} instructions, then {rest} turns; over {over:?}; at the end {failed:?}; the board {shown:?}"
    )
}

/// All turns at a desk. Says what they came to.
pub fn play<N: Naming, D: Desk, R: Wait>(
    rt: &R,
    reader: &mut BoardReader<'_, N>,
    desk: &mut D,
    line: &mut String,
) -> Result<(), Fault> {
    let found = all_turns(rt, reader, desk)?;
    Ok(say(found, line)?)
}

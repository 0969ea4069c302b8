//! Sets up and plays a case: a core of two or eight programs, its board, its bench, and a pool over the bench with its workers.
ghost use Rattle.std.specs.Prelude.{◌≡◌, ◌≤◌, ◌<◌};
ghost use Rattle.kernel_model.specs.Answers.{now, committed as committed_in, changes as changes_in};

use crate::fault::Fault;
use crate::gates::{CaseGate, Lendings};
use crate::programs::{boot, boot_forkers};
use crate::workers::{Worker, shares_of, workers_of};
use crate::{by_crew, desk, faults, gated, late, nine, stranger, turns};
use bursts::{Bench, Blanks, Naming, Share, board_of, gather, totals_of};
use kernel::Core;
use pool::Pool;
use run_threads::{BoardReader, Desk, LockedDesk};
use std::alloc::{AllocError, Global};
use std::marker::Brand;
use std::sync::{Mutex, Wait};
use std::thread::Threads;

/// How many instructions a loan has at most.
pub const QUANTUM: u32 = 100;

/// A case: what is done at a pool, or at a desk.
#[derive(Clone, Copy)]
pub enum Case {
    /// Two workers run both programs to their ends; then a third desk commits.
    ByCrew,
    /// Two workers run both programs to their ends, and one is held until the other has stolen its loan.
    Gated,
    /// One turn at a desk, and then turns at the one seat until it is idle; and at the end a crew of nobody.
    Turns,
    /// A result of another core is handed in, and the work is to stop before two workers begin.
    Idle,
    /// Two results of another core, by each of which a turn fails.
    Faults,
    /// One seat fetches loans among nine processes.
    Nine,
    /// One worker is idle until a desk settles its loan.
    Late,
    /// All turns at a desk, with a group that is committed and one that fails.
    Desk,
}

impl Case {
    /// For how many workers the pool of the case is.
    fn workers(self) -> u32
        ensures { (1 ≤ result) × (result ≤ 16) }
    {
        match self {
            Case::Turns | Case::Desk | Case::Nine | Case::Late => 1,
            _ => 2,
        }
    }
}

/// Plays a case over a core of its programs, and adds its line.
pub fn play<R: Threads + Wait + Sync>(
    rt: &R,
    alloc: Global,
    case: Case,
    line: &mut String,
) -> Result<(), Fault> {
    let core = match case {
        Case::Faults | Case::Nine => boot_forkers(alloc)?,
        _ => boot(alloc)?,
    };
    play_named::<Brand, R>(rt, alloc, core, Blanks::new(), case, line)
}

/// Plays a case over this core; `N` names its ledgers and its board.
fn play_named<N: Naming + Send + Sync, R: Threads + Wait + Sync>(
    rt: &R,
    alloc: Global,
    core: Core,
    blanks: Blanks,
    case: Case,
    line: &mut String,
) -> Result<(), Fault>
    requires committed { committed_in (now core) ≡ N.committed }
    requires changes { changes_in (now core) ≡ N.changes }
    requires events { (blanks.events.name ≡ N.events) × (blanks.events.parts ≡ 64) }
    requires ran { (blanks.ran.name ≡ N.ran) × (blanks.ran.parts ≡ 64) }
    requires turns { (blanks.turns.name ≡ N.turns) × (blanks.turns.parts ≡ 64) }
    requires enters { (blanks.enters.name ≡ N.enters) × (blanks.enters.parts ≡ 64) }
    requires loans { blanks.loans.seen.book ≡ N.book }
{
    let (board, writer, pass) = board_of::<N>(alloc, &core)?;
    let board = &board;
    let mut reader = BoardReader::new(board, pass);
    let (bench, share) = Bench::new(core, board, writer, blanks);
    play_over(rt, alloc, bench, share, &mut reader, case, line)
}

/// Plays a case at a pool over this bench, with its one share.
fn play_over<N: Naming + Send + Sync, R: Threads + Wait + Sync>(
    rt: &R,
    alloc: Global,
    bench: Bench<'_, N>,
    share: Share<N>,
    reader: &mut BoardReader<'_, N>,
    case: Case,
    line: &mut String,
) -> Result<(), Fault>
    requires { share.parts ≡ 64 }
{
    match Pool::new(alloc, bench, case.workers()) {
        Ok(pool) => play_in(rt, alloc, pool, share, reader, case, line),
        Err(_) => Err(Fault::OutOfMemory),
    }
}

/// Plays a case at this pool, which then ends, and says what its core came to.
fn play_in<N: Naming + Send + Sync, R: Threads + Wait + Sync>(
    rt: &R,
    alloc: Global,
    pool: Pool<'_, N>,
    share: Share<N>,
    reader: &mut BoardReader<'_, N>,
    case: Case,
    line: &mut String,
) -> Result<(), Fault>
    requires { pool.workers < share.parts }
{
    let shares = play_at(rt, alloc, &pool, share, reader, case, line)?;
    let shown = reader.seen(rt);
    Ok(say_core(alloc, gather(pool.end(), shares), shown, case, line)?)
}

/// Plays a case by the workers of this pool. Gives all shares.
fn play_at<N: Naming + Send + Sync, R: Threads + Wait + Sync>(
    rt: &R,
    alloc: Global,
    pool: &Pool<'_, N>,
    share: Share<N>,
    reader: &mut BoardReader<'_, N>,
    case: Case,
    line: &mut String,
) -> Result<Vec<Share<N>>, Fault>
    requires { pool.now.workers < share.parts }
{
    let lendings = Lendings::none();
    let gate = CaseGate::new(&lendings, matches!(case, Case::Gated));
    let mut share = share;
    let mut workers = workers_of(alloc, pool, &mut share, gate)?;
    let mut desk = LockedDesk::new(rt, alloc, pool.bench(), share);
    let played = play_by(
        rt,
        alloc,
        pool.bench(),
        workers.as_mut_slice(),
        &mut desk,
        reader,
        case,
        line,
    );
    let share = desk.end();
    played?;
    say_share(&share, case, line)?;
    Ok(shares_of(alloc, workers, share)?)
}

fn play_by<N: Naming + Send + Sync, D: Desk + Send, R: Threads + Wait + Sync>(
    rt: &R,
    alloc: Global,
    bench: &Mutex<Bench<'_, N>>,
    workers: &mut [Worker<'_, '_, '_, N>],
    desk: &mut D,
    reader: &mut BoardReader<'_, N>,
    case: Case,
    line: &mut String,
) -> Result<(), Fault> {
    match case {
        Case::ByCrew => by_crew::play(rt, bench, workers, desk, line),
        Case::Gated => gated::play(rt, bench, workers, line),
        Case::Turns => turns::play(rt, bench, workers, desk, line),
        Case::Idle => stranger::play(rt, alloc, bench, workers, line),
        Case::Faults => faults::play(rt, alloc, bench, workers, line),
        Case::Nine => nine::play(rt, bench, workers, desk, line),
        Case::Late => late::play(rt, bench, workers, desk, line),
        Case::Desk => desk::play(rt, reader, desk, line),
    }
}

/// Says what the desk's share has, in the case `Desk`.
fn say_share<N: Naming>(share: &Share<N>, case: Case, line: &mut String) -> Result<(), AllocError> {
    let Case::Desk = case else {
        return Ok(());
    };
    let totals = share.totals();
    let parts = share.parts();
    write!(line, "; its share {totals:?} in {parts} parts")
}

/// Says what a core came to, which then ends.
fn say_core(
    alloc: Global,
    core: Core,
    shown: (u64, u64),
    case: Case,
    line: &mut String,
) -> Result<(), AllocError> {
    match case {
        Case::ByCrew => say_whole(alloc, &core, shown, line),
        Case::Desk => say_totals(&core, line),
        _ => Ok(()),
    }
}

/// Says a core's totals, what its terminals show, and what its board showed at the end.
fn say_whole(
    alloc: Global,
    core: &Core,
    shown: (u64, u64),
    line: &mut String,
) -> Result<(), AllocError> {
    let totals = totals_of(core);
    let first = hex::encode(alloc, core.shown(0))?;
    let second = hex::encode(alloc, core.shown(1))?;
    write!(
        line,
        ", then {totals:?}; shown 0 {first}, shown 1 {second}; the board {shown:?}"
    )
}

fn say_totals(core: &Core, line: &mut String) -> Result<(), AllocError> {
    let totals = totals_of(core);
    write!(line, "; all {totals:?}")
}

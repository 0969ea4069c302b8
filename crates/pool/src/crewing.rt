//! `pool_crew`: a crew, which is a thread for each seat and its gate.
ghost use Rattle.std.specs.Prelude.{◌≡◌};
ghost use Rattle.pool.specs.Crews.{earlier, next_after as next_of, AsksThen, TakesTurn, WorksUntil};

use crate::fault::CrewFault;
use crate::seats::Seat;
use bursts::{Gate, Naming, Rejected, WorkFault};
use idle::Backoff;
use std::slice::IterMut;
use std::sync::atomic::{AtomicBool, Ordering};
use std::sync::{Mutex, Wait};
use std::thread;
use std::thread::Threads;

/// The longest sleep of a worker that finds nothing to do, in times of 100 microseconds. Others may be awake meanwhile.
const MOST_PAUSES: u32 = 100;

/// The pairs that no thread has taken yet, and how many were taken.
#[derive(Drop)]
struct Team<'x, 'p, 'b, N: Naming, G> {
    rest: IterMut<'x, (Seat<'p, 'b, N>, G)>,
    taken: usize,
}

/// The fault of the first pair that had one, with its place.
#[derive(Drop)]
struct First {
    fault: Option<(usize, WorkFault)>,
}

impl First {
    /// Keeps a fault, unless one of a pair before it is kept.
    fn keep(&mut self, place: usize, fault: WorkFault)
        ensures { self.new.fault ≡ earlier self.old.fault place fault }
    {
        let is_first = match &self.fault {
            Some((kept, _)) => place < *kept,
            None => true,
        };
        if is_first {
            self.fault = Some((place, fault));
        }
    }
}

/// What the threads of a crew share.
#[derive(Drop)]
struct Watch {
    first: Mutex<First>,
    refused: AtomicBool,
}

impl Watch {
    /// As `First::keep`, under its lock.
    fn keep<R: Wait>(&self, rt: &R, place: usize, fault: WorkFault) {
        self.first.lock(rt).keep(place, fault);
    }
}

/// Starts a thread for each pair. Each takes turns at its seat until the work is over: no process is lent and none lendable, or the
/// work is to stop. A refusal makes the work stop first. It is NoThread where a thread could not be started, else the fault of a
/// turn that failed, of several that of the first pair. After it there may still be loans at the seats, and results in the queue.
pub fn pool_crew<'p, 'b, N: Naming + Send + Sync, G: Gate + Send, R: Threads + Wait + Sync>(
    rt: &R,
    work: &mut [(Seat<'p, 'b, N>, G)],
    quantum: u32,
) -> Result<(), CrewFault> {
    let watch = Watch {
        first: Mutex::new(First { fault: None }),
        refused: AtomicBool::new(false),
    };
    let count = work.len();
    let team = Mutex::new(Team {
        rest: work.iter_mut(),
        taken: 0,
    });
    start_all(rt, &team, count, quantum, &watch);
    let Watch { first, refused } = watch;
    if refused.load(Ordering::SeqCst) {
        return Err(CrewFault::NoThread);
    }
    match first.into_inner().fault {
        Some((_, fault)) => Err(CrewFault::Work(fault)),
        None => Ok(()),
    }
}

/// Starts a thread for each pair, and waits for all of them. Where one cannot be started, the caller takes its place, to say stop.
fn start_all<N: Naming + Send + Sync, G: Gate + Send, R: Threads + Wait + Sync>(
    rt: &R,
    team: &Mutex<Team<'_, '_, '_, N, G>>,
    count: usize,
    quantum: u32,
    watch: &Watch,
) {
    thread::scope(thread::scope_env(), rt, |scope| {
        for _ in 0..count {
            if scope
                .spawn(move || take_part(rt, team, quantum, watch))
                .is_err()
            {
                watch.refused.store(true, Ordering::SeqCst);
                take_part(rt, team, quantum, watch);
            }
        }
    });
}

/// What one thread of a crew does: it takes the next pair, and works.
fn take_part<N: Naming, G: Gate, R: Wait>(
    rt: &R,
    team: &Mutex<Team<'_, '_, '_, N, G>>,
    quantum: u32,
    watch: &Watch,
) {
    if let Some((place, pair)) = next_pair(rt, team) {
        serve(rt, pair, quantum, place, watch);
    }
}

/// The next pair of a team, with its place.
fn next_pair<'x, 'p, 'b, N: Naming, G, R: Wait>(
    rt: &R,
    team: &Mutex<Team<'x, 'p, 'b, N, G>>,
) -> Option<(usize, &'x mut (Seat<'p, 'b, N>, G))> {
    let mut team = team.lock(rt);
    let place = team.taken;
    team.taken = place.wrapping_add(1);
    let pair = team.rest.next()?;
    Some((place, pair))
}

/// Works at a seat, and says stop where a turn failed, or where a thread was refused before.
fn serve<N: Naming, G: Gate, R: Wait>(
    rt: &R,
    pair: &mut (Seat<'_, '_, N>, G),
    quantum: u32,
    place: usize,
    watch: &Watch,
) {
    let (seat, gate) = pair;
    if watch.refused.load(Ordering::SeqCst) {
        seat.stop(rt);
        return;
    }
    if let Some(fault) = work_on(rt, seat, gate, quantum) {
        seat.stop(rt);
        watch.keep(rt, place, fault);
    }
}

/// What a worker does after a turn.
#[derive(Drop)]
enum Next {
    /// It asks for a loan again at once.
    Ask,
    /// It rests before it asks again.
    Rest,
    /// It takes no more turns, as one failed, or as the work is over.
    End(Option<WorkFault>),
}

/// What it does once it has asked whether the work is over.
fn next_after(over: Result<bool, Rejected>) -> Next
    ensures { result ≡ next_of over }
{
    match over {
        Ok(true) => Next::End(None),
        Ok(false) => Next::Rest,
        Err(rejected) => Next::End(Some(WorkFault::Settle(rejected))),
    }
}

/// Settles what is in the queue, after which the work may be over.
fn after_idle_turn<N: Naming, R: Wait>(rt: &R, seat: &mut Seat<'_, '_, N>, quantum: u32) -> Next
    ensures { AsksThen seat.old seat.new result }
{
    next_after(seat.is_over(rt, quantum))
}

fn take_turn<N: Naming, G: Gate, R: Wait>(
    rt: &R,
    seat: &mut Seat<'_, '_, N>,
    gate: &mut G,
    quantum: u32,
) -> Next
    ensures { TakesTurn G.holds quantum (seat.old, gate.old) (seat.new, gate.new) result }
{
    match seat.turn_on(rt, gate, quantum) {
        Ok(true) => Next::Ask,
        Ok(false) => after_idle_turn(rt, seat, quantum),
        Err(fault) => Next::End(Some(fault)),
    }
}

/// Takes turns until the bench answers that the work is over, or a turn fails, and gives that turn's fault. A worker that wakes and
/// finds the lock taken sleeps on, since others are awake. One that found work since it slept asks in any case.
fn work_on<N: Naming, G: Gate, R: Wait>(
    rt: &R,
    seat: &mut Seat<'_, '_, N>,
    gate: &mut G,
    quantum: u32,
) -> Option<WorkFault>
    ensures { WorksUntil G.holds quantum (seat.old, gate.old) (seat.new, gate.new) result }
{
    let mut rest = Backoff::up_to(MOST_PAUSES);
    for _ in rt.forever() {
        if rest.is_asleep() && !seat.is_lock_free() {
            rest.take(rt);
            continue;
        }
        match take_turn(rt, seat, gate, quantum) {
            Next::Ask => rest.shorten(),
            Next::Rest => rest.take(rt),
            Next::End(fault) => return fault,
        }
    }
    unreachable!()
}

//! `Run`: makes the board, the bench, the pool and its seats, has the threads of a run work there, and waits for their end.
ghost use Rattle.std.specs.Prelude.{◌≡◌, ◌≤◌, ◌<◌};
ghost use Rattle.kernel_model.specs.Answers.{now, committed as committed_in, changes as changes_in};

use crate::settings::Settings;
use bursts::{Bench, Blanks, Gate, Naming, Share, board_of, gather};
use durable_disk::{Completions, DiskFile, HostFile};
use kernel::Core;
use pool::{Pool, Seat, pool_crew};
use run_threads::{BoardReader, CommitThread, LockedDesk, RunFault, Screen, Watch};
use std::alloc::{AllocError, Global};
use std::io::Write;
use std::marker::Brand;
use std::sync::{Mutex, Wait};
use std::thread;
use std::thread::Threads;

/// A gate that holds nobody.
#[derive(Drop)]
struct Open;

impl Gate for Open {
    fn hold(&mut self, _pid: u32) {}
}

/// A worker: its seat, and its gate.
type Worker<'p, 'b, N> = (Seat<'p, 'b, N>, Open);

/// The workers, until the thread that leads them takes them.
#[derive(Drop)]
struct Crew<'x, 'p, 'b, N: Naming> {
    workers: Option<&'x mut [Worker<'p, 'b, N>]>,
}

/// What the threads of a run share.
#[derive(Drop)]
struct Threading<'x, 'r, 'p, 'b, 'c, N: Naming, R: Wait, F: DiskFile> {
    bench: &'p Mutex<Bench<'b, N>>,
    crew: Mutex<Crew<'x, 'p, 'b, N>>,
    committing: Mutex<CommitThread<'r, 'p, 'b, 'c, N, R, F>>,
    watch: Watch,
    quantum: u32,
}

/// A run of a core to its end: how it is done, the file that holds its disk, if one does, and where what terminals show goes.
#[derive(Drop)]
pub struct Run<'o, F, O> {
    alloc: Global,
    settings: Settings,
    file: Option<F>,
    screen: Screen<'o, O>,
}

impl<'o, O: Write> Run<'o, HostFile, O> {
    /// A run whose disk no file holds.
    pub fn new(alloc: Global, settings: Settings, out: &'o mut O) -> Run<'o, HostFile, O> {
        Run {
            alloc,
            settings,
            file: None,
            screen: Screen::new(out, settings.terminal),
        }
    }

    /// The same run, on a file that holds its disk, if one is given: each write that was in flight is written to the file and synced
    /// before it is complete. So what is shown rests on changes that the file holds. At the start the file has to hold the disk with
    /// which the core was booted.
    pub fn on_file<F: DiskFile + Drop>(self, file: Option<F>) -> Run<'o, F, O> {
        let Run {
            alloc,
            settings,
            screen,
            ..
        } = self;
        Run {
            alloc,
            settings,
            file,
            screen,
        }
    }
}

impl<'o, F: DiskFile + Send + Drop, O: Write> Run<'o, F, O> {
    /// Runs a core until every process has ended, or nothing is lent and nothing is lendable. Worker threads run the processes, one
    /// thread commits what output waits for, and what a terminal shows, or what all show, is written out at once. Then all changes
    /// are committed, and the rest is written. Gives the core as it then stands.
    ///
    /// Where `settings.fail` says so, one completion of the run is a failure in its place. Completions at the run's end count too.
    /// The run goes on to its end all the same. Some changes are then not committed, exactly where a write has failed. Where the
    /// file refuses a write or a sync, the writes in flight have failed, and the run goes on in the same way.
    ///
    /// OutOfMemory: memory, a thread, or room in the history could not be had. Output: what terminals show could not be written.
    /// Either ends the run. DiskFailed: a write of the core had failed before the run, which has no file, and `settings.fail` is
    /// None; this is found after the workers have ended. What was written stays. No write of a core may have failed before its run
    /// on a file.
    pub fn to_end<R: Threads + Wait + Sync>(
        &mut self,
        rt: &R,
        core: Core,
    ) -> Result<Core, RunFault> {
        let drains = !self.finishes();
        let mut core = self.on_board::<Brand, R>(rt, core, Blanks::new())?;
        if drains {
            core.drain()?;
        }
        self.screen.finish(self.alloc, &core)?;
        Ok(core)
    }

    /// Whether the thread that commits does so also with the changes that are left at the end.
    fn finishes(&self) -> bool {
        self.settings.fail.is_some() || self.file.is_some()
    }

    /// Makes the board, the bench, the pool and its seats, and has the threads work there. `N` has the names of the run's ledgers and
    /// of its board.
    fn on_board<N: Naming + Send + Sync, R: Threads + Wait + Sync>(
        &mut self,
        rt: &R,
        core: Core,
        blanks: Blanks,
    ) -> Result<Core, RunFault>
        requires committed { committed_in (now core) ≡ N.committed }
        requires changes { changes_in (now core) ≡ N.changes }
        requires events { (blanks.events.name ≡ N.events) × (blanks.events.parts ≡ 64) }
        requires ran { (blanks.ran.name ≡ N.ran) × (blanks.ran.parts ≡ 64) }
        requires turns { (blanks.turns.name ≡ N.turns) × (blanks.turns.parts ≡ 64) }
        requires enters { (blanks.enters.name ≡ N.enters) × (blanks.enters.parts ≡ 64) }
        requires loans { blanks.loans.seen.book ≡ N.book }
    {
        let finishes = self.finishes();
        let (board, writer, pass) = board_of::<N>(self.alloc, &core)?;
        let board = &board;
        let (bench, mut share) = Bench::new(core, board, writer, blanks);
        let Ok(pool) = Pool::new(self.alloc, bench, self.settings.workers) else {
            return Err(RunFault::OutOfMemory);
        };
        {
            let mut workers = workers_of(self.alloc, &pool, &mut share)?;
            let desk = LockedDesk::new(rt, self.alloc, pool.bench(), share);
            let reader = BoardReader::new(board, pass);
            let completions = Completions::none(self.settings.fail);
            let committing = CommitThread::new(reader, desk, self.file.take(), completions);
            let threading = Threading::new(
                &pool,
                workers.as_mut_slice(),
                committing,
                self.settings.quantum,
            );
            threading.run(rt, self.alloc, &mut self.screen);
            let mut committing = threading.end()?;
            if finishes {
                committing.finish(rt)?;
            }
        }
        Ok(gather(pool.end(), Vec::new(self.alloc)))
    }
}

/// A worker for each seat of a pool.
fn workers_of<'p, 'b, N: Naming>(
    alloc: Global,
    pool: &'p Pool<'b, N>,
    share: &mut Share<N>,
) -> Result<Vec<Worker<'p, 'b, N>>, AllocError>
    requires { pool.now.workers < share.old.parts }
{
    let mut workers = Vec::new(alloc);
    for seat in pool.seats(alloc, share)? {
        workers.push((seat, Open))?;
    }
    Ok(workers)
}

fn lead<N: Naming + Send + Sync, R: Threads + Wait + Sync, F: DiskFile + Drop>(
    rt: &R,
    threading: &Threading<'_, '_, '_, '_, '_, N, R, F>,
) {
    if let Some(workers) = workers_in(rt, &threading.crew) {
        // Workers meet want of memory and a full history alone: all other refusals are of results that are not theirs.
        if pool_crew(rt, workers, threading.quantum).is_err() {
            threading.watch.note(rt, RunFault::OutOfMemory);
        }
    }
    threading.watch.end();
}

/// Takes the workers out; None if they were taken before.
fn workers_in<'x, 'p, 'b, N: Naming, R: Wait>(
    rt: &R,
    crew: &Mutex<Crew<'x, 'p, 'b, N>>,
) -> Option<&'x mut [Worker<'p, 'b, N>]> {
    crew.lock(rt).workers.take()
}

fn commit<N: Naming, R: Wait, F: DiskFile + Drop>(
    rt: &R,
    threading: &Threading<'_, '_, '_, '_, '_, N, R, F>,
) {
    let mut committing = threading.committing.lock(rt);
    committing.serve(rt, &threading.watch);
}

fn show<N: Naming, R: Wait, F: DiskFile + Drop, O: Write>(
    rt: &R,
    alloc: Global,
    threading: &Threading<'_, '_, '_, '_, '_, N, R, F>,
    screen: &Mutex<&mut Screen<'_, O>>,
) {
    let mut screen = screen.lock(rt);
    screen.serve(rt, alloc, threading.bench, &threading.watch);
}

impl<
    'x,
    'r,
    'p,
    'b,
    'c,
    N: Naming + Send + Sync,
    R: Threads + Wait + Sync,
    F: DiskFile + Send + Drop,
> Threading<'x, 'r, 'p, 'b, 'c, N, R, F> {
    /// Threads that have not begun.
    fn new(
        pool: &'p Pool<'b, N>,
        workers: &'x mut [Worker<'p, 'b, N>],
        committing: CommitThread<'r, 'p, 'b, 'c, N, R, F>,
        quantum: u32,
    ) -> Threading<'x, 'r, 'p, 'b, 'c, N, R, F> {
        Threading {
            bench: pool.bench(),
            crew: Mutex::new(Crew {
                workers: Some(workers),
            }),
            committing: Mutex::new(committing),
            watch: Watch::new(),
            quantum,
        }
    }

    /// Starts the threads, and writes what terminals show until no worker works any more; then waits for the threads.
    fn run<O: Write>(&self, rt: &R, alloc: Global, screen: &mut Screen<'_, O>) {
        let screen = Mutex::new(screen);
        let screen = &screen;
        thread::scope(thread::scope_env(), rt, |scope| {
            let is_led = scope.spawn(move || lead(rt, self)).is_ok();
            let is_served = scope.spawn(move || commit(rt, self)).is_ok();
            if !is_led {
                self.watch.end();
            }
            if !is_led || !is_served {
                self.give_up(rt, RunFault::OutOfMemory);
            }
            show(rt, alloc, self, screen);
        });
    }

    /// Takes the part of the thread that commits out of what the threads shared. The first fault, if one came, is the error.
    fn end(self) -> Result<CommitThread<'r, 'p, 'b, 'c, N, R, F>, RunFault> {
        let Threading {
            committing,
            watch,
            ..
        } = self;
        watch.result()?;
        Ok(committing.into_inner())
    }

    /// Keeps the fault, and has the workers stop.
    fn give_up(&self, rt: &R, fault: RunFault) {
        self.watch.note(rt, fault);
        self.bench.lock(rt).stop();
    }
}

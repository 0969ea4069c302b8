//! `CommitThread`: the thread that commits what output waits for.
ghost use Rattle.std.specs.Prelude.{◌≡◌, option_map};
ghost use Rattle.run_threads.specs.Committing.{Completes, TellsNothing, DoesStages};

use crate::backoff::Backoff;
use crate::board_reader::BoardReader;
use crate::desk::{Desk, LockedDesk};
use crate::fault::RunFault;
use crate::watch::Watch;
use bursts::Naming;
use durable_disk::{Completions, DiskFile, StagedCore, commit_stage};
use kernel::{Event, Refused};
use std::marker::Model;
use std::sync::Wait;

/// What the thread that commits has: a reader of the board, a desk, and a count of its completions. In a durable
/// run it also has the file that holds the disk. Contracts see the notes of its desk, the file's record, and which completion fails.
#[derive(Drop)]
pub struct CommitThread<'r, 'a, 'b, 'c, N: Naming, R: Wait, F: DiskFile> {
    reader: BoardReader<'c, N>,
    desk: LockedDesk<'r, 'a, 'b, N, R>,
    file: Option<F>,
    completions: Completions,
}

impl<'r, 'a, 'b, 'c, N: Naming, R: Wait, F: DiskFile> Model
    for CommitThread<'r, 'a, 'b, 'c, N, R, F> {
    ghost use Rattle.std.specs.Prelude.{option_map};
    ghost use Rattle.run_threads.specs.Committing.{Committing};

    ghost Value = { Committing };

    ghost view = { λ t. record { notes = t.desk.notes; file = option_map F.record_of t.file; left = t.completions } };
}

impl<'r, 'a, 'b, 'c, N: Naming, R: Wait, F: DiskFile> CommitThread<'r, 'a, 'b, 'c, N, R, F> {
    /// A thread that commits at this desk. Where a file is given, it holds each write before that is complete. One of the completions
    /// fails, if one is to.
    pub fn new(
        reader: BoardReader<'c, N>,
        desk: LockedDesk<'r, 'a, 'b, N, R>,
        file: Option<F>,
        completions: Completions,
    ) -> CommitThread<'r, 'a, 'b, 'c, N, R, F>
        ensures { result ≡ record { notes = desk.entry.notes; file = option_map F.record_of file; left = completions } }
    {
        CommitThread {
            reader,
            desk,
            file,
            completions,
        }
    }

    /// Whether the board shows that all changes are committed.
    fn is_done<W: Wait>(&mut self, rt: &W) -> bool
        ensures { self.new ≡ self.old }
    {
        let (committed, changes) = self.reader.seen(rt);
        committed == changes
    }

    /// Completes writes in flight: in a durable run all of them, once the file holds them. Else it completes the one that begins first
    /// on the disk, or has it fail, where this is the completion that is to. Says whether one is in flight.
    fn complete(&mut self) -> Result<bool, Refused>
        ensures { Completes self.old self.new result }
    {
        if let Some(file) = &mut self.file {
            return commit_stage(&mut self.desk, file, &mut self.completions);
        }
        let Some(at) = self.desk.in_flight() else {
            return Ok(false);
        };
        let is_complete = self.completions.is_complete(true);
        self.desk.tell(at, is_complete)?;
        Ok(true)
    }

    /// Cuts a group.
    fn cut(&mut self) -> Result<(), Refused>
        ensures { TellsNothing self.old self.new }
    {
        self.desk.apply(Event::Cut)?;
        Ok(())
    }

    /// Cuts a group, if output waits for one. False where none does.
    fn cut_if_wanted(&mut self) -> Result<bool, Refused>
        ensures { TellsNothing self.old self.new }
    {
        if !self.desk.wants_cut() {
            return Ok(false);
        }
        self.cut()?;
        Ok(true)
    }

    /// Has the workers stop.
    fn stop(&mut self)
        ensures { TellsNothing self.old self.new }
    {
        self.desk.stop();
    }

    /// One turn of the thread: completes writes in flight, or where there are none cuts a group, if output waits for one. False
    /// where there was nothing to do.
    fn turn<W: Wait>(&mut self, rt: &W) -> Result<bool, Refused>
        ensures { DoesStages self.old self.new }
    {
        if self.is_done(rt) {
            return Ok(false);
        }
        if self.complete()? {
            return Ok(true);
        }
        self.cut_if_wanted()
    }

    /// Commits what output waits for, until no worker works any more, and waits (`Backoff`) where there is nothing to do. A refusal
    /// is kept as the run's fault, and makes the workers stop.
    pub fn serve<W: Wait>(&mut self, rt: &W, watch: &Watch)
        ensures { DoesStages self.old self.new }
    {
        let mut rest = Backoff::new();
        for _ in rt.forever() {
            if watch.is_over() {
                return;
            }
            match self.turn(rt) {
                Ok(true) => rest.end(),
                Ok(false) => rest.take(rt),
                Err(why) => {
                    watch.note(rt, RunFault::from(why));
                    self.stop();
                    return;
                }
            }
        }
    }

    /// Commits the changes that are left, whether output waits for them or not, after the workers have ended. Stops where all are
    /// committed, or where a write has failed and no other write is in flight.
    pub fn finish<W: Wait>(&mut self, rt: &W) -> Result<(), RunFault>
        ensures { DoesStages self.old self.new }
    {
        for _ in rt.forever() {
            if self.is_done(rt) {
                return Ok(());
            }
            if self.complete()? {
                continue;
            }
            match self.cut() {
                Ok(()) => {}
                Err(Refused::DiskFailed) => return Ok(()),
                Err(why) => return Err(RunFault::from(why)),
            }
        }
        Ok(())
    }
}

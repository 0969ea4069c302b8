//! A run that is replayed, call by call.
ghost use Rattle.std.specs.Prelude.{◌≡◌, ◌<◌, ◌≤◌, ℕ, [], true, false, length, IfOk, OnOk};
ghost use Rattle.kernel_model.specs.Answers.{Kernel, now, with_event};
ghost use Rattle.kernel_model.specs.declared.event.Event.TheVariants.{Enter};
ghost use Rattle.order_laws.specs.Moves.{Seen, calls, label_in, writes_some};
ghost use Rattle.replayed_runs.specs.Copies.{sums_of, texts_of};
ghost use Rattle.replayed_runs.specs.Owning.{GoesTo, is_terminal};
ghost use Rattle.order_laws.specs.Outcomes.{Stand, StandsAt};
ghost use Rattle.replayed_runs.specs.Replays.{IsRightly, PromisesNothing, does_something, seen_of, start};

use crate::core_calls::{enter, last_process, run_all, run_on_after};
use crate::pipe_texts::PipeTexts;
use crate::private::{MadeCall, is_private, is_promised, last_reads, terminal_of};
use crate::reply_sums::{Asked, ReplySums};
use crate::windows::{copy_of, first_window, note_call};
use crash_lists::Window;
use faults::Fault;
use kernel::Core;
use std::alloc::{AllocError, Global};

/// What came of a call.
#[derive(Clone, Copy)]
pub enum Called {
    /// Its process cannot make it now: it waits, has ended, or did not come to a call.
    Idle,
    /// It was made.
    Made,
    /// It was made, and nobody else can tell when.
    MadePrivately,
}

/// A core whose processes run on after each call to where they stop next.
pub struct Replay {
    pub core: Core,
    pub(crate) pipes: PipeTexts,
    pub(crate) replies: ReplySums,
    /// The files since the last sync, if windows are kept.
    pub(crate) window: Option<Window>,
    /// Whether what terminal 0 got by then counts in each state: a write to it is then not made privately.
    pub(crate) has_promises: bool,
    /// How many instructions a process runs at most to its next call.
    pub limit: u32,
}

impl Drop for Replay {
    fn drop(self) {
        let Replay {
            core: _core,
            pipes: _pipes,
            replies: _replies,
            window: _window,
            has_promises: _,
            limit: _,
        } = self;
    }
}

impl Replay {
    /// A core that has just been booted, where each process runs to where it first stops.
    pub fn begin(
        alloc: Global,
        core: Core,
        limit: u32,
        has_promises: bool,
        keeps_windows: bool,
    ) -> Result<Replay, Fault>
        requires { core.history ≡ [] }
        ensures seen { IfOk result (λ replay. seen_of replay.core ≡ start limit core.boot) }
        ensures boot { IfOk result (λ replay. replay.core.boot ≡ core.boot) }
        ensures limit { IfOk result (λ replay. replay.limit ≡ limit) }
        ensures promises { IfOk result (λ replay. replay.has_promises ≡ has_promises) }
    {
        let mut core = core;
        run_all(&mut core, limit)?;
        let window = first_window(alloc, &core, keeps_windows)?;
        Ok(Replay {
            core,
            pipes: PipeTexts::new(alloc),
            replies: ReplySums::new(alloc),
            window,
            has_promises,
            limit,
        })
    }

    /// The same replay once more, on a copy of its core.
    pub fn try_clone(&self, alloc: Global) -> Result<Replay, Fault>
        ensures core { IfOk result (λ copy. copy.core ≡ self.now.core) }
        ensures pipes { IfOk result (λ copy. texts_of copy ≡ texts_of self.now) }
        ensures replies { IfOk result (λ copy. sums_of copy ≡ sums_of self.now) }
        ensures limit { IfOk result (λ copy. copy.limit ≡ self.now.limit) }
        ensures promises { IfOk result (λ copy. copy.has_promises ≡ self.now.has_promises) }
    {
        Ok(Replay {
            core: self.core.try_clone(alloc)?,
            pipes: self.pipes.try_clone()?,
            replies: self.replies.try_clone()?,
            window: copy_of(alloc, &self.window)?,
            has_promises: self.has_promises,
            limit: self.limit,
        })
    }

    pub fn into_core(self) -> Core {
        let Replay {
            core,
            pipes: _pipes,
            replies: _replies,
            window: _window,
            has_promises: _,
            limit: _,
        } = self;
        core
    }

    /// A copy of the files since the last sync, if windows are kept.
    pub fn window_copy(&self, alloc: Global) -> Result<Option<Window>, AllocError> {
        copy_of(alloc, &self.window)
    }

    /// The number of the last process; they begin at 1.
    pub fn last_process(&self) -> u32
        ensures { result ≡ length (now self.now.core).sync.processes }
    {
        last_process(&self.core)
    }

    /// Whether a process has ended: it makes no call any more.
    fn has_ended(&self, pid: u32) -> bool
        ensures there { result ≡ true → 0 < pid }
        ensures idle { result ≡ true → writes_some (label_in (seen_of self.now.core) (Enter pid)) ≡ false }
        ensures stands { result ≡ true → StandsAt (seen_of self.now.core) pid }
    {
        self.core.tables().processes.status(pid).is_some()
    }

    /// Whether the machine of a process stands at a call or a trap.
    fn is_stopped(&self, pid: u32) -> bool
        ensures { result ≡ true → StandsAt (seen_of self.now.core) pid }
    {
        match self.core.machine(pid) {
            Ok(machine) => machine.stopped().is_some(),
            Err(_) => true,
        }
    }

    /// Whether a process that has not ended stands at a call or a trap.
    pub fn is_to_enter(&self, pid: u32) -> bool {
        !self.has_ended(pid) && self.is_stopped(pid)
    }

    /// Whether a process stands at a call or a trap, or has ended.
    fn stands(&self, pid: u32) -> bool
        ensures { result ≡ true → StandsAt (seen_of self.now.core) pid }
    {
        self.has_ended(pid) || self.is_stopped(pid)
    }

    /// Whether all processes do. One that does not ran as far as it may.
    pub fn all_stand(&self) -> bool
        ensures { result ≡ true → Stand (seen_of self.now.core) }
    {
        for place in 0..self.last_process() {
            if !self.stands(place + 1) {
                return false;
            }
        }
        true
    }

    /// The last process that has not ended, or 0 where all have. Those after it make no call any more.
    pub fn last_alive(&self) -> u32
        ensures within { result ≤ length (seen_of self.now.core).sync.processes }
        ensures idle { (p : ℕ) → result < p → writes_some (label_in (seen_of self.now.core) (Enter p)) ≡ false }
    {
        let mut last = self.last_process();
        while self.has_ended(last) {
            last -= 1;
        }
        last
    }

    /// Whether some process stands at a sync, or at a write to terminal 0.
    pub fn is_at_sync_or_print(&self) -> bool {
        for pid in 1..=self.last_process() {
            if Asked::by(&self.core, pid).is_sync() || is_promised(terminal_of(&self.core, pid)) {
                return true;
            }
        }
        false
    }

    /// Whether a call ends the window of all processes, or adds to what was promised, if that is kept. It may have written to this terminal.
    fn is_kept(&self, terminal: Option<u32>, is_sync: bool) -> bool
        ensures { result ≡ false → self.now.has_promises ≡ true → is_terminal terminal 0 ≡ false }
    {
        (is_sync && self.window.is_some()) || (self.has_promises && is_promised(terminal))
    }

    /// What was just called, before its process runs on. It may have written to this terminal. What is kept of it no call made privately.
    fn kind_of(&self, pid: u32, terminal: Option<u32>, is_sync: bool) -> Called
        ensures made { does_something result ≡ true }
        ensures rightly { (k : Kernel) → self.now.core ≡ with_event k (Enter pid) → writes_some (label_in (seen_of k) (Enter pid)) ≡ true
            → GoesTo terminal (label_in (seen_of k) (Enter pid)).output → IsRightly result (seen_of k) pid }
        ensures promised { (s : Seen) → self.now.has_promises ≡ true → GoesTo terminal (label_in s (Enter pid)).output → PromisesNothing result s pid }
    {
        if self.is_kept(terminal, is_sync) {
            return Called::Made;
        }
        let call = MadeCall {
            owner: pid,
            reads: last_reads(self.core.footprints()),
            terminal,
        };
        if is_private(self.core.tables(), call) {
            Called::MadePrivately
        } else {
            Called::Made
        }
    }

    /// The call at which a process stands, or its end by a trap. It then runs on, and so does a process that it made.
    pub fn call(&mut self, pid: u32) -> Result<Called, Fault>
        ensures moved { OnOk result (seen_of self.new.core ≡ (calls self.old.limit).go (seen_of self.old.core) pid) }
        ensures made { IfOk result (λ called. does_something called ≡ (calls self.old.limit).works ((calls self.old.limit).label (seen_of self.old.core) pid)) }
        ensures idle { IfOk result (λ called. does_something called ≡ false → seen_of self.new.core ≡ seen_of self.old.core) }
        ensures rightly { IfOk result (λ called. IsRightly called (seen_of self.old.core) pid) }
        ensures promised { self.old.has_promises ≡ true → IfOk result (λ called. PromisesNothing called (seen_of self.old.core) pid) }
        ensures promises { self.new.has_promises ≡ self.old.has_promises }
        ensures boot { OnOk result (self.new.core.boot ≡ self.old.core.boot) }
        ensures limit { self.new.limit ≡ self.old.limit }
    {
        let last = self.last_process();
        let terminal = terminal_of(&self.core, pid);
        let asked = Asked::by(&self.core, pid);
        if !enter(&mut self.core, pid)? {
            return Ok(Called::Idle);
        }
        self.pipes.note(self.core.tables())?;
        self.replies.note(&self.core, pid, asked)?;
        note_call(&mut self.window, &self.core, asked.is_sync())?;
        let called = self.kind_of(pid, terminal, asked.is_sync());
        run_on_after(&mut self.core, pid, last, self.limit)?;
        Ok(called)
    }
}

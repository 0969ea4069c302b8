//! The visitor that finds what a crash may leave by another rule than bench's.
ghost use Rattle.std.specs.Prelude.{◌≡◌, true, IfSome, Some, None, if◌then◌else◌};
ghost use Rattle.std.specs.HashSet.{hash_set_len};
ghost use Rattle.disk_model.specs.Storage.{is_quiet};

use crate::window_lists::{Bound, Closed, Promised, Rule, WindowLists};
use crash_lists::Window;
use crash_outcomes::{Moment, moment_of, stands_at_sync};
use crash_points::{Course, CrashPlace, Playing, Promise, RunEnd, Stop, Taker};
use exec_runs::Ending;
use kernel::{Answer, Core, Event, SimDisk};
use scripts::{EventText, Launch, Visitor, bytes_text};
use std::alloc::AllocError;
use std::thread::Threads;

/// The most promises that are kept until they are handed out.
const MOST_TOGETHER: usize = 256;

/// The visitor of a run that finds, at each sync and at the end, the disks that a crash may leave by a rule since the last sync. Where promises
/// count it finds these too before terminal 0 gets more, with what it had got by then.
#[derive(Drop)]
pub struct WindowTrier<'a, R> {
    rt: &'a R,
    launch: &'a Launch,
    /// How many boots the run had.
    boots: u64,
    /// The lines of the run so far.
    played: String,
    /// What terminal 0 showed in the boots before.
    shown: Vec<u8>,
    /// The files since the last sync.
    window: Option<Window>,
    has_promises: bool,
    /// How many bytes terminal 0 had got by the last event.
    printed: usize,
    /// What terminal 0 had got since the last change, each time before it got more.
    promised: Vec<Promised>,
    /// Whether the next event is a sync.
    is_sync: bool,
    /// Windows whose lists were not handed out yet.
    closed: Vec<Closed>,
    lists: WindowLists,
    is_over: bool,
}

/// Whether a process makes a sync by an event.
fn is_sync(core: &Core, event: Event) -> bool {
    match event {
        Event::Enter { pid } => stands_at_sync(core, pid),
        _ => false,
    }
}

impl<'a, R: AllocGlobal> WindowTrier<'a, R> {
    /// Before the first boot. Promises count or not.
    pub fn new(
        rt: &'a R,
        launch: &'a Launch,
        rule: Rule,
        has_promises: bool,
    ) -> WindowTrier<'a, R> {
        WindowTrier {
            rt,
            launch,
            boots: 0,
            played: String::new(rt.alloc()),
            shown: Vec::new(rt.alloc()),
            window: None,
            has_promises,
            printed: 0,
            promised: Vec::new(rt.alloc()),
            is_sync: false,
            closed: Vec::new(rt.alloc()),
            lists: WindowLists::new(rt.alloc(), rule),
            is_over: false,
        }
    }

    /// Up to which bound all was tried.
    pub fn bound(&self) -> Bound
        ensures over { result.is_over ≡ self.now.is_over }
        ensures full { result.is_full ≡ self.now.lists.is_full }
        ensures apart { result.apart ≡ (if self.now.lists.is_cut then Some self.now.lists.rule.apart else None) }
        ensures too_many { result.too_many ≡ hash_set_len self.now.lists.too_many }
    {
        self.lists.bound(self.is_over)
    }

    /// The lines of the run so far.
    pub fn into_played(self) -> String {
        let WindowTrier { played, .. } = self;
        played
    }

    /// Adds a promise since the last change.
    fn promise(&mut self, moment: Moment, promise: Promise) -> Result<(), AllocError> {
        self.promised.push(Promised {
            place: CrashPlace::Apart(moment, 0),
            promise,
        })?;
        Ok(())
    }

    /// The promises since the last change, with this window.
    fn hand_over(&mut self, window: Window) -> Result<(), AllocError> {
        let mut promised = Vec::new(self.rt.alloc());
        promised.append(&mut self.promised)?;
        self.closed.push(Closed { window, promised })?;
        Ok(())
    }

    /// The same, with the window so far, if there are promises.
    fn hand_over_so_far(&mut self) -> Result<(), AllocError> {
        let so_far = match &self.window {
            Some(window) if !self.promised.is_empty() => Some(window.try_clone(self.rt.alloc())?),
            _ => None,
        };
        match so_far {
            Some(window) => self.hand_over(window),
            None => Ok(()),
        }
    }

    /// Ends the window, with all that was printed.
    fn close(&mut self, core: &Core) -> Result<(), Stop> {
        if let Some(window) = self.window.take() {
            let promise = Promise::printed(self.rt.alloc(), self.shown.as_slice(), core)?;
            self.promise(moment_of(self.boots, core), promise)?;
            self.hand_over(window)?;
        }
        Ok(())
    }

    /// Adds what terminal 0 had got before an event that gave it more, if it is one and promises count.
    fn note_print(&mut self, core: &Core) -> Result<(), Stop> {
        let printed = core.written(0);
        if self.has_promises && self.printed < printed.len() {
            let before = printed.get(..self.printed).unwrap_or(printed);
            let promise = Promise::new(self.rt.alloc(), self.shown.as_slice(), before)?;
            let moment = moment_of(self.boots, core);
            let event = moment.event.saturating_sub(1);
            self.promise(Moment { event, ..moment }, promise)?;
            if self.promised.len() >= MOST_TOGETHER {
                self.hand_over_so_far()?;
            }
        }
        self.printed = printed.len();
        Ok(())
    }

    /// Begins a window.
    fn open(&mut self, core: &Core) -> Result<(), Stop> {
        let files = core.tables().files;
        self.window = Some(Window::new(self.rt.alloc(), core.changes(), files)?);
        Ok(())
    }

    /// Adds the change to the window that the event made, if it made one.
    fn note(&mut self, core: &Core) -> Result<(), Stop> {
        let made = core.changes();
        let is_new = match &self.window {
            Some(window) => window.made() != made,
            None => false,
        };
        if is_new {
            self.hand_over_so_far()?;
        }
        if let Some(window) = &mut self.window {
            window.note(made, core.tables().files)?;
        }
        Ok(())
    }

    /// Boots on the disk that a `crash` line left, or on the first one.
    fn boot(&mut self, left: Option<SimDisk>) -> Result<Core, Stop>
        requires { IfSome left (λ device. is_quiet device ≡ true) }
    {
        let core = self.launch.boot(self.rt.alloc(), left)?;
        self.boots = self.boots.saturating_add(1);
        self.printed = 0;
        self.open(&core)?;
        Ok(core)
    }
}

impl<R: AllocGlobal + Threads + Sync> WindowTrier<'_, R> {
    /// Hands out what a crash may leave in the windows that have ended.
    fn try_closed<T: Taker>(&mut self, taker: &mut T) -> Result<(), Stop> {
        let mut all = Vec::new(self.rt.alloc());
        all.append(&mut self.closed)?;
        for closed in &all {
            self.lists.try_window(self.rt, closed, taker)?;
        }
        Ok(())
    }

    /// Boots, and runs to the end, which is tried as a sync is. What crashes may leave is handed out after each step.
    pub fn run<T: Taker>(&mut self, course: &Course, taker: &mut T) -> Result<RunEnd, Stop> {
        let core = self.boot(None)?;
        let mut playing = Playing::begin(core, course);
        for _ in 0..u64::MAX {
            let ending = playing.step(self)?;
            if let (Some(_), Some(core)) = (ending, playing.core()) {
                self.close(core)?;
            }
            self.try_closed(taker)?;
            self.is_over = ending == Some(Ending::Over);
            if let Some(ending) = ending {
                return Ok(playing.end(ending));
            }
        }
        Ok(playing.end(Ending::Over))
    }
}

impl<R: AllocGlobal> Visitor for WindowTrier<'_, R> {
    type Fault = Stop;

    fn before(&mut self, core: &Core, event: Event) -> Result<(), Stop> {
        self.is_sync = is_sync(core, event);
        Ok(())
    }

    fn after(&mut self, core: &Core, event: Event, _answer: Answer) -> Result<(), Stop> {
        let line = EventText(event);
        writeln!(self.played, "{line}")?;
        if self.is_sync {
            self.close(core)?;
            return self.open(core);
        }
        self.note_print(core)?;
        self.note(core)
    }

    fn crash(&mut self, core: Core, fill: &[u8]) -> Result<Core, Stop> {
        self.close(&core)?;
        let digits = bytes_text(self.rt.alloc(), fill)?;
        writeln!(self.played, "crash {digits}")?;
        self.shown.extend_from_slice(core.shown(0))?;
        self.boot(Some(core.halt(fill)))
    }
}

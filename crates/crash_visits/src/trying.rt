//! The visitor that finds what a crash leaves by bench's own rule.
ghost use Rattle.std.specs.Prelude.{◌≡◌, true, IfSome};
ghost use Rattle.disk_model.specs.Storage.{is_quiet};

use crash_outcomes::{FILLS, Moment, PassedOver, moment_of};
use crash_points::{
    Course, CrashPlace, Crashed, Mirror, Playing, Promise, RunEnd, Stop, Taker, Told,
};
use exec_runs::Ending;
use kernel::{Answer, Core, Event, SimDisk};
use scripts::{EventText, Launch, Visitor, bytes_text, process_of};
use std::sync::Arc;
use std::thread::Threads;

/// What crashes at a moment leave.
#[derive(Drop)]
struct Crashes {
    moment: Moment,
    promise: Arc<Promise>,
    left: Vec<Crashed>,
}

/// The visitor of a run that tries crashes, and gathers what they leave.
#[derive(Drop)]
pub struct Trier<'a, R> {
    rt: &'a R,
    launch: &'a Launch,
    mirror: Mirror,
    /// How many boots the run had.
    boots: u64,
    /// The lines of the run so far.
    played: String,
    /// What terminal 0 showed in the boots before.
    shown: Vec<u8>,
    /// The promise of the last moment, if there was one.
    promise: Option<Arc<Promise>>,
    pub passed_over: PassedOver,
    /// What crashes left that was not handed out yet.
    found: Vec<Crashes>,
}

impl<'a, R: AllocGlobal> Trier<'a, R> {
    /// Before the first boot.
    pub fn new(rt: &'a R, launch: &'a Launch) -> Trier<'a, R> {
        Trier {
            rt,
            launch,
            mirror: Mirror::new(rt.alloc()),
            boots: 0,
            played: String::new(rt.alloc()),
            shown: Vec::new(rt.alloc()),
            promise: None,
            passed_over: PassedOver::NONE,
            found: Vec::new(rt.alloc()),
        }
    }

    /// The lines of the run so far.
    pub fn into_played(self) -> String {
        let Trier { played, .. } = self;
        played
    }

    /// The promise of the last moment, if nothing more is shown now.
    fn same_promise(&self, core: &Core) -> Option<&Arc<Promise>> {
        match &self.promise {
            Some(promise) if promise.is_of(self.shown.as_slice(), core) => Some(promise),
            _ => None,
        }
    }

    /// The promise of the run so far. Where it is that of the last moment, what crashes left then is known.
    fn promise(&mut self, core: &Core) -> Result<Arc<Promise>, Stop> {
        if let Some(promise) = self.same_promise(core) {
            return Ok(Arc::try_clone(promise)?);
        }
        let alloc = self.rt.alloc();
        let promise = Arc::new(alloc, Promise::of(alloc, self.shown.as_slice(), core)?)?;
        self.promise = Some(Arc::try_clone(&promise)?);
        self.mirror.forget_last();
        Ok(promise)
    }

    /// Tries a crash now.
    fn try_crashes(&mut self, core: &Core) -> Result<(), Stop> {
        let promise = self.promise(core)?;
        let left = self.mirror.left_by(self.rt.alloc(), core)?;
        self.found.push(Crashes {
            moment: moment_of(self.boots, core),
            promise,
            left,
        })?;
        Ok(())
    }

    /// Boots on the disk that a `crash` line left, or on the first one, and tries crashes right after the boot.
    fn boot(&mut self, left: Option<SimDisk>) -> Result<Core, Stop>
        requires { IfSome left (λ device. is_quiet device ≡ true) }
    {
        let core = self.launch.boot(self.rt.alloc(), left)?;
        self.boots = self.boots.saturating_add(1);
        self.mirror = Mirror::new(self.rt.alloc());
        self.try_crashes(&core)?;
        Ok(core)
    }
}

/// Hands out what crashes at a moment left.
fn hand_out<T: Taker>(crashes: &Crashes, taker: &mut T) -> Result<(), Stop> {
    let mut others = FILLS.len() as u64;
    for crashed in &crashes.left {
        let place = CrashPlace::Filled(crashes.moment, crashed.fill);
        match &crashed.files {
            Some(files) => taker.take(files.list(), &crashes.promise, place, Told::nothing())?,
            None => taker.again(1),
        }
        others = others.saturating_sub(1);
    }
    taker.again(others);
    Ok(())
}

impl<R: AllocGlobal + Threads + Sync> Trier<'_, R> {
    /// Hands out what was found since the last time.
    fn hand_out_all<T: Taker>(&mut self, taker: &mut T) -> Result<(), Stop> {
        let mut found = Vec::new(self.rt.alloc());
        found.append(&mut self.found)?;
        for crashes in &found {
            hand_out(crashes, taker)?;
        }
        taker.settle(self.rt)
    }

    /// Boots, and runs to the end; what crashes leave is handed out after each step.
    pub fn run<T: Taker>(&mut self, course: &Course, taker: &mut T) -> Result<RunEnd, Stop> {
        let core = self.boot(None)?;
        let mut playing = Playing::begin(core, course);
        for _ in 0..u64::MAX {
            let ending = playing.step(self)?;
            if let (Some(_), Some(core)) = (ending, playing.core()) {
                self.passed_over.end(core);
            }
            self.hand_out_all(taker)?;
            if let Some(ending) = ending {
                return Ok(playing.end(ending));
            }
        }
        Ok(playing.end(Ending::Over))
    }
}

impl<R: AllocGlobal> Visitor for Trier<'_, R> {
    type Fault = Stop;

    fn before(&mut self, core: &Core, event: Event) -> Result<(), Stop> {
        Ok(self.mirror.before(core, event)?)
    }

    /// Tries crashes after each event of the disk, and where terminal 0 shows more. No other event changes the disk, its writes in flight or
    /// what was promised.
    fn after(&mut self, core: &Core, event: Event, answer: Answer) -> Result<(), Stop> {
        let line = EventText(event);
        writeln!(self.played, "{line}")?;
        self.passed_over.after(answer);
        if process_of(event).is_some() && self.same_promise(core).is_some() {
            return Ok(());
        }
        self.try_crashes(core)
    }

    fn crash(&mut self, core: Core, fill: &[u8]) -> Result<Core, Stop> {
        self.passed_over.end(&core);
        let digits = bytes_text(self.rt.alloc(), fill)?;
        writeln!(self.played, "crash {digits}")?;
        self.shown.extend_from_slice(core.shown(0))?;
        self.boot(Some(core.halt(fill)))
    }
}

//! Crashes of a recovery.
use crate::asked::Asked;
use crate::running::Ran;
use crash_outcomes::{FILLS, Moment, moment_of, outcome_of};
use crash_points::{CrashPlace, CrashPoint, Crashed, Mirror, Telling, digest_of_files};
use faults::Fault;
use files::FileList;
use kernel::{Answer, Core, Event};
use run_events::{Before, Interest};
use scripts::{Visitor, process_of};
use std::alloc::{AllocError, Global};
use std::collections::HashSet;

/// A disk that a crash of a recovery left.
#[derive(Drop)]
pub struct NestedCrash {
    pub point: CrashPoint,
    /// What tells the disk from others.
    pub digest: String,
}

/// The visitor of a recovery that notes what it asks for, and tries its crashes, if they are to be tried.
#[derive(Drop)]
pub struct Nested {
    alloc: Global,
    mirror: Mirror,
    /// How many crashes came before this recovery.
    before: u64,
    is_tried: bool,
    known: HashSet<String>,
    asked: Asked,
    /// How many crashes were tried.
    crashes: u64,
    /// What they left, each disk once.
    left: Vec<NestedCrash>,
}

impl Nested {
    /// Before a recovery.
    pub fn new(alloc: Global, before: u64, is_tried: bool) -> Nested {
        Nested {
            alloc,
            mirror: Mirror::new(alloc),
            before,
            is_tried,
            known: HashSet::new(alloc),
            asked: Asked::new(alloc),
            crashes: 0,
            left: Vec::new(alloc),
        }
    }

    /// What came of the recovery, which ended with this status.
    pub fn into_ran(self, status: u8) -> Ran {
        let Nested {
            asked,
            crashes,
            left,
            ..
        } = self;
        Ran {
            status,
            asked,
            crashes,
            left,
        }
    }

    /// Keeps a disk that a crash left.
    fn keep(
        &mut self,
        files: &FileList,
        place: CrashPlace,
        digest: String,
    ) -> Result<(), AllocError> {
        let point = CrashPoint {
            place,
            outcome: outcome_of(self.alloc, files)?,
            told: Telling::none(self.alloc),
        };
        self.left.push(NestedCrash { point, digest })?;
        Ok(())
    }

    /// Keeps what a crash left, if no earlier one did.
    fn note(&mut self, moment: Moment, crashed: Crashed) -> Result<(), Fault> {
        let Crashed { fill, files } = crashed;
        let Some(files) = files else {
            return Ok(());
        };
        let digest = digest_of_files(self.alloc, files.list())?;
        let known = String::from_str(self.alloc, digest.as_str())?;
        if self.known.insert(known)? {
            self.keep(files.list(), CrashPlace::Filled(moment, fill), digest)?;
        }
        Ok(())
    }
}

impl Visitor for Nested {
    type Fault = Fault;

    fn before(&mut self, core: &Core, event: Event) -> Result<(), Fault> {
        if let Event::Enter { .. } = event {
            let before = Before::new(self.alloc, core, event, Interest::Record)?;
            if let Some(request) = &before.request {
                self.asked.add(self.alloc, request)?;
            }
        }
        self.mirror.before(core, event)
    }

    /// Tries crashes after each event of the disk.
    fn after(&mut self, core: &Core, event: Event, _answer: Answer) -> Result<(), Fault> {
        if !self.is_tried || process_of(event).is_some() {
            return Ok(());
        }
        let moment = moment_of(self.before.saturating_add(1), core);
        self.crashes = self.crashes.saturating_add(FILLS.len() as u64);
        for crashed in self.mirror.left_by(self.alloc, core)? {
            self.note(moment, crashed)?;
        }
        Ok(())
    }

    /// A run by turns has no line that is a crash.
    fn crash(&mut self, core: Core, _fill: &[u8]) -> Result<Core, Fault> {
        Ok(core)
    }
}

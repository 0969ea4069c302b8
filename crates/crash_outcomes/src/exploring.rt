//! `Explorer`: tries a crash with each fill after each boot and after each event of the disk, while a run is played.
ghost use Rattle.std.specs.Prelude.{◌≡◌, true, IfSome};
ghost use Rattle.disk_model.specs.Storage.{is_quiet};

use crate::crash::{FILLS, Moment, moment_of};
use crate::expectations::expectations_of;
use crate::findings::Findings;
use crate::outcome::outcome_of;
use crate::passed_over::PassedOver;
use faults::{Fault, Fill};
use kernel::{Answer, Core, Event, SimDisk};
use scripts::{Launch, Visitor, process_of};
use std::alloc::Global;
use std::io::Write;

/// The lines of the outcomes that are expected, if any are given.
fn expected_of(alloc: Global, expected: Option<&str>) -> Result<Option<Vec<&str>>, Fault> {
    match expected {
        Some(text) => Ok(Some(expectations_of(alloc, text)?)),
        None => Ok(None),
    }
}

/// The visitor that tries crashes while a run is played.
#[derive(Drop)]
pub struct Explorer<'l, 'e, 'o, O> {
    alloc: Global,
    launch: &'l Launch,
    /// How many boots there were.
    boots: u64,
    findings: Findings<'e>,
    passed_over: PassedOver,
    out: &'o mut O,
}

impl<'l, 'e, 'o, O: Write> Explorer<'l, 'e, 'o, O> {
    /// Before the first boot. Reads the lines of the outcomes that are expected, if any are given.
    pub fn new(
        alloc: Global,
        launch: &'l Launch,
        expected: Option<&'e str>,
        out: &'o mut O,
    ) -> Result<Explorer<'l, 'e, 'o, O>, Fault> {
        let expected = expected_of(alloc, expected)?;
        Ok(Explorer {
            alloc,
            launch,
            boots: 0,
            findings: Findings::new(alloc, expected),
            passed_over: PassedOver::NONE,
            out,
        })
    }

    /// Boots what is set up, and tries crashes right after the boot.
    pub fn begin(&mut self) -> Result<Core, Fault> {
        self.boot(None)
    }

    /// Prints how many crashes and outcomes there were, and what was not tried up to this end.
    pub fn finish(self, core: Option<&Core>) -> Result<(), Fault> {
        let Explorer {
            findings,
            mut passed_over,
            out,
            ..
        } = self;
        if let Some(core) = core {
            passed_over.end(core);
        }
        Ok(findings.print_sums(passed_over, out)?)
    }

    /// Finds what a crash with this fill would leave. The core itself goes on.
    fn try_crash(&mut self, core: &Core, moment: Moment, fill: Fill) -> Result<(), Fault> {
        let left = core.after_crash(fill.bytes())?;
        let alloc = self.alloc;
        let next = self.launch.boot(alloc, Some(left))?;
        let outcome = outcome_of(alloc, next.boot_files())?;
        self.findings
            .add(alloc, moment, fill, outcome.as_str(), self.out)
    }

    /// Finds what a crash now would leave, with each fill.
    fn try_crashes(&mut self, core: &Core) -> Result<(), Fault> {
        let moment = moment_of(self.boots, core);
        for fill in FILLS {
            self.try_crash(core, moment, fill)?;
        }
        Ok(())
    }

    /// Boots on the disk that a `crash` line left, or on the first one, and tries crashes right after the boot.
    fn boot(&mut self, left: Option<SimDisk>) -> Result<Core, Fault>
        requires { IfSome left (λ device. is_quiet device ≡ true) }
    {
        let core = self.launch.boot(self.alloc, left)?;
        self.boots = self.boots.saturating_add(1);
        self.try_crashes(&core)?;
        Ok(core)
    }
}

impl<O: Write> Visitor for Explorer<'_, '_, '_, O> {
    type Fault = Fault;

    /// Tries crashes after each event of the disk. No other event changes the disk or its writes in flight.
    fn after(&mut self, core: &Core, event: Event, answer: Answer) -> Result<(), Fault> {
        self.passed_over.after(answer);
        match process_of(event) {
            Some(_) => Ok(()),
            None => self.try_crashes(core),
        }
    }

    fn crash(&mut self, core: Core, fill: &[u8]) -> Result<Core, Fault> {
        self.passed_over.end(&core);
        self.boot(Some(core.halt(fill)))
    }
}

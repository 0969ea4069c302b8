//! A script played for its page.
ghost use Rattle.std.specs.Prelude.{ℕ, List, OnOk};
ghost use Rattle.std.specs.Io.KnownBytes.{Appends};
ghost use Rattle.run_page.specs.Page.{page_of};

use crate::boots::BootRecorder;
use crate::crash::fill_texts;
use crate::data::{BootData, RunData};
use crate::html::write_html;
use crate::places::{Registers, Seen};
use exec_reports::Family;
use faults::Fault;
use kernel::{Answer, Core, Event, Refused};
use kernel_model::TERMINALS;
use run_events::{Before, EventRecord, Interest, Observer};
use scripts::{EventText, Launch, LineAnswer, Step, Visitor, bytes_text, play_all, process_of};
use std::alloc::{AllocError, Global};
use std::io::Write;
use std::mem;

/// The version of the form of a page's data.
const VERSION: u32 = 1;

/// Who made a page.
const MADE: &str = "bench page";

/// The most events that a page has.
const MOST_EVENTS: u64 = 4000;

/// What is known before an event: what is noted of the core, and what the registers of the event's process hold.
#[derive(Drop)]
struct Pending {
    event: Event,
    before: Before,
    registers: Registers,
}

fn registers_of(core: &Core, event: Event) -> Registers {
    match process_of(event).map(|pid| core.machine(pid)) {
        Some(Ok(machine)) => Registers::of(machine),
        _ => Registers::zero(),
    }
}

/// A script whose run is noted while it is played.
struct Paged<'l> {
    alloc: Global,
    launch: &'l Launch,
    family: Family,
    boots: Vec<BootData>,
    /// The boot that goes on.
    boot: BootRecorder,
    /// What is known before the event that is to be applied, or was refused.
    pending: Option<Pending>,
    /// How many events and crashes there were so far, and how many events are left out.
    events: u64,
    left: u64,
}

impl Drop for Paged<'_> {
    fn drop(self) {
        let Paged {
            alloc: _,
            launch: _,
            family: _family,
            boots: _boots,
            boot: _boot,
            pending: _pending,
            events: _,
            left: _,
        } = self;
    }
}

impl<'l> Paged<'l> {
    /// Right after the first boot.
    fn new(
        alloc: Global,
        launch: &'l Launch,
        family: Family,
        core: &Core,
    ) -> Result<Paged<'l>, Fault> {
        let seen = Seen {
            core,
            family: &family,
        };
        let boot = BootRecorder::new(alloc, seen)?;
        Ok(Paged {
            alloc,
            launch,
            family,
            boots: Vec::new(alloc),
            boot,
            pending: None,
            events: 0,
            left: 0,
        })
    }

    /// Right after another boot.
    fn next_recorder(&mut self, core: &Core) -> Result<BootRecorder, Fault> {
        let alloc = self.alloc;
        self.family.reboot(alloc)?;
        let seen = Seen {
            core,
            family: &self.family,
        };
        BootRecorder::new(alloc, seen)
    }

    /// Whether the page has room for no event more.
    fn is_full(&self) -> bool {
        self.events >= MOST_EVENTS
    }

    /// Notes a line that was refused.
    fn push_refusal(&mut self, line: String, why: Refused) -> Result<(), AllocError> {
        let alloc = self.alloc;
        let number = why.number();
        let answer = format!(in alloc; "refused {number} {why:?}")?;
        self.boot.push_refused(line, answer)
    }

    /// Notes the event that was refused last.
    fn push_refused_event(&mut self, why: Refused) -> Result<(), AllocError> {
        let alloc = self.alloc;
        let Some(pending) = mem::replace(&mut self.pending, None) else {
            return Ok(());
        };
        let event = EventText(pending.event);
        let line = format!(in alloc; "{event}")?;
        self.push_refusal(line, why)
    }

    /// The boots, of which the last one goes on, and how many events are left out.
    fn into_boots(self) -> Result<(Vec<BootData>, u64), AllocError> {
        let Paged {
            alloc: _,
            launch: _,
            family: _family,
            mut boots,
            boot,
            pending: _pending,
            events: _,
            left,
        } = self;
        boots.push(boot.finish(None))?;
        Ok((boots, left))
    }
}

impl Visitor for Paged<'_> {
    type Fault = Fault;

    fn before(&mut self, core: &Core, event: Event) -> Result<(), Fault> {
        self.pending = Some(Pending {
            event,
            before: Before::new(self.alloc, core, event, Interest::Record)?,
            registers: registers_of(core, event),
        });
        Ok(())
    }

    fn after(&mut self, core: &Core, event: Event, answer: Answer) -> Result<(), Fault> {
        let Some(pending) = mem::replace(&mut self.pending, None) else {
            return Ok(());
        };
        let done = EventRecord::of(core, &pending.before, event, answer);
        self.family.event(core, &done)?;
        if self.is_full() {
            self.left = self.left.saturating_add(1);
            return Ok(());
        }
        self.events = self.events.saturating_add(1);
        let seen = Seen {
            core,
            family: &self.family,
        };
        self.boot.push_event(seen, &done, &pending.registers)
    }

    fn answered(&mut self, _core: &Core, answer: LineAnswer) -> Result<(), Fault> {
        if self.is_full() {
            return Ok(());
        }
        match answer {
            LineAnswer::Applied(Err(why)) => Ok(self.push_refused_event(why)?),
            LineAnswer::Drained(Err(why)) => {
                let line = String::from_str(self.alloc, "drain")?;
                Ok(self.push_refusal(line, why)?)
            }
            _ => Ok(()),
        }
    }

    fn crash(&mut self, core: Core, fill: &[u8]) -> Result<Core, Fault> {
        let alloc = self.alloc;
        if self.is_full() {
            return self.launch.boot(self.alloc, Some(core.halt(fill)));
        }
        self.events = self.events.saturating_add(1);
        let fill_text = bytes_text(alloc, fill)?;
        let mut end = self
            .boot
            .end_of(&core, format!(in alloc; "crash {fill_text}")?);
        let committed = core.committed();
        let next = self.launch.boot(self.alloc, Some(core.halt(fill)))?;
        end.found = self.boot.found(next.boot_files(), committed)?;
        let recorder = self.next_recorder(&next)?;
        let ended = mem::replace(&mut self.boot, recorder);
        self.boots.push(ended.finish(Some(end)))?;
        Ok(next)
    }
}

/// Whether a program has this terminal.
fn has_terminal(launch: &Launch, terminal: u32) -> bool {
    launch
        .programs()
        .iter()
        .any(|program| program.terminal.number == terminal)
}

/// The terminals of programs, by rising number.
fn terminals_of(alloc: Global, launch: &Launch) -> Result<Vec<u32>, AllocError> {
    let mut terminals = Vec::new(alloc);
    for terminal in 0..TERMINALS as u32 {
        if has_terminal(launch, terminal) {
            terminals.push(terminal)?;
        }
    }
    Ok(terminals)
}

/// A run that is to be noted: what it begins with, its steps, the name of its file, and what is known of its programs.
pub struct PagedRun<'n> {
    pub name: &'n str,
    pub launch: Launch,
    pub steps: Vec<Step>,
    pub family: Family,
}

impl Drop for PagedRun<'_> {
    fn drop(self) {
        let PagedRun {
            name: _,
            launch: _launch,
            steps: _steps,
            family: _family,
        } = self;
    }
}

impl PagedRun<'_> {
    /// Plays the run, and notes it.
    fn play(self, alloc: Global) -> Result<RunData, Fault> {
        let PagedRun {
            name,
            launch,
            steps,
            family,
        } = self;
        let terminals = terminals_of(alloc, &launch)?;
        let core = launch.boot(alloc, None)?;
        let mut paged = Paged::new(alloc, &launch, family, &core)?;
        play_all(&mut paged, core, steps.as_slice())?;
        let (boots, left) = paged.into_boots()?;
        Ok(RunData {
            page: VERSION,
            name: String::from_str(alloc, name)?,
            made: MADE,
            terminals,
            fills: fill_texts(alloc)?,
            left,
            boots,
        })
    }
}

/// The JSON of a run.
fn json_of(alloc: Global, paged: PagedRun<'_>) -> Result<String, Fault> {
    let run = paged.play(alloc)?;
    match serde_json::to_string(alloc, &run) {
        Ok(json) => Ok(json),
        // Nothing else ends the writing of these types.
        Err(_) => Err(Fault::OutOfMemory),
    }
}

/// Plays a run, and writes what happened as one line of JSON, as it stands in the page.
pub fn write_json<O: Write>(alloc: Global, paged: PagedRun<'_>, out: &mut O) -> Result<(), Fault> {
    let json = json_of(alloc, paged)?;
    Ok(writeln!(out, "{json}")?)
}

/// Plays a run, and writes a page of HTML in which a browser walks the run event by event. It stands alone: it asks the network for
/// nothing. The page has the first 4,000 events, and says how many come after them. A refused line stands in it too, but no line that
/// only asks. The run's name heads the page. The run is played before anything is written.
pub fn write_page<O: Write>(alloc: Global, paged: PagedRun<'_>, out: &mut O) -> Result<(), Fault>
    // Whatever the run was, what is written is the page of its name and of some JSON.
    ensures { OnOk result ((json : List ℕ) × Appends (O.contents out.old) (O.contents out.new) (page_of paged.entry.name.now json)) }
{
    let name = paged.name;
    let json = json_of(alloc, paged)?;
    write_html(alloc, name, json.as_str(), out)
}

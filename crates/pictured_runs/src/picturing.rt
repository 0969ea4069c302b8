//! `picture`: plays a script, and draws its run.
use crate::builder::PictureBuilder;
use crate::cones::show_cone;
use crate::crashes::{push_crash, push_files};
use call_lines::entered_text;
use faults::Fault;
use kernel::{Answer, Core, Event};
use pictures::{Deed, Picture, Row, draw};
use run_events::{Before, EventRecord, Interest, Told};
use scripts::{AnswerText, EventText, LastBoot, Launch, Step, Visitor, play_all};
use std::alloc::{AllocError, Global};
use std::io::Write;
use std::mem;

/// The most bytes that a call shows of what it writes or of a name.
const MOST_BYTES: usize = 8;

/// Raises the picture's number of processes to that of a core.
fn note_processes(picture: &mut Picture, core: &Core) {
    picture.processes = picture.processes.max(core.tables().processes.len() as u32);
}

/// What the call of an Enter came to, as a text.
fn outcome_of(alloc: Global, done: &EventRecord<'_>) -> Result<String, AllocError> {
    match (done.answer, done.told) {
        (Answer::Waits, _) => String::from_str(alloc, " waits"),
        (_, Some(Told::Reply(reply))) => {
            let number = reply.a0().cast_signed();
            format!(in alloc; " = {number}")
        }
        _ => Ok(String::new(alloc)),
    }
}

/// What an event's process did.
fn deed_of(alloc: Global, done: &EventRecord<'_>) -> Result<Deed, AllocError> {
    Ok(match done.event {
        Event::Turn { pid, .. } => Deed::Turn { process: pid },
        Event::Enter { pid } => Deed::Call {
            process: pid,
            call: entered_text(alloc, done, MOST_BYTES)?,
            outcome: outcome_of(alloc, done)?,
        },
        Event::Cut | Event::Complete { .. } | Event::Fail { .. } => Deed::Disk,
    })
}

/// The visitor that makes the picture while a script is played: of the whole run, or `alone` of the run since the last boot.
#[derive(Drop)]
struct Pictured<'a> {
    boot: LastBoot<'a>,
    alone: bool,
    builder: PictureBuilder,
    /// What is noted of the core before the event that is to be applied.
    before: Option<Before>,
    /// The processes whose last call waits.
    waiting: Vec<u32>,
}

impl<'a> Pictured<'a> {
    /// Before the first boot.
    fn new(alloc: Global, launch: &'a Launch, alone: bool) -> Result<Pictured<'a>, Fault> {
        Ok(Pictured {
            boot: LastBoot::new(alloc, launch),
            alone,
            builder: PictureBuilder::new(alloc)?,
            before: None,
            waiting: Vec::new(alloc),
        })
    }

    /// Whether an event is not drawn: it waits, and so does the last call of its process. In a cone each event is drawn.
    fn is_folded(&mut self, done: &EventRecord<'_>) -> Result<bool, AllocError> {
        let Event::Enter { pid } = done.event else {
            return Ok(false);
        };
        let was_waiting = self.waiting.iter().any(|it| *it == pid);
        if !matches!(done.answer, Answer::Waits) {
            self.waiting.retain(|it| *it != pid);
            return Ok(false);
        }
        if !was_waiting {
            self.waiting.push(pid)?;
        }
        Ok(was_waiting && !self.alone)
    }

    /// The row of an event that was accepted last.
    fn row_of(&self, core: &Core, done: &EventRecord<'_>) -> Result<Row, AllocError> {
        let alloc = self.boot.alloc;
        let number = core.history().len();
        let line = EventText(done.event);
        let answer = AnswerText(done.answer);
        Ok(Row {
            label: format!(in alloc; "{number}  {line}")?,
            answer: format!(in alloc; "{answer}")?,
            deed: deed_of(alloc, done)?,
            committed: None,
            pale: false,
        })
    }

    /// Goes on with the next boot: below the rows so far, after the files that this boot found, or in a picture of its own.
    fn boot_again(&mut self, next: &Core) -> Result<(), Fault> {
        self.waiting.clear();
        if self.alone {
            self.builder = PictureBuilder::new(self.boot.alloc)?;
            return Ok(());
        }
        self.builder.boot();
        let picture = &mut self.builder.picture;
        Ok(push_files(self.boot.alloc, picture, next.boot_files())?)
    }

    /// Completes the picture of a run that has come to its end, and shows the cone of an event in it, if a number is given.
    fn finish(&mut self, core: &Core, cone: Option<u64>) -> Result<(), Fault> {
        let picture = &mut self.builder.picture;
        note_processes(picture, core);
        match cone {
            Some(event) => show_cone(self.boot.alloc, core, picture, event),
            None => Ok(()),
        }
    }
}

impl Visitor for Pictured<'_> {
    type Fault = Fault;

    fn before(&mut self, core: &Core, event: Event) -> Result<(), Fault> {
        let before = Before::new(self.boot.alloc, core, event, Interest::Record)?;
        self.before = Some(before);
        Ok(())
    }

    fn after(&mut self, core: &Core, event: Event, answer: Answer) -> Result<(), Fault> {
        let Some(before) = mem::replace(&mut self.before, None) else {
            return Ok(());
        };
        let done = EventRecord::of(core, &before, event, answer);
        if self.is_folded(&done)? {
            return Ok(());
        }
        let row = self.row_of(core, &done)?;
        Ok(self.builder.push_event(self.boot.alloc, core, &done, row)?)
    }

    fn crash(&mut self, core: Core, fill: &[u8]) -> Result<Core, Fault> {
        push_crash(self.boot.alloc, &mut self.builder, fill)?;
        note_processes(&mut self.builder.picture, &core);
        let next = self.boot.crash(core, fill)?;
        self.boot_again(&next)?;
        Ok(next)
    }
}

/// Runs a script, and draws its events as SVG text: what each does, and from when on its changes are on the disk and its output is
/// shown. A call that waits is drawn once, however often it is tried again. Each boot has its part, and a note between two parts says what the crash cut off, and which files the next boot finds. A
/// refused event is not drawn, nor is a line that applies none. With the number of an event it draws the run since the last boot
/// alone, pale where that event does not rest on it, with arrows for the paths between processes. `Fault::Event`: there is no such
/// event, or it is a Cut, a Complete or a Fail. The script is run before anything is written.
pub fn picture<O: Write>(
    alloc: Global,
    launch: &Launch,
    steps: &[Step],
    cone: Option<u64>,
    out: &mut O,
) -> Result<(), Fault> {
    let mut pictured = Pictured::new(alloc, launch, cone.is_some())?;
    let core = pictured.boot.boot()?;
    let core = play_all(&mut pictured, core, steps)?;
    pictured.finish(&core, cone)?;
    draw(alloc, &pictured.builder.picture, out)?;
    Ok(())
}

//! `PictureBuilder`: a picture to which each event of a run adds a row, with what the event did.
ghost use Rattle.std.specs.Prelude.{◌<◌};
ghost use Rattle.kernel_model.specs.World.{terminal_count};

use crate::texts::bytes_shown;
use kernel::{Core, Event};
use kernel_model::TERMINALS;
use pictures::{Fate, FileChange, Flight, Output, Picture, Row};
use run_events::{EventRecord, Output as Written};
use std::alloc::{AllocError, Global};

/// The heading of a picture of a whole run.
const HEADING: &str = "What may be seen, and when";

/// The most bytes that are shown of an output.
const MOST_OUTPUT: usize = 12;

/// An output that is held back.
#[derive(Clone, Copy)]
struct Held {
    /// Its place among the picture's outputs.
    output: usize,
    terminal: u32,
    /// How many bytes were written to the terminal, those of this output included.
    end: usize,
    ghost there: { terminal < terminal_count },
}

/// The picture of a run so far. The changes, writes and outputs of the last boot that have not ended yet are kept beside it. What
/// an event does is noted for the next row, and then the row is added.
pub struct PictureBuilder {
    pub picture: Picture,
    /// How many changes the picture had at the boot.
    first_change: usize,
    /// How many changes there were at the last row since the boot, and how many of them were committed.
    changes: u64,
    committed: u64,
    /// How many writes the picture had before those that were submitted last.
    first_flight: usize,
    held: Vec<Held>,
}

impl Drop for PictureBuilder {
    fn drop(self) {
        let PictureBuilder {
            picture: _picture,
            first_change: _,
            changes: _,
            committed: _,
            first_flight: _,
            held: _held,
        } = self;
    }
}

/// A picture without a row.
fn empty_picture(alloc: Global) -> Result<Picture, AllocError> {
    Ok(Picture {
        heading: String::from_str(alloc, HEADING)?,
        rows: Vec::new(alloc),
        processes: 0,
        changes: Vec::new(alloc),
        flights: Vec::new(alloc),
        outputs: Vec::new(alloc),
        arrows: Vec::new(alloc),
        focus: 0,
    })
}

/// Whether an output is still held back.
fn is_held(core: &Core, held: &Held) -> bool {
    core.shown(held.terminal).len() < held.end
}

/// Ends an output with this fate.
fn end_output(picture: &mut Picture, held: &Held, fate: Fate) {
    if let Some(output) = picture.outputs.get_mut(held.output) {
        output.fate = fate;
    }
}

impl PictureBuilder {
    /// A builder before the first event of the first boot.
    pub fn new(alloc: Global) -> Result<PictureBuilder, AllocError> {
        Ok(PictureBuilder {
            picture: empty_picture(alloc)?,
            first_change: 0,
            changes: 0,
            committed: 0,
            first_flight: 0,
            held: Vec::new(alloc),
        })
    }

    fn next_row(&self) -> usize {
        self.picture.rows.len()
    }

    /// Notes the change that an event made, if it made one.
    fn note_change(&mut self, core: &Core, done: &EventRecord<'_>) -> Result<(), AllocError> {
        if done.change.is_some() {
            let row = self.next_row();
            self.picture.changes.push(FileChange {
                number: core.changes(),
                row,
                fate: Fate::Open,
            })?;
        }
        Ok(())
    }

    /// Gives this fate to the changes that are not committed yet, up to the one of this number.
    fn end_changes(&mut self, last: u64, fate: Fate) {
        for number in self.committed..last {
            let place = self.first_change.saturating_add(number as usize);
            if let Some(change) = self.picture.changes.get_mut(place) {
                change.fate = fate;
            }
        }
    }

    /// Notes that the write which began at this offset is in flight no more; without an offset, that none is.
    fn end_flights(&mut self, at: Option<u32>) {
        let row = self.next_row();
        for flight in self.picture.flights.iter_mut().skip(self.first_flight) {
            if flight.until.is_none() && at.unwrap_or(flight.at) == flight.at {
                flight.until = Some(row);
            }
        }
    }

    /// Whether a write is in flight.
    fn has_flights(&self) -> bool {
        self.picture
            .flights
            .iter()
            .skip(self.first_flight)
            .any(|flight| flight.until.is_none())
    }

    /// Notes the writes that are in flight now. They are new, since a stage's writes are submitted when no write is in flight.
    fn note_takeoffs(&mut self, core: &Core) -> Result<(), AllocError> {
        let row = self.next_row();
        let pieces = core.writes_in_flight();
        self.first_flight = self.picture.flights.len();
        for (index, piece) in pieces.iter().enumerate() {
            self.picture.flights.push(Flight {
                at: piece.at,
                bytes: piece.bytes.as_slice().len(),
                row,
                batch: pieces.len(),
                index,
                until: None,
            })?;
        }
        Ok(())
    }

    /// Notes what an event did with writes in flight.
    fn note_flights(&mut self, core: &Core, event: Event) -> Result<(), AllocError> {
        match event {
            Event::Turn { .. } | Event::Enter { .. } => return Ok(()),
            Event::Complete { at } | Event::Fail { at } => self.end_flights(Some(at)),
            Event::Cut => {}
        }
        if self.has_flights() {
            return Ok(());
        }
        self.note_takeoffs(core)
    }

    /// Notes what an event wrote to a terminal. The output is shown at once, or held back.
    fn note_output(
        &mut self,
        alloc: Global,
        core: &Core,
        written: &Written<'_>,
    ) -> Result<(), AllocError> {
        let terminal = written.terminal;
        if terminal >= TERMINALS as u32 {
            return Ok(());
        }
        let row = self.next_row();
        let held = Held {
            output: self.picture.outputs.len(),
            terminal,
            end: core.written(terminal).len(),
        };
        let fate = if is_held(core, &held) {
            self.held.push(held)?;
            Fate::Open
        } else {
            Fate::Kept { row }
        };
        self.picture.outputs.push(Output {
            terminal,
            text: bytes_shown(alloc, written.bytes, MOST_OUTPUT)?,
            row,
            fate,
        })?;
        Ok(())
    }

    /// Notes the outputs that had been held back, and are shown now.
    fn note_shown(&mut self, core: &Core) {
        let row = self.next_row();
        for held in self.held.as_slice() {
            if !is_held(core, held) {
                end_output(&mut self.picture, held, Fate::Kept { row });
            }
        }
        self.held.retain(|held| is_held(core, held));
    }

    /// Notes what an event did that the core accepted last, and adds its row.
    pub fn push_event(
        &mut self,
        alloc: Global,
        core: &Core,
        done: &EventRecord<'_>,
        mut row: Row,
    ) -> Result<(), AllocError> {
        self.note_change(core, done)?;
        self.note_flights(core, done.event)?;
        if let Some(written) = &done.output {
            self.note_output(alloc, core, written)?;
        }
        if core.committed() > self.committed {
            let place = self.next_row();
            self.end_changes(core.committed(), Fate::Kept { row: place });
            self.note_shown(core);
            row.committed = Some(core.committed());
        }
        self.changes = core.changes();
        self.committed = core.committed();
        Ok(self.picture.rows.push(row)?)
    }

    /// Ends in the next row what has not ended yet: changes that are not committed, writes in flight, outputs that are held back. Gives
    /// how many changes and outputs there were.
    pub fn cut_off(&mut self) -> (u64, u64) {
        let row = self.next_row();
        self.end_changes(self.changes, Fate::CutOff { row });
        self.end_flights(None);
        for held in self.held.as_slice() {
            end_output(&mut self.picture, held, Fate::CutOff { row });
        }
        let changes = self.changes.saturating_sub(self.committed);
        (changes, self.held.len() as u64)
    }

    /// Goes on with the next boot.
    pub fn boot(&mut self) {
        self.first_change = self.picture.changes.len();
        self.changes = 0;
        self.committed = 0;
        self.held.clear();
    }
}

//! The writes of the disk.
use crate::disk_data::WriteData;
use kernel::{Core, Event, Piece};
use std::alloc::{AllocError, Global};

/// The writes since a boot.
#[derive(Drop)]
pub struct WriteNotes {
    writes: Vec<WriteData>,
    /// How many groups were cut.
    groups: u64,
}

/// What a write writes. The first gates of the halves are at 64 and at 1,048,576, and a record begins behind its gate.
fn what_of(piece: &Piece) -> &'static str {
    match (piece.at, piece.bytes.as_slice()) {
        (0, _) => "switch",
        (_, [1]) => "gate",
        (64, _) | (1_048_576, _) => "closing",
        _ => "record",
    }
}

fn is_in_flight(write: &WriteData) -> bool {
    write.to == 0
}

impl WriteNotes {
    /// Before the first write.
    pub fn new(alloc: Global) -> WriteNotes {
        WriteNotes {
            writes: Vec::new(alloc),
            groups: 0,
        }
    }

    /// The writes in order.
    pub fn into_writes(self) -> Vec<WriteData> {
        let WriteNotes { writes, groups: _ } = self;
        writes
    }

    /// Notes that the write which began at this offset is in flight no more.
    fn end(&mut self, at: u32, number: u64, failed: bool) {
        for write in self.writes.iter_mut() {
            if is_in_flight(write) && write.at == at {
                write.to = number;
                write.failed = failed;
            }
        }
    }

    /// Notes the writes that are in flight now, which are new.
    fn begin(&mut self, core: &Core, number: u64) -> Result<(), AllocError> {
        for piece in core.writes_in_flight() {
            self.writes.push(WriteData {
                at: piece.at,
                bytes: piece.bytes.as_slice().len(),
                what: what_of(piece),
                group: self.groups,
                from: number,
                to: 0,
                failed: false,
            })?;
        }
        Ok(())
    }

    /// Notes what the last event of a core did with writes. A stage's writes are submitted once none is in flight.
    pub fn note(&mut self, core: &Core, event: Event) -> Result<(), AllocError> {
        let number = core.history().len() as u64;
        match event {
            Event::Turn { .. } | Event::Enter { .. } => return Ok(()),
            Event::Complete { at } => self.end(at, number, false),
            Event::Fail { at } => self.end(at, number, true),
            Event::Cut => self.groups = self.groups.saturating_add(1),
        }
        if self.writes.iter().any(is_in_flight) {
            return Ok(());
        }
        self.begin(core, number)
    }
}

//! What a picture shows.

/// A picture of a run, row by row. Rows are numbered from 0, processes from 1. What is in `changes`, `flights` and `outputs` stands in
/// the order of the rows in which it begins.
pub struct Picture {
    /// The line above the picture.
    pub heading: String,
    pub rows: Vec<Row>,
    /// How many processes there are.
    pub processes: u32,
    pub changes: Vec<FileChange>,
    pub flights: Vec<Flight>,
    pub outputs: Vec<Output>,
    pub arrows: Vec<Arrow>,
    /// A row that is drawn in any case, also where the run is too long for one picture.
    pub focus: usize,
}

impl Drop for Picture {
    fn drop(self) {
        let Picture {
            heading: _heading,
            rows: _rows,
            processes: _,
            changes: _changes,
            flights: _flights,
            outputs: _outputs,
            arrows: _arrows,
            focus: _,
        } = self;
    }
}

/// An event, or a note between events.
pub struct Row {
    /// The event as a line of a script.
    pub label: String,
    /// What it answered.
    pub answer: String,
    pub deed: Deed,
    /// How many changes are committed after it, where it committed some.
    pub committed: Option<u64>,
    /// Whether it is drawn pale.
    pub pale: bool,
}

impl Drop for Row {
    fn drop(self) {
        let Row {
            label: _label,
            answer: _answer,
            deed: _deed,
            committed: _,
            pale: _,
        } = self;
    }
}

/// What a row's process did.
#[derive(Drop)]
pub enum Deed {
    /// The event is one of the disk, and no process's.
    Disk,
    /// A process ran.
    Turn {
        process: u32,
    },
    /// A process entered the kernel: its call, and what came of it.
    Call {
        process: u32,
        call: String,
        outcome: String,
    },
    /// The row is no event, but a note across the picture.
    Note(String),
}

/// What becomes of a change or of an output.
#[derive(Clone, Copy)]
pub enum Fate {
    /// It is not on the disk, or not shown, when the picture ends.
    Open,
    /// It is on the disk, or shown, from this row on.
    Kept { row: usize },
    /// It ends at this row, and was neither on the disk nor shown.
    CutOff { row: usize },
}

/// A change of a file.
#[derive(Clone, Copy)]
pub struct FileChange {
    pub number: u64,
    /// The row that made it.
    pub row: usize,
    pub fate: Fate,
}

/// A write in flight to the disk.
#[derive(Clone, Copy)]
pub struct Flight {
    /// Where it begins on the disk, in bytes.
    pub at: u32,
    /// How many bytes it has.
    pub bytes: usize,
    /// The row that submitted it.
    pub row: usize,
    /// How many writes that row submitted, and which of them this is, from 0.
    pub batch: usize,
    pub index: usize,
    /// The row in which it was completed, failed or was cut off. None where it is in flight when the picture ends.
    pub until: Option<usize>,
}

/// What an event wrote to a terminal.
pub struct Output {
    pub terminal: u32,
    /// The bytes, as they are shown in a picture.
    pub text: String,
    /// The row that wrote it.
    pub row: usize,
    pub fate: Fate,
}

impl Drop for Output {
    fn drop(self) {
        let Output {
            terminal: _,
            text: _text,
            row: _,
            fate: _,
        } = self;
    }
}

/// A path from one row to a later one, whose processes differ.
#[derive(Clone, Copy)]
pub struct Arrow {
    pub from: usize,
    pub to: usize,
}

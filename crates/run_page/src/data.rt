//! What a page has of a run, as it stands in the page's JSON. `docs/PAGES.md` has the fields.
use crate::disk_data::WriteData;
use crate::event_data::EventData;
use crate::file_data::{ChangeData, FileData};
use crate::output_data::OutputData;
use crate::place_data::PlaceData;
use serde::Serialize;

/// A run: that of a script, with a boot for each crash more.
#[derive(Serialize)]
pub struct RunData {
    /// The version of this form.
    pub page: u32,
    /// The name of the script's file, without its folders.
    pub name: String,
    pub made: &'static str,
    /// The terminals of the programs, each once, by rising number.
    pub terminals: Vec<u32>,
    /// What torn writes hold after a crash, as `crash` lines write it.
    pub fills: Vec<&'static str>,
    /// How many events of the run come after those that are here.
    pub left: u64,
    pub boots: Vec<BootData>,
}

impl Drop for RunData {
    fn drop(self) {
        let RunData {
            page: _,
            name: _name,
            made: _,
            terminals: _terminals,
            fills: _fills,
            left: _,
            boots: _boots,
        } = self;
    }
}

/// What followed one boot.
#[derive(Serialize)]
pub struct BootData {
    pub processes: Vec<ProcessData>,
    /// The states of files, each once.
    pub states: Vec<FileData>,
    /// The files after each number of changes, by their places among the states.
    pub versions: Vec<Vec<usize>>,
    pub changes: Vec<ChangeData>,
    pub outputs: Vec<OutputData>,
    pub writes: Vec<WriteData>,
    pub refused: Vec<RefusedData>,
    pub events: Vec<EventData>,
    /// What a crash leaves right after the boot, for each fill, as in an event.
    pub crash: Vec<Option<u64>>,
    /// The crash that ended it, if one did.
    pub ends: Option<EndData>,
}

impl Drop for BootData {
    fn drop(self) {
        let BootData {
            processes: _processes,
            states: _states,
            versions: _versions,
            changes: _changes,
            outputs: _outputs,
            writes: _writes,
            refused: _refused,
            events: _events,
            crash: _crash,
            ends: _ends,
        } = self;
    }
}

/// A process that came to be: by an event, or at the boot, which is event 0.
#[derive(Drop, Serialize)]
pub struct ProcessData {
    pub p: u32,
    pub e: u64,
    /// The process that made it, 0 at the boot.
    pub parent: u32,
    /// Where it begins.
    pub at: Option<PlaceData>,
}

/// A line that was refused, and after which event.
#[derive(Drop, Serialize)]
pub struct RefusedData {
    pub after: u64,
    pub line: String,
    pub answer: String,
}

/// A crash.
#[derive(Drop, Serialize)]
pub struct EndData {
    pub line: String,
    /// How many changes were not committed, and how many outputs were held back.
    pub changes: u64,
    pub outputs: u64,
    /// After how many changes are the files that the next boot finds.
    pub found: Option<u64>,
}

//! Durable runs by two workers, over a file in memory that refuses a call. A run has four: the record is written and synced, and then
//! its gate. Only what was synced counts as held.
ghost use Rattle.std.specs.Prelude.{◌≡◌};
ghost use Rattle.durable_disk.specs.FileRecords.{record_in};

use crate::case::QUANTUM;
use crate::fault::Fault;
use crate::programs::{boot, boot_on, zeros};
use crate::two_workers::{say, settings};
use durable_disk::{DiskFile, FileNotes, HostRefused};
use executor::Run;
use kernel::{Core, Piece};
use std::alloc::Global;
use std::sync::Wait;
use std::thread::Threads;

/// Which call is refused, as all after it would be.
const REFUSED: [u32; 5] = [1, 2, 3, 4, 5];

/// A file that holds what was synced.
#[derive(Drop)]
struct MemoryFile<'f> {
    alloc: Global,
    held: &'f mut Vec<u8>,
    unsynced: Vec<(usize, Vec<u8>)>,
    /// How many calls are not refused.
    room: u32,
    notes: FileNotes,
}

impl<'f> MemoryFile<'f> {
    /// A file that holds these bytes, and refuses the call of a number, from 1.
    fn new(alloc: Global, held: &'f mut Vec<u8>, refused: u32) -> MemoryFile<'f> {
        MemoryFile {
            alloc,
            held,
            unsynced: Vec::new(alloc),
            room: refused.saturating_sub(1),
            notes: FileNotes::none(),
        }
    }

    /// Counts a call, or refuses it.
    fn count(&mut self) -> Result<(), HostRefused>
        ensures { self.new.notes ≡ self.old.notes }
    {
        if self.room == 0 {
            return Err(HostRefused);
        }
        self.room -= 1;
        Ok(())
    }

    /// Keeps the bytes for the next sync.
    fn note(&mut self, at: u32, bytes: &[u8]) -> Result<(), HostRefused>
        ensures { self.new.notes ≡ self.old.notes }
    {
        self.count()?;
        let bytes = Vec::from_slice(self.alloc, bytes).map_err(|_| HostRefused)?;
        self.unsynced
            .push((at as usize, bytes))
            .map_err(|_| HostRefused)
    }

    /// Holds what was written.
    fn hold(&mut self) -> Result<(), HostRefused>
        ensures { self.new.notes ≡ self.old.notes }
    {
        self.count()?;
        for (at, bytes) in &self.unsynced {
            put(self.held.as_mut_slice(), *at, bytes.as_slice());
        }
        self.unsynced.clear();
        Ok(())
    }
}

/// Puts bytes over others, where they lie among them.
fn put(held: &mut [u8], at: usize, bytes: &[u8]) {
    let end = at.saturating_add(bytes.len());
    if at <= end && end <= held.len() {
        held[at..end].copy_from_slice(bytes);
    }
}

impl<'f> DiskFile for MemoryFile<'f> {
    ghost record_of = { λ f. record_in f.notes };

    fn write(&mut self, piece: &Piece) -> Result<(), HostRefused> {
        let done = self.note(piece.at, piece.bytes.as_slice()).is_ok();
        self.notes.note_write(piece, done);
        if done { Ok(()) } else { Err(HostRefused) }
    }

    fn sync(&mut self) -> Result<(), HostRefused> {
        let done = self.hold().is_ok();
        self.notes.note_sync(done);
        if done { Ok(()) } else { Err(HostRefused) }
    }
}

/// Runs both programs over a file that refuses its first call, the second, and so on. Says how many changes are committed, what was
/// written out, and how many files the disk has that the file holds.
pub fn play<R: Threads + Wait + Sync>(
    rt: &R,
    alloc: Global,
    line: &mut String,
) -> Result<(), Fault> {
    write!(line, "two workers, and a file that refuses a call")?;
    for refused in REFUSED {
        play_one(rt, alloc, refused, line)?;
    }
    Ok(())
}

/// Runs a core by two workers on a file. What its terminal shows goes out.
fn run_on<R: Threads + Wait + Sync, F: DiskFile + Send + Drop>(
    rt: &R,
    alloc: Global,
    core: Core,
    file: F,
    out: &mut Vec<u8>,
) -> Result<Core, Fault> {
    let mut run = Run::new(alloc, settings(QUANTUM), out).on_file(Some(file));
    Ok(run.to_end(rt, core)?)
}

/// Runs both programs over a file that refuses a call.
fn play_one<R: Threads + Wait + Sync>(
    rt: &R,
    alloc: Global,
    refused: u32,
    line: &mut String,
) -> Result<(), Fault> {
    let mut held = zeros(alloc)?;
    let mut out = Vec::new(alloc);
    let file = MemoryFile::new(alloc, &mut held, refused);
    let core = run_on(rt, alloc, boot(alloc)?, file, &mut out)?;
    let written = hex::encode(alloc, out.as_slice())?;
    say(&core, refused, written.as_str(), line)?;
    let files = boot_on(alloc, held.as_slice())?.boot_files().count();
    Ok(write!(line, ", {files} files held")?)
}

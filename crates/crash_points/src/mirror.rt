//! `Mirror`: the disk of a core, in memory of its own, on which crashes are tried.
use crate::putting::{put, put_all};
use crate::recovered::Recovered;
use byte_list::Bytes;
use crash_outcomes::{FILLS, Fill};
use disk_model::Piece;
use faults::Fault;
use files::FileTable;
use kernel::{Core, Event, SimDisk};
use std::alloc::{AllocError, Global};
use std::sync::Arc;

/// The files that a crash with this fill leaves.
#[derive(Drop)]
pub struct Crashed {
    pub fill: Fill,
    /// None where another crash at this moment or the last one left the same.
    pub files: Option<Arc<FileTable>>,
}

/// The disk of a core without what is in flight. It is made when it is asked for first, and then follows the core, so that no crash
/// takes a copy of a whole disk. What it holds is read anew only where a byte changes that recovery reads: most crashes leave the
/// files that the one before left.
pub struct Mirror {
    /// None before, and where a write has failed.
    device: Option<SimDisk>,
    /// What the disk holds, if that was read.
    held: Option<Recovered>,
    /// What it holds with 1 at the gate at which that ends, if that was read: no byte after the gate changed since.
    opened: Option<Recovered>,
    /// How many disks were read.
    count: u64,
    /// What crashes left at the last moment, by how many disks had been read before.
    last: Vec<u64>,
}

impl Drop for Mirror {
    fn drop(self) {
        let Mirror {
            device: _device,
            held: _held,
            opened: _opened,
            count: _,
            last: _last,
        } = self;
    }
}

/// Whether crashes with different fills may leave different disks now: some write is in flight or has failed.
fn differ_by_fill(core: &Core) -> bool {
    core.has_failed() || !core.writes_in_flight().is_empty()
}

/// What a disk has where a piece is to go.
fn old_piece(alloc: Global, device: &SimDisk, piece: &Piece) -> Result<Piece, AllocError> {
    let begin = piece.at as usize;
    let end = begin.saturating_add(piece.bytes.as_slice().len());
    let old = device.bytes().get(begin..end).unwrap_or(&[]);
    Ok(Piece {
        at: piece.at,
        bytes: Bytes::copy_of(alloc, old)?,
    })
}

/// What it has where pieces are to go.
fn old_pieces(alloc: Global, device: &SimDisk, pieces: &[Piece]) -> Result<Vec<Piece>, AllocError> {
    let mut old = Vec::new(alloc);
    for piece in pieces {
        old.push(old_piece(alloc, device, piece)?)?;
    }
    Ok(old)
}

/// The disk that a crash leaves where these writes are in flight.
fn disk_after(mut device: SimDisk, writes: &[Piece], fill: Fill) -> Result<SimDisk, Fault> {
    for piece in writes {
        if device.submit(piece.at, piece.bytes.as_slice()).is_err() {
            return Err(Fault::OutOfMemory);
        }
    }
    Ok(device.crash(fill.bytes()))
}

impl Mirror {
    /// Of no core as yet.
    pub fn new(alloc: Global) -> Mirror {
        Mirror {
            device: None,
            held: None,
            opened: None,
            count: 0,
            last: Vec::new(alloc),
        }
    }

    /// Is told of an event before the core does it.
    pub fn before(&mut self, core: &Core, event: Event) -> Result<(), Fault> {
        if let Event::Complete { at } = event {
            for piece in core.writes_in_flight() {
                if piece.at == at {
                    self.complete(piece)?;
                }
            }
        }
        Ok(())
    }

    /// Does a write. What the disk then holds is known where the write opened the gate, and where recovery reads none of its bytes.
    fn complete(&mut self, piece: &Piece) -> Result<(), Fault> {
        let Some(device) = &mut self.device else {
            return Ok(());
        };
        put(device, piece)?;
        let opened = self.opened.take();
        if let Some(held) = self.held.take() {
            if held.stays_with(piece) {
                self.held = Some(held);
            } else if held.is_opened_by(piece) {
                self.held = opened;
            }
        }
        Ok(())
    }

    /// The disk of a core without what is in flight. It is to be handed back.
    fn take(&mut self, core: &Core) -> Result<SimDisk, Fault> {
        match self.device.take() {
            Some(device) => Ok(device),
            None => Ok(core.after_crash(&[])?),
        }
    }

    /// Reads a disk.
    fn read(&mut self, alloc: Global, device: &SimDisk) -> Result<Recovered, Fault> {
        let recovered = Recovered::read(alloc, device, self.count)?;
        self.count = self.count.saturating_add(1);
        Ok(recovered)
    }

    /// What the disk holds.
    fn held(&mut self, alloc: Global, core: &Core) -> Result<Recovered, Fault> {
        if let Some(held) = &self.held {
            return Ok(held.share()?);
        }
        let device = self.take(core)?;
        let held = self.read(alloc, &device)?;
        self.device = Some(device);
        self.held = Some(held.share()?);
        Ok(held)
    }

    /// What a crash with this fill leaves of the disk. It is then as it was.
    fn crashed(&mut self, alloc: Global, core: &Core, fill: Fill) -> Result<Recovered, Fault> {
        let device = self.take(core)?;
        let writes = core.writes_in_flight();
        let old = old_pieces(alloc, &device, writes)?;
        let mut left = disk_after(device, writes, fill)?;
        let recovered = self.read(alloc, &left)?;
        put_all(&mut left, old.as_slice())?;
        self.device = Some(left);
        Ok(recovered)
    }

    /// The same where the crash opens the gate, and does nothing else.
    fn opened(&mut self, alloc: Global, core: &Core, fill: Fill) -> Result<Recovered, Fault> {
        if let Some(opened) = &self.opened {
            return Ok(opened.share()?);
        }
        let opened = self.crashed(alloc, core, fill)?;
        self.opened = Some(opened.share()?);
        Ok(opened)
    }

    /// The same where a write has failed: then nothing is kept of the disk.
    fn failed(&mut self, alloc: Global, core: &Core, fill: Fill) -> Result<Recovered, Fault> {
        self.device = None;
        self.held = None;
        self.opened = None;
        let left = core.after_crash(fill.bytes())?;
        self.read(alloc, &left)
    }

    /// What a crash with this fill would leave now.
    fn left_with(&mut self, alloc: Global, core: &Core, fill: Fill) -> Result<Recovered, Fault> {
        if core.has_failed() {
            return self.failed(alloc, core, fill);
        }
        let held = self.held(alloc, core)?;
        let writes = core.writes_in_flight();
        if held.stays_after(writes, fill) {
            Ok(held)
        } else if held.is_opened_after(writes, fill) {
            self.opened(alloc, core, fill)
        } else {
            self.crashed(alloc, core, fill)
        }
    }

    /// The files that a crash would leave now, with each fill, or with the first where all leave the same disk. The core itself goes on.
    pub fn left_by(&mut self, alloc: Global, core: &Core) -> Result<Vec<Crashed>, Fault> {
        let mut left = Vec::new(alloc);
        let mut numbers: Vec<u64> = Vec::new(alloc);
        for fill in FILLS {
            let Recovered { files, number, .. } = self.left_with(alloc, core, fill)?;
            let is_known = numbers.contains(&number) || self.last.contains(&number);
            let files = if is_known { None } else { Some(files) };
            numbers.push(number)?;
            left.push(Crashed { fill, files })?;
            if !differ_by_fill(core) {
                break;
            }
        }
        self.last = numbers;
        Ok(left)
    }

    /// From now on nothing counts as left at the last moment.
    pub fn forget_last(&mut self) {
        self.last.clear();
    }
}

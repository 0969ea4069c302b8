//! The device: a disk, and the writes to it.
ghost use Rattle.std.specs.Prelude.{◌≡◌, is_some, ◌≤◌, ◌+◌, ◌==◌, ◌↔◌, ◌⊎◌, None, not, false, true, ℕ, IfOk, IfErr, OnOk, OnErr, slice_index, Ok, Err, IsErrOf, MatchOption, length, [], ◌∷◌, ◌++◌};
ghost use Rattle.disk_model.specs.Storage.{Device, piece_at, sent, with_completion, with_failure, is_quiet, is_empty, least_start};
ghost use Rattle.disk_model.specs.Runs.{quiet};
ghost use Rattle.simdisk.specs.Room.{has_room, crashed, AreSpaced};
ghost use Rattle.simdisk.specs.declared.refusal.DiskRefusal.TheVariants.{NoSuchWrite, OutOfRange, OutOfMemory, BadLength};

use crate::ranges::{are_apart, least_start_of, leave_crashed, place_of, take_out};
use crate::refusal::DiskRefusal;
use crate::shared_bytes::SharedBytes;
use byte_list::Bytes;
use disk_model::Piece;
use std::alloc::{AllocError, Global};
use std::marker::Model;

/// How many bytes a disk has: 2 MiB.
pub const SIZE: usize = 2097152;

/// The most bytes of one write.
const LONGEST_WRITE: usize = 4096;

/// A simulated disk. From its submission to its completion a write may be torn: after a crash its range may hold any bytes. A
/// failed write leaves any bytes in its range, and no later write of the run may meet that range. Completions come in any order,
/// each named by the place at which its write begins.
pub struct SimDisk {
    pub(crate) alloc: Global,
    pub(crate) bytes: SharedBytes,
    pub(crate) in_flight: Vec<Piece>,
    pub(crate) failed: Vec<Piece>,
}

impl Drop for SimDisk {
    fn drop(self) {
        let SimDisk {
            alloc: _,
            bytes: _bytes,
            in_flight: _in_flight,
            failed: _failed,
        } = self;
    }
}

impl Model for SimDisk {
    ghost use Rattle.std.specs.Prelude.{◌≡◌, length};
    ghost use Rattle.disk_model.specs.Storage.{Device};
    ghost use Rattle.simdisk.specs.Room.{LieOn};

    ghost Value = { Device };

    ghost view = { λ s. record { disk = s.bytes; in_flight = s.in_flight.items; failed = s.failed.items } };

    ghost invariant = { λ s. (length s.bytes ≡ 2097152) × LieOn 2097152 s.in_flight.items × LieOn 2097152 s.failed.items };
}

fn zeros(alloc: Global, n: usize) -> Result<Vec<u8>, AllocError>
    ensures len { IfOk result (λ v. length v.items ≡ n) }
    ensures zeros { IfOk result (λ v. (i : ℕ) → slice_index v.items i ≡ 0) }
{
    vec![in alloc; 0; n]
}

impl SimDisk {
    /// A disk of zeros, whose 2 MiB are allocated here.
    pub fn zero(alloc: Global) -> Result<SimDisk, DiskRefusal>
        ensures size { IfOk result (λ d. length d.disk ≡ 2097152) }
        ensures zeros { IfOk result (λ d. (i : ℕ) → slice_index d.disk i ≡ 0) }
        ensures quiet { IfOk result (λ d. d ≡ quiet d.disk) }
        ensures cause { IfErr result (λ e. e ≡ OutOfMemory) }
    {
        let bytes = zeros(alloc, SIZE)?;
        Ok(SimDisk {
            alloc,
            bytes: SharedBytes::new(bytes),
            in_flight: Vec::new(alloc),
            failed: Vec::new(alloc),
        })
    }

    /// A disk of these completed bytes, which are copied. BadLength comes before OutOfMemory.
    pub fn open(alloc: Global, bytes: &[u8]) -> Result<SimDisk, DiskRefusal>
        ensures ok { IfOk result (λ d. d ≡ quiet bytes.now) }
        ensures length { IsErrOf result BadLength ↔ ((length bytes.now == 2097152) ≡ false) }
        ensures cause { IfErr result (λ e. (e ≡ BadLength) ⊎ (e ≡ OutOfMemory)) }
    {
        if bytes.len() != SIZE {
            return Err(DiskRefusal::BadLength);
        }
        let bytes = Vec::from_slice(alloc, bytes)?;
        Ok(SimDisk {
            alloc,
            bytes: SharedBytes::new(bytes),
            in_flight: Vec::new(alloc),
            failed: Vec::new(alloc),
        })
    }

    /// Whether nothing is in flight and nothing has failed. After a failure it stays false.
    pub fn quiet(&self) -> bool
        ensures { result ≡ is_quiet self.now }
    {
        self.in_flight.is_empty() && self.failed.is_empty()
    }

    /// Whether a write has failed. Only a crash takes a failure away.
    pub fn has_failed(&self) -> bool
        ensures { result ≡ not (is_empty self.now.failed) }
    {
        !self.failed.is_empty()
    }

    /// The bytes as completed writes left them, without those in flight or failed.
    pub fn bytes(&self) -> &[u8]
        ensures bytes { result.now ≡ self.now.disk }
        ensures size { length result.now ≡ 2097152 }
    {
        self.bytes.as_slice()
    }

    /// The least place at which a write in flight begins, in bytes from the disk's start.
    pub fn in_flight(&self) -> Option<u32>
        ensures { result ≡ least_start self.now.in_flight }
    {
        least_start_of(&self.in_flight)
    }

    /// The writes in flight, in the order in which they were submitted.
    pub fn writes_in_flight(&self) -> &[Piece]
        ensures { result.now ≡ self.now.in_flight }
    {
        &self.in_flight
    }

    /// Whether a write in flight begins there, so that `complete` is not refused, and `fail` for memory alone.
    pub fn is_in_flight(&self, at: u32) -> bool
        ensures { result ≡ is_some (piece_at self.now.in_flight at) }
    {
        place_of(&self.in_flight, at).is_some()
    }

    /// Whether n bytes may be written at a place: 1 to 4,096 bytes, on the disk, apart from all ranges in flight or failed.
    fn has_room(&self, at: u32, n: usize) -> bool
        ensures { result ≡ has_room self.now at n }
    {
        let from = at as usize;
        n != 0
            && n <= LONGEST_WRITE
            && from + n <= SIZE
            && are_apart(&self.in_flight, from, n)
            && are_apart(&self.failed, from, n)
    }

    /// Submits a write of these bytes, which are copied. OutOfRange comes before OutOfMemory.
    pub fn submit(&mut self, at: u32, bytes: &[u8]) -> Result<(), DiskRefusal>
        ensures range { IsErrOf result OutOfRange ↔ (has_room self.old at (length bytes.now) ≡ false) }
        ensures ok { OnOk result (self.new ≡ record { disk = self.old.disk; in_flight = self.old.in_flight ++ record { at = at; bytes = bytes.now } ∷ []; failed = self.old.failed }) }
        ensures err { OnErr result (self.new ≡ self.old) }
        ensures cause { IfErr result (λ e. (e ≡ OutOfRange) ⊎ (e ≡ OutOfMemory)) }
    {
        if !self.has_room(at, bytes.len()) {
            return Err(DiskRefusal::OutOfRange);
        }
        let bytes = Bytes::copy_of(self.alloc, bytes)?;
        self.in_flight.push(Piece { at, bytes })?;
        Ok(())
    }

    /// Submits these pieces together, without copying them. Takes no memory.
    pub fn send(&mut self, pieces: Vec<Piece>)
        requires idle { is_quiet self.old ≡ true }
        requires room { AreSpaced 2097152 pieces.items }
        ensures { self.new ≡ sent self.old pieces.items }
    {
        self.in_flight = pieces;
    }

    /// The write that begins there is complete. Takes no memory.
    pub fn complete(&mut self, at: u32) -> Result<(), DiskRefusal>
        ensures ok { MatchOption (piece_at self.old.in_flight at) (result ≡ Err NoSuchWrite) (λ p. (result ≡ Ok tt) × (self.new ≡ with_completion self.old at p)) }
        ensures err { OnErr result (self.new ≡ self.old) }
    {
        match take_out(&mut self.in_flight, at) {
            None => Err(DiskRefusal::NoSuchWrite),
            Some(piece) => {
                self.bytes
                    .overwrite(piece.at as usize, piece.bytes.as_slice());
                Ok(())
            }
        }
    }

    /// The write that begins there has failed: until a crash no other may meet its range. NoSuchWrite comes before OutOfMemory.
    pub fn fail(&mut self, at: u32) -> Result<(), DiskRefusal>
        ensures ok { OnOk result (MatchOption (piece_at self.old.in_flight at) ⊥ (λ p. self.new ≡ with_failure self.old at p)) }
        ensures err { OnErr result (self.new ≡ self.old) }
        ensures refused { IsErrOf result NoSuchWrite ↔ (piece_at self.old.in_flight at ≡ None) }
        ensures cause { IfErr result (λ e. (e ≡ NoSuchWrite) ⊎ (e ≡ OutOfMemory)) }
    {
        let Some(i) = place_of(&self.in_flight, at) else {
            return Err(DiskRefusal::NoSuchWrite);
        };
        if self.failed.try_reserve(1).is_err() {
            return Err(DiskRefusal::OutOfMemory);
        }
        let piece = self.in_flight.remove(i);
        match self.failed.push(piece) {
            Ok(()) => Ok(()),
            Err(_) => Err(DiskRefusal::OutOfMemory),
        }
    }

    /// The disk after a crash. The ranges in flight or failed take the bytes of `fill`, by rising place, again and again from its
    /// start. An empty fill leaves the old bytes. Takes no memory.
    pub fn crash(mut self, fill: &[u8]) -> SimDisk
        ensures { result ≡ quiet (crashed self fill.now) }
    {
        self.bytes
            .leave_crashed(&self.in_flight, &self.failed, fill);
        self.in_flight = Vec::new(self.alloc);
        self.failed = Vec::new(self.alloc);
        self
    }

    /// The disk that `crash` would leave for this fill now, in memory of its own: 2 MiB are copied.
    pub fn after_crash(&self, fill: &[u8]) -> Result<SimDisk, AllocError>
        ensures { IfOk result (λ d. d ≡ quiet (crashed self.now fill.now)) }
    {
        let mut bytes = Vec::from_slice(self.alloc, self.bytes.as_slice())?;
        leave_crashed(&mut bytes, &self.in_flight, &self.failed, fill);
        Ok(SimDisk {
            alloc: self.alloc,
            bytes: SharedBytes::new(bytes),
            in_flight: Vec::new(self.alloc),
            failed: Vec::new(self.alloc),
        })
    }
}

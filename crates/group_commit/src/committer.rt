//! The committer, which owns the device.
ghost use Rattle.std.specs.Prelude.{◌≡◌, is_some, ◌<◌, ◌≤◌, ◌+◌, ◌^◌, ◌↔◌, ◌⊎◌, ◌&&◌, not, nat_lt, true, None, IfOk, IfErr, OnOk, OnErr, IsErrOf, MatchOption, MatchResult, slice_index, length, List, Ok, Err};
ghost use Rattle.std.specs.List.{AllByRecursion};
ghost use Rattle.disk_model.specs.Files.{IsFormed, IsMade};
ghost use Rattle.disk_model.specs.Spelling.{body_of as body, gate_after};
ghost use Rattle.disk_model.specs.Held.{selected_half, start_of, end_of};
ghost use Rattle.disk_model.specs.Storage.{Storage, piece_at, completed, failed, cut, group, checkpoint, group_of, group_or_checkpoint, is_empty, is_quiet, least_start};
ghost use Rattle.disk_model.specs.Runs.{first_storage, quiet};
ghost use Rattle.simdisk.specs.Room.{crashed};
ghost use Rattle.group_commit.specs.Stages.{length_all};
ghost use Rattle.group_commit.specs.Refusals.{cut_test, last_refusal};
ghost use Rattle.group_commit.specs.Plans.{planned, HasRoom, Begins};
ghost use Rattle.group_commit.specs.declared.refusal.CommitRefusal.TheVariants.{NoSuchWrite, OutOfMemory};

use crate::pieces::{byte_piece, checkpoint_stages, gate_past, record_pieces};
use crate::plan::CutPlan;
use crate::refusal::CommitRefusal;
use disk_model::{Change, Piece, checkpoints_fit};
use files::FileTable;
use journal::{body_of, first_gate, half_end, half_of, rebuild};
use simdisk::{DiskRefusal, SimDisk};
use std::alloc::{AllocError, Global};
use std::marker::Model;

/// The most changes of a group.
const GROUP: usize = 64;

/// Commits changes to a device. A group is written in stages: the pieces of its record together, and once all are complete its
/// gate, alone. Where the record would not fit into the half, a checkpoint of all files goes to the other half. Its stages are a 0
/// to that half's first gate, the pieces, the gate, and byte 0, which selects the half. After the last stage the group is
/// committed.
pub struct Committer {
    pub(crate) device: SimDisk,
    pub(crate) stages: Vec<Vec<Piece>>,
    pub(crate) half: bool,
    pub(crate) gate: u32,
    pub(crate) committed: u64,
    pub(crate) next_half: bool,
    pub(crate) next_gate: u32,
    pub(crate) next_committed: u64,
}

impl Drop for Committer {
    fn drop(self) {
        let Committer {
            device: _device,
            stages: _stages,
            half: _,
            gate: _,
            committed: _,
            next_half: _,
            next_gate: _,
            next_committed: _,
        } = self;
    }
}

impl Model for Committer {
    ghost use Rattle.std.specs.Prelude.{◌<◌};
    ghost use Rattle.disk_model.specs.Held.{end_of};
    ghost use Rattle.disk_model.specs.Storage.{Storage};
    ghost use Rattle.group_commit.specs.Stages.{items_of, AllSpaced};

    ghost Value = { Storage };

    ghost view = { λ c. record {
      device = c.device;
      stages = items_of c.stages.items;
      half = c.half;
      gate = c.gate;
      committed = c.committed;
      next_half = c.next_half;
      next_gate = c.next_gate;
      next_committed = c.next_committed;
    } };

    ghost invariant = { λ c. AllSpaced (items_of c.stages.items) × (c.gate < end_of c.half) × (c.next_gate < end_of c.next_half) };
}

impl Committer {
    /// The committer of a run that begins on a disk that holds files. `gate` is the place of the first gate in the selected half
    /// that is not open: 64 on a disk of zeros. Takes no memory.
    pub fn new(alloc: Global, device: SimDisk, gate: u32) -> Committer
        requires quiet { is_quiet device ≡ true }
        requires half { start_of (selected_half (slice_index device.disk 0)) ≤ gate }
        requires within { gate < end_of (selected_half (slice_index device.disk 0)) }
        ensures { result ≡ first_storage device.disk gate }
    {
        let half = half_of(device.bytes()[0]);
        Committer {
            device,
            stages: Vec::new(alloc),
            half,
            gate,
            committed: 0,
            next_half: half,
            next_gate: gate,
            next_committed: 0,
        }
    }

    /// How many changes of this run are committed. Those that the disk began with do not count.
    pub fn committed(&self) -> u64
        ensures { result ≡ self.now.committed }
    {
        self.committed
    }

    /// The least place at which a write in flight begins, in bytes from the disk's start.
    pub fn in_flight(&self) -> Option<u32>
        ensures { result ≡ least_start self.now.device.in_flight }
    {
        self.device.in_flight()
    }

    /// The writes in flight, in the order in which they were submitted.
    pub fn writes_in_flight(&self) -> &[Piece]
        ensures { result.now ≡ self.now.device.in_flight }
    {
        self.device.writes_in_flight()
    }

    /// Whether a write in flight begins there, so that `completed` is not refused, and `failed` for memory alone.
    pub fn is_in_flight(&self, at: u32) -> bool
        ensures { result ≡ is_some (piece_at self.now.device.in_flight at) }
    {
        self.device.is_in_flight(at)
    }

    /// Whether a cut is wanted: output is held back (`held`), no group is in flight, and no write has failed.
    pub fn wants_cut(&self, held: bool) -> bool
        ensures { result ≡ (held && is_quiet self.now.device) }
    {
        held && self.device.quiet()
    }

    /// Whether a write has failed, so that nothing is submitted or committed any more.
    pub fn has_failed(&self) -> bool
        ensures { result ≡ not (is_empty self.now.device.failed) }
    {
        self.device.has_failed()
    }

    /// The first three tests of `cut`, without its work: DiskFailed, GroupInFlight, NothingToCut. The changes are all uncommitted
    /// ones.
    pub fn may_cut(&self, changes: &[Change]) -> Result<(), CommitRefusal>
        ensures { result ≡ cut_test self.now changes.now }
    {
        if self.device.has_failed() {
            return Err(CommitRefusal::DiskFailed);
        }
        if !self.device.quiet() {
            return Err(CommitRefusal::GroupInFlight);
        }
        if changes.is_empty() {
            return Err(CommitRefusal::NothingToCut);
        }
        Ok(())
    }

    /// The write that begins there is complete. Once all of a stage are, the next stage is submitted; after the last stage the
    /// group is committed. Gives how many changes are then committed. Takes no memory.
    pub fn completed(&mut self, at: u32) -> Result<u64, CommitRefusal>
        ensures { MatchOption (piece_at self.old.device.in_flight at) ((result ≡ Err NoSuchWrite) × (self.new ≡ self.old))
            (λ p. (result ≡ Ok self.new.committed) × (self.new ≡ completed self.old at)) }
    {
        if self.device.complete(at).is_err() {
            return Err(CommitRefusal::NoSuchWrite);
        }
        if self.device.quiet() {
            if self.stages.is_empty() {
                self.half = self.next_half;
                self.gate = self.next_gate;
                self.committed = self.next_committed;
            } else {
                let stage = self.stages.remove(0);
                self.device.send(stage);
            }
        }
        Ok(self.committed)
    }

    /// The write that begins there has failed. From then on nothing is submitted or committed.
    /// NoSuchWrite comes before OutOfMemory.
    pub fn failed(&mut self, at: u32) -> Result<(), CommitRefusal>
        ensures ok { OnOk result (self.new ≡ failed self.old at) }
        ensures err { OnErr result (self.new ≡ self.old) }
        ensures refused { IsErrOf result NoSuchWrite ↔ (piece_at self.old.device.in_flight at ≡ None) }
        ensures cause { IfErr result (λ e. (e ≡ NoSuchWrite) ⊎ (e ≡ OutOfMemory)) }
    {
        match self.device.fail(at) {
            Ok(()) => Ok(()),
            Err(DiskRefusal::NoSuchWrite) => Err(CommitRefusal::NoSuchWrite),
            Err(_) => Err(CommitRefusal::OutOfMemory),
        }
    }

    /// The disk that a crash leaves for a fill, as `SimDisk::crash` makes it. Takes no memory.
    pub fn crash(self, fill: &[u8]) -> SimDisk
        ensures { result ≡ quiet (crashed self.device fill.now) }
    {
        let Committer {
            device,
            stages: _stages,
            half: _,
            gate: _,
            committed: _,
            next_half: _,
            next_gate: _,
            next_committed: _,
        } = self;
        device.crash(fill)
    }

    /// The disk that a crash would leave now for a fill, as `SimDisk::after_crash` makes it.
    pub fn after_crash(&self, fill: &[u8]) -> Result<SimDisk, AllocError>
        ensures { IfOk result (λ d. d ≡ quiet (crashed self.now.device fill.now)) }
    {
        self.device.after_crash(fill)
    }

    /// Begins a group of the first 64 of these changes, or of all where there are fewer. Gives how many changes it will commit, and
    /// how many writes that takes. Where its record does not fit into the half, a checkpoint of all files begins instead, and
    /// commits all changes. The changes are all uncommitted ones, in order, and the files those that all changes made. All memory
    /// of the writes is taken here. Refused first DiskFailed, then GroupInFlight, NothingToCut, Budget (a u64 does not count the
    /// changes), and last OutOfMemory.
    pub fn cut(
        &mut self,
        alloc: Global,
        changes: &[Change],
        files: &FileTable,
    ) -> Result<(u64, u64), CommitRefusal>
        requires possible { IsMade files.now.living }
        requires formed { AllByRecursion IsFormed changes.now }
        ensures ok { OnOk result (self.new ≡ cut self.old changes.now files.now.living) }
        ensures changes { IfOk result (λ r. self.new.next_committed ≡ self.old.committed + r.0) }
        ensures writes { IfOk result (λ r. r.1 ≡ length self.new.device.in_flight + length_all self.new.stages) }
        ensures err { OnErr result (self.new ≡ self.old) }
        ensures refused { MatchResult (cut_test self.old changes.now) (λ _. IfErr result (λ e. e ≡ last_refusal self.old changes.now)) (λ e. result ≡ Err e) }
        ensures counted { OnOk result (self.old.committed + length changes.now < 2 ^ 64) }
    {
        self.may_cut(changes)?;
        if !self.can_count(changes) {
            return Err(CommitRefusal::Budget);
        }
        let plan = self.plan(alloc, changes, files)?;
        let counts = (plan.count, plan.writes);
        self.start(plan);
        Ok(counts)
    }

    /// Whether a u64 counts the changes that are committed with these.
    fn can_count(&self, changes: &[Change]) -> bool
        ensures { result ≡ nat_lt (self.now.committed + length changes.now) (2 ^ 64) }
    {
        self.committed.checked_add(changes.len() as u64).is_some()
    }

    /// What a cut of these changes does: a group where its record fits, else a checkpoint.
    fn plan(
        &self,
        alloc: Global,
        changes: &[Change],
        files: &FileTable,
    ) -> Result<CutPlan, CommitRefusal>
        requires possible { IsMade files.now.living }
        requires formed { AllByRecursion IsFormed changes.now }
        requires counted { self.now.committed + length changes.now < 2 ^ 64 }
        ensures ok { IfOk result (Begins self.now (group_or_checkpoint self.now changes.now files.now.living)) }
        ensures cause { IfErr result (λ e. e ≡ OutOfMemory) }
    {
        let group = first_changes(changes);
        let body = body_of(alloc, group)?;
        if self.fits(&body) {
            return self.group_plan(alloc, group, &body);
        }
        checkpoints_fit();
        let all = rebuild(alloc, files)?;
        self.checkpoint_plan(alloc, changes.len(), &all)
    }

    /// Whether a record of this body, and the gate after it, fit into the half in use.
    fn fits(&self, body: &[u8]) -> bool
        ensures { result ≡ nat_lt (self.now.gate + 5 + length body.now) (end_of self.now.half) }
    {
        self.gate as usize + 5 + body.len() < half_end(self.half) as usize
    }

    /// How many changes are committed with so many more.
    fn raised(&self, count: usize) -> u64
        requires { self.now.committed + count < 2 ^ 64 }
        ensures { result ≡ self.now.committed + count }
    {
        self.committed + count as u64
    }

    /// Plans a group of these changes, which have this body.
    fn group_plan(
        &self,
        alloc: Global,
        changes: &[Change],
        bytes: &[u8],
    ) -> Result<CutPlan, CommitRefusal>
        requires body { bytes.now ≡ body changes.now }
        requires counted { self.now.committed + length changes.now < 2 ^ 64 }
        requires room { gate_after self.now.gate changes.now < end_of self.now.half }
        ensures ok { IfOk result (Begins self.now (group self.now changes.now)) }
        ensures cause { IfErr result (λ e. e ≡ OutOfMemory) }
    {
        let committed = self.raised(changes.len());
        let first = record_pieces(alloc, self.gate, bytes)?;
        let writes = first.len() as u64 + 1;
        let mut later = Vec::new(alloc);
        later.push(byte_piece(alloc, self.gate, 1)?)?;
        Ok(CutPlan {
            first,
            later,
            writes,
            half: self.half,
            gate: gate_past(self.gate, bytes),
            count: changes.len() as u64,
            committed,
        })
    }

    /// Plans a checkpoint. The changes make all files; `count` changes of the run are committed with it.
    fn checkpoint_plan(
        &self,
        alloc: Global,
        count: usize,
        all: &[Change],
    ) -> Result<CutPlan, CommitRefusal>
        requires formed { AllByRecursion IsFormed all.now }
        requires counted { self.now.committed + count < 2 ^ 64 }
        requires room { gate_after (start_of (not self.now.half)) all.now < end_of (not self.now.half) }
        ensures ok { IfOk result (Begins self.now (checkpoint self.now count all.now)) }
        ensures cause { IfErr result (λ e. e ≡ OutOfMemory) }
    {
        let half = !self.half;
        let gate = first_gate(half);
        let committed = self.raised(count);
        let bytes = body_of(alloc, all)?;
        let pieces = record_pieces(alloc, gate, &bytes)?;
        let writes = pieces.len() as u64 + 3;
        let first = byte_piece(alloc, gate, 0)?;
        let later = checkpoint_stages(alloc, pieces, gate, half)?;
        Ok(CutPlan {
            first,
            later,
            writes,
            half,
            gate: gate_past(gate, &bytes),
            count: count as u64,
            committed,
        })
    }

    /// Submits the plan's first stage, and keeps the others.
    fn start(&mut self, plan: CutPlan)
        requires idle { is_quiet self.old.device ≡ true }
        requires room { HasRoom plan }
        ensures { self.new ≡ planned self.old plan }
    {
        self.device.send(plan.first);
        self.stages = plan.later;
        self.next_half = plan.half;
        self.next_gate = plan.gate;
        self.next_committed = plan.committed;
    }
}

/// The changes of a group: the first 64, or all where there are fewer.
fn first_changes(changes: &[Change]) -> &[Change]
    ensures { result.now ≡ group_of changes.now }
{
    &changes[..changes.len().min(GROUP)]
}

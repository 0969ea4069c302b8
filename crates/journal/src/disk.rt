//! Recovery: which files a disk holds.
ghost use Rattle.std.specs.Prelude.{◌≡◌, ◌≤◌, ◌<◌, ℕ, List, [], drop, take, length, slice_index, IfOk, IfErr, IsOk};
ghost use Rattle.disk_model.specs.declared.change.NamedFile.{NamedFile};
ghost use Rattle.disk_model.specs.Numbers.{numbered};
ghost use Rattle.disk_model.specs.Held.{IsHeldTo, IsHeld, selected_half, start_of, end_of};
ghost use Rattle.journal.specs.Faults.{TellsFault};
ghost use Rattle.journal.specs.declared.fault.DiskFault.TheVariants.{OutOfMemory};

use crate::fault::DiskFault;
use crate::halves::{first_gate, half_end, half_of};
use crate::recovery::records_of;
use files::{FileList, FileTable};
use simdisk::SimDisk;
use std::alloc::Global;

/// The bytes from one place up to another.
fn part(bytes: &[u8], from: usize, to: usize) -> &[u8]
    requires end { to ≤ length bytes.now }
    requires order { from ≤ to }
    ensures { result.now ≡ drop from (take to bytes.now) }
{
    let (prefix, _) = bytes.split_at(to);
    let (_, back) = prefix.split_at(from);
    back
}

/// The files that these bytes of a disk hold, and the place of the first gate in the selected half that is not open.
fn read(alloc: Global, bytes: &[u8]) -> Result<(FileList, u32), DiskFault>
    requires { length bytes.now ≡ 2097152 }
    ensures found { IfOk result (λ x. IsHeldTo bytes.now x.1 x.0) }
    ensures gate { let h = selected_half (slice_index bytes.now 0) in IfOk result (λ x. (start_of h ≤ x.1) × (x.1 < end_of h)) }
    ensures only { (gate : ℕ) (files : List NamedFile) → IsHeldTo bytes.now gate files → IfErr result (λ e. e ≡ OutOfMemory) }
    ensures fault { IfErr result (TellsFault bytes.now) }
    ensures closed { (slice_index bytes.now (start_of (selected_half (slice_index bytes.now 0))) ≡ 1 → ⊥) → IsOk result }
    ensures none { (slice_index bytes.now (start_of (selected_half (slice_index bytes.now 0))) ≡ 1 → ⊥) → IfOk result (λ x. x.0 ≡ []) }
{
    let half = half_of(bytes[0]);
    let end = half_end(half) as usize;
    let (files, rest) = records_of(alloc, part(bytes, first_gate(half) as usize, end))?;
    Ok((files, (end - rest.len()) as u32))
}

/// Recovers the files that a disk holds, numbered by their places as a run begins. Beside them it gives the place of the first gate
/// in the selected half that is not open, where the log goes on.
pub fn open(alloc: Global, device: &SimDisk) -> Result<(FileTable, u32), DiskFault>
    // What is found is held.
    ensures found { IfOk result (λ x. IsHeldTo device.now.disk x.1 x.0.living) }
    ensures gate { let h = selected_half (slice_index device.now.disk 0) in IfOk result (λ x. (start_of h ≤ x.1) × (x.1 < end_of h)) }
    // Their numbers are their places.
    ensures numbered { IfOk result (λ x. x.0 ≡ numbered x.0.living) }
    // Where files are held, only want of memory is a refusal.
    ensures only { (gate : ℕ) (files : List NamedFile) → IsHeldTo device.now.disk gate files → IfErr result (λ e. e ≡ OutOfMemory) }
    // A fault is the first one.
    ensures fault { IfErr result (TellsFault device.now.disk) }
    // Where the first gate is not open, no memory is taken.
    ensures closed { (slice_index device.now.disk (start_of (selected_half (slice_index device.now.disk 0))) ≡ 1 → ⊥) → IsOk result }
{
    let (files, gate) = read(alloc, device.bytes())?;
    Ok((FileTable::numbered(alloc, files)?, gate))
}

/// Recovers the files that a disk holds, numbered by their places as a run begins. It reads the completed bytes; writes in flight
/// are not looked at.
pub fn recover(alloc: Global, device: &SimDisk) -> Result<FileTable, DiskFault>
    // What is found is held.
    ensures found { IfOk result (λ t. IsHeld device.now.disk t.living) }
    // Their numbers are their places.
    ensures numbered { IfOk result (λ t. t ≡ numbered t.living) }
    // Where files are held, only want of memory is a refusal.
    ensures only { (files : List NamedFile) → IsHeld device.now.disk files → IfErr result (λ e. e ≡ OutOfMemory) }
    // A fault is the first one.
    ensures fault { IfErr result (TellsFault device.now.disk) }
    // Where the first gate is not open, no memory is taken.
    ensures closed { (slice_index device.now.disk (start_of (selected_half (slice_index device.now.disk 0))) ≡ 1 → ⊥) → IsOk result }
{
    let (files, _) = open(alloc, device)?;
    Ok(files)
}

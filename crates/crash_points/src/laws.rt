//! Laws of what recovery reads.
ghost use Rattle.std.specs.Prelude.{ℕ, List, ◌++◌};
ghost use Rattle.disk_model.specs.declared.change.NamedFile.{NamedFile};
ghost use Rattle.disk_model.specs.Crash.{InRange, IsCrashOf};
ghost use Rattle.disk_model.specs.Held.{IsHeldTo};
ghost use Rattle.disk_model.specs.Storage.{Device};
ghost use Rattle.crash_points.specs.Readings.{AreReadAlike, IsPassedOver};

/// A law: disks hold the same files, up to the same gate, if they are the same where recovery reads. That gate may have another byte, if
/// it is not open by that either.
pub fn files_stand_before_the_gate()
    ensures { (disk other : List ℕ) (gate : ℕ) (files : List NamedFile) → IsHeldTo disk gate files → AreReadAlike disk other gate
        → IsHeldTo other gate files }
{}

/// A law: where recovery reads no place at which a write is in flight or has failed, a crash leaves the files that the disk holds.
pub fn crashes_elsewhere_leave_the_files()
    ensures { (v : Device) (left : List ℕ) (gate : ℕ) (files : List NamedFile) → IsHeldTo v.disk gate files → IsCrashOf v left
        → ((place : ℕ) → InRange (v.in_flight ++ v.failed) place → IsPassedOver v.disk gate place) → IsHeldTo left gate files }
{}

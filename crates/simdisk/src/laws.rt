//! Laws of crashes.
ghost use Rattle.std.specs.Prelude.{◌≡◌, ◌<◌, ℕ, List};
ghost use Rattle.std.specs.List.{AllByRecursion};
ghost use Rattle.disk_model.specs.Storage.{Device};
ghost use Rattle.disk_model.specs.Crash.{IsCrashOf};
ghost use Rattle.simdisk.specs.Room.{crashed};

/// A law: what `crash` leaves for a fill is a disk that a crash may leave.
pub fn fills_are_crashes()
    ensures { (v : Device) (fill : List ℕ) → IsCrashOf v (crashed v fill) }
{}

/// A law: each disk of bytes that a crash may leave is what `crash` leaves for some fill of bytes.
pub fn crashes_are_fills()
    ensures { (v : Device) (left : List ℕ) → IsCrashOf v left → AllByRecursion (λ b. b < 256) left
        → (fill : List ℕ) × AllByRecursion (λ b. b < 256) fill × (crashed v fill ≡ left) }
{}

//! How a core is booted.
ghost use Rattle.std.specs.Prelude.{List, ◌≡◌, ◌≤◌, ◌<◌, [], true, length, map, IfOk, IfErr};
ghost use Rattle.std.specs.List.{AllByRecursion};
ghost use Rattle.disk_model.specs.declared.change.NamedFile.{NamedFile};
ghost use Rattle.disk_model.specs.Held.{IsHeld};
ghost use Rattle.disk_model.specs.Storage.{is_quiet};
ghost use Rattle.kernel_model.specs.World.{HoldsItsFiles, most_programs, tape_count, terminal_count};
ghost use Rattle.kernel_model.specs.Bytes.{ProgramsHoldBytes, TapesHoldBytes};
ghost use Rattle.kernel_step.specs.Booting.{program_of, nothing_lent};
ghost use Rattle.kernel.specs.Booting.{TellsBootFault, boot_fault, number_of};
ghost use Rattle.kernel.specs.declared.boot.BootFault.TheVariants.{OutOfMemory};

use crate::cores::{Booted, Core};
use crate::sums::Sums;
use byte_list::Bytes;
use disk_model::held_files_are_made;
use group_commit::Committer;
use journal::DiskFault;
use kernel_step::{Program, Running};
use simdisk::SimDisk;
use std::alloc::{AllocError, Global};
use std::sync::Arc;
use thiserror::Error;

/// Why a boot is refused.
#[derive(Clone, Copy, Debug, PartialEq, Eq, Error)]
pub enum BootFault {
    /// The disk cannot be read: its first fault, which is not want of memory.
    #[error("the disk cannot be read: {0}")]
    Disk(DiskFault),
    #[error("out of memory")]
    OutOfMemory,
}

impl BootFault {
    /// Its number, 1 to 4: that of the disk's fault.
    pub fn number(self) -> u8
        ensures { result ≡ number_of self }
    {
        match self {
            BootFault::Disk(fault) => fault.number(),
            BootFault::OutOfMemory => DiskFault::OutOfMemory.number(),
        }
    }
}

impl From<AllocError> for BootFault {
    ghost from_gives = { λ _ e. e ≡ OutOfMemory };

    fn from(_error: AllocError) -> BootFault {
        BootFault::OutOfMemory
    }
}

impl From<DiskFault> for BootFault {
    ghost from_gives = { λ fault e. e ≡ boot_fault fault };

    fn from(fault: DiskFault) -> BootFault {
        match fault {
            DiskFault::OutOfMemory => BootFault::OutOfMemory,
            fault => BootFault::Disk(fault),
        }
    }
}

impl Core {
    /// Boots 1 to 8 programs, which are processes 1 and up, with the tapes that they read (the first has tape 0) and the files that
    /// the disk holds. Refused for want of memory, and where the disk cannot be read, by its first fault. A disk that a crash or
    /// the end of a run left is refused for want of memory alone.
    ///
    /// On the device nothing is in flight and nothing has failed. `SimDisk::quiet` tests it; `SimDisk::zero`, `SimDisk::open` and
    /// `halt` give such devices.
    ///
    /// The boot meets all three premises under which `kernel_laws::headline` speaks of crashes: the disk holds its files, and the
    /// memory of each program and each tape hold bytes.
    pub fn boot(
        alloc: Global,
        mut device: SimDisk,
        programs: Vec<Program>,
        tapes: Vec<Bytes>,
    ) -> Result<Core, BootFault>
        requires some { 1 ≤ length programs.items }
        requires few { length programs.items ≤ most_programs }
        requires terminals { AllByRecursion (λ p. p.terminal < terminal_count) programs.items }
        requires few_tapes { length tapes.items ≤ tape_count }
        requires quiet { is_quiet device ≡ true }
        ensures programs { IfOk result (λ core. core.boot.programs ≡ map program_of programs.items) }
        ensures given_tapes { IfOk result (λ core. core.boot.tapes ≡ tapes.items) }
        ensures disk { IfOk result (λ core. core.boot.disk ≡ device.disk) }
        ensures history { IfOk result (λ core. core.history ≡ []) }
        ensures lendings { IfOk result (λ core. core.lendings ≡ map nothing_lent programs.items) }
        ensures last_lent { IfOk result (λ core. core.last_lent ≡ 0) }
        ensures held { IfOk result (λ core. HoldsItsFiles core.boot) }
        ensures bytes { IfOk result (λ core. ProgramsHoldBytes core.boot) }
        ensures tapes { IfOk result (λ core. TapesHoldBytes core.boot) }
        ensures fault { IfErr result (TellsBootFault device.disk) }
        ensures only { (files : List NamedFile) → IsHeld device.disk files → IfErr result (λ why. why ≡ OutOfMemory) }
    {
        held_files_are_made();
        let (files, gate) = journal::open(alloc, &device)?;
        let held = files.list().try_clone()?;
        let disk = device.share()?;
        let tapes = share(alloc, tapes)?;
        let shared = Arc::try_clone(&tapes)?;
        let committer = Committer::new(alloc, device, gate);
        let running = Running::new(alloc, &programs, shared, files, committer)?;
        let booted = share(
            alloc,
            Booted {
                programs,
                tapes,
                files: held,
                disk,
                gate,
            },
        )?;
        let sums = Sums {
            turns: 0,
            enters: 0,
        };
        Ok(Core {
            booted,
            running,
            sums,
        })
    }
}

fn share<T: Drop>(alloc: Global, value: T) -> Result<Arc<T>, AllocError>
    ensures { IfOk result (λ shared. shared.value ≡ value) }
{
    Ok(Arc::new(alloc, value)?)
}

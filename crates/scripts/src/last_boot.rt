//! `LastBoot`: boots a script again and again on one disk, as for the runs of a cone.
ghost use Rattle.std.specs.Prelude.{◌≡◌, true, IfOk, IfSome};
ghost use Rattle.disk_model.specs.Storage.{is_quiet};

use crate::launch::Launch;
use crate::playing::Visitor;
use faults::Fault;
use kernel::{Core, SimDisk};
use std::alloc::{AllocError, Global};

/// A launch, and the disk of its last boot, None for the first one's. It boots on this disk any number of times. As a visitor it plays a
/// script up to its last boot, and does nothing beside.
pub struct LastBoot<'a> {
    pub alloc: Global,
    launch: &'a Launch,
    left: Option<SimDisk>,
}

impl Drop for LastBoot<'_> {
    fn drop(self) {
        let LastBoot {
            alloc: _,
            launch: _,
            left: _left,
        } = self;
    }
}

/// A disk with the same bytes, to be booted on.
fn copy_of(left: &Option<SimDisk>) -> Result<Option<SimDisk>, AllocError>
    ensures { IfOk result (λ copy. IfSome copy (λ device. is_quiet device ≡ true)) }
{
    match left {
        Some(device) => Ok(Some(device.after_crash(b"")?)),
        None => Ok(None),
    }
}

impl<'a> LastBoot<'a> {
    /// Before the first boot.
    pub fn new(alloc: Global, launch: &'a Launch) -> LastBoot<'a> {
        LastBoot {
            alloc,
            launch,
            left: None,
        }
    }

    /// Boots, on a copy of the disk of the last boot.
    pub fn boot(&self) -> Result<Core, Fault> {
        self.launch.boot(self.alloc, copy_of(&self.left)?)
    }
}

impl Visitor for LastBoot<'_> {
    type Fault = Fault;

    fn crash(&mut self, core: Core, fill: &[u8]) -> Result<Core, Fault> {
        self.left = Some(core.halt(fill));
        self.boot()
    }
}

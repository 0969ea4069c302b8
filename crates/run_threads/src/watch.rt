//! `Watch`: whether the work of a run is over, and its first fault. The threads of the run share it.
use crate::fault::RunFault;
use std::sync::atomic::{AtomicBool, Ordering};
use std::sync::{Mutex, Wait};

/// Whether the work of a run is over, and the first fault that came.
#[derive(Drop)]
pub struct Watch {
    over: AtomicBool,
    fault: Mutex<Option<RunFault>>,
}

impl Watch {
    /// The work is not over, and no fault came.
    pub fn new() -> Watch {
        Watch {
            over: AtomicBool::new(false),
            fault: Mutex::new(None),
        }
    }

    /// Says that no worker works any more.
    pub fn end(&self) {
        self.over.store(true, Ordering::SeqCst);
    }

    /// Whether no worker works any more.
    pub fn is_over(&self) -> bool {
        self.over.load(Ordering::SeqCst)
    }

    /// Keeps a fault, unless one came before it.
    pub fn note<R: Wait>(&self, rt: &R, fault: RunFault) {
        let mut first = self.fault.lock(rt);
        if first.is_none() {
            *first = Some(fault);
        }
    }

    /// The first fault, if one came.
    pub fn result(self) -> Result<(), RunFault> {
        match self.fault.into_inner() {
            Some(fault) => Err(fault),
            None => Ok(()),
        }
    }
}

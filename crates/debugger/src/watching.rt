//! Bytes that are watched.
ghost use Rattle.std.specs.Prelude.{◌≡◌};
ghost use Rattle.debugger.specs.Watches.{is_met as meets, sees as sees_kind, shares};

use crate::access::{Access, AccessKind};

/// The accesses that meet a watch.
#[derive(Clone, Copy, PartialEq, Eq)]
pub enum WatchKind {
    Stores,
    Loads,
    Both,
}

impl WatchKind {
    /// Whether accesses of a kind meet a watch.
    fn sees(self, kind: AccessKind) -> bool
        ensures { result ≡ sees_kind self kind }
    {
        match kind {
            AccessKind::Load => !matches!(self, WatchKind::Stores),
            AccessKind::Store => !matches!(self, WatchKind::Loads),
        }
    }
}

/// Bytes that are watched: so many from an address on.
#[derive(Clone, Copy, PartialEq, Eq)]
pub struct Watch {
    pub kind: WatchKind,
    pub at: u32,
    pub length: u32,
}

impl Watch {
    /// Whether one of so many bytes from an address on is watched.
    fn has(&self, at: u32, length: u64) -> bool
        ensures { result ≡ shares self.now at length }
    {
        let first = u64::from(self.at.max(at));
        let end = u64::from(self.at).saturating_add(u64::from(self.length));
        first < end && first < u64::from(at).saturating_add(length)
    }

    /// Whether an access meets it.
    pub fn is_met(&self, access: &Access) -> bool
        ensures { result ≡ meets self.now access.now }
    {
        self.kind.sees(access.kind) && self.has(access.at, access.length)
    }
}

//! Bytes that others may read until they are written to.
ghost use Rattle.std.specs.Prelude.{◌≡◌, ◌+◌, ◌≤◌, length, option_map, vec_len, vec_capacity, IfOk, IfSome};
ghost use Rattle.disk_model.specs.Storage.{overwritten};
ghost use Rattle.simdisk.specs.Room.{crashed};
ghost use Rattle.simdisk.specs.Shared.{bytes_in};

use crate::ranges::{leave_crashed, overwrite};
use disk_model::Piece;
use std::alloc::{AllocError, Global};
use std::marker::Model;
use std::mem;
use std::sync::Arc;

/// Bytes that others may read. Where others still do, they are copied before they are written to. The copy takes no memory: `share`
/// and `try_clone` take the room for it, which nothing fills before.
pub struct SharedBytes {
    /// The bytes; where they are shared, room for them.
    own: Vec<u8>,
    shared: Option<Arc<Vec<u8>>>,
}

impl Drop for SharedBytes {
    fn drop(self) {
        let SharedBytes {
            own: _own,
            shared: _shared,
        } = self;
    }
}

impl Model for SharedBytes {
    ghost use Rattle.std.specs.Prelude.{◌≡◌, ◌≤◌, ℕ, List, length, option_map, vec_len, vec_capacity, IfSome};
    ghost use Rattle.simdisk.specs.Shared.{bytes_in};

    ghost Value = { List ℕ };

    ghost view = { λ b. bytes_in b.own.items (option_map (λ s. s.value.items) b.shared) };

    ghost invariant = { λ b. IfSome b.shared (λ s. (vec_len b.own ≡ 0) × (length s.value.items ≤ vec_capacity b.own)) };
}

/// The room for shared bytes becomes these bytes: they themselves, or a copy where others still read them. Takes no memory.
fn unshare(own: &mut Vec<u8>, shared: Option<Arc<Vec<u8>>>)
    requires { IfSome shared (λ s. (vec_len own.old ≡ 0) × (length s.value.items ≤ vec_capacity own.old)) }
    ensures { own.new.items ≡ bytes_in own.old.items (option_map (λ s. s.value.items) shared) }
{
    let Some(shared) = shared else {
        return;
    };
    match Arc::try_unwrap(shared) {
        Ok(bytes) => *own = bytes,
        Err(shared) => own.extend_from_slice(&shared).unwrap(),
    }
}

impl SharedBytes {
    /// Bytes that nobody else reads.
    pub fn new(bytes: Vec<u8>) -> SharedBytes
        ensures { result ≡ bytes.items }
    {
        SharedBytes {
            own: bytes,
            shared: None,
        }
    }

    /// The bytes.
    pub fn as_slice(&self) -> &[u8]
        ensures { result.now ≡ self.now }
    {
        match &self.shared {
            Some(shared) => shared.as_slice(),
            None => &self.own,
        }
    }

    /// The bytes as they stand now, for others to read. Where memory runs out they are as they were.
    pub fn share(&mut self, alloc: Global) -> Result<Arc<Vec<u8>>, AllocError>
        ensures same { self.new ≡ self.old }
        ensures share { IfOk result (λ share. share.value.items ≡ self.old) }
    {
        if let Some(shared) = &self.shared {
            return Arc::try_clone(shared);
        }
        let room = Vec::with_capacity(alloc, self.own.len())?;
        let bytes = mem::replace(&mut self.own, room);
        match Arc::new(alloc, bytes) {
            Ok(shared) => {
                let share = Arc::try_clone(&shared);
                self.shared = Some(shared);
                share
            }
            Err(failed) => {
                self.own = failed.value;
                Err(AllocError)
            }
        }
    }

    /// The same bytes. Those that are shared are not copied here.
    pub fn try_clone(&self, alloc: Global) -> Result<SharedBytes, AllocError>
        ensures { IfOk result (λ copy. copy ≡ self.now) }
    {
        match &self.shared {
            Some(shared) => Ok(SharedBytes {
                own: Vec::with_capacity(alloc, shared.len())?,
                shared: Some(Arc::try_clone(shared)?),
            }),
            None => Ok(SharedBytes {
                own: self.own.to_vec(alloc)?,
                shared: None,
            }),
        }
    }

    /// Writes bytes over those from place `at` on. Takes no memory.
    pub fn overwrite(&mut self, at: usize, bytes: &[u8])
        requires { at + length bytes.now ≤ length self.old }
        ensures bytes { self.new ≡ overwritten self.old at bytes.now }
        ensures size { length self.new ≡ length self.old }
    {
        unshare(&mut self.own, self.shared.take());
        overwrite(&mut self.own, at, bytes);
    }

    /// Leaves the bytes as a crash leaves them for this fill. Takes no memory.
    pub fn leave_crashed(&mut self, in_flight: &[Piece], failed: &[Piece], fill: &[u8])
        ensures bytes { self.new ≡ crashed (record { disk = self.old; in_flight = in_flight.now; failed = failed.now }) fill.now }
        ensures size { length self.new ≡ length self.old }
    {
        unshare(&mut self.own, self.shared.take());
        leave_crashed(&mut self.own, in_flight, failed, fill);
    }
}

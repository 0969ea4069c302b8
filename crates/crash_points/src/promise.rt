//! What a run had promised when a crash came.
ghost use Rattle.std.specs.Prelude.{◌≡◌, ◌≤◌, ◌↔◌, ◌++◌, IfOk, IsTrue, length, true};
ghost use Rattle.kernel_model.specs.Answers.{now};
ghost use Rattle.kernel_model.specs.Shown.{shown as shown_of, printed as given_to};
ghost use Rattle.kernel_model.specs.Views.{contents};

use crate::digests::digest_of;
use byte_list::Bytes;
use input_reading::MOST_TAPE_BYTES;
use kernel::Core;
use std::alloc::{AllocError, Global};
use std::marker::Model;

/// What a run had promised on terminal 0, in this boot and in those before.
#[derive(Drop)]
pub struct Promise {
    shown: Vec<u8>,
    /// What tells it from others.
    pub digest: String,
}

impl Model for Promise {
    ghost use Rattle.std.specs.Prelude.{List, ℕ};

    ghost Value = { List ℕ };

    ghost view = { λ t. t.shown.items };
}

/// Whether bytes are these two parts, one after the other.
fn is_joined(whole: &[u8], first: &[u8], second: &[u8]) -> bool
    ensures { result ≡ true → whole.now ≡ first.now ++ second.now }
{
    match whole.strip_prefix(first) {
        Some(rest) => rest == second,
        None => false,
    }
}

impl Promise {
    /// What earlier boots showed, and then these bytes.
    pub fn new(alloc: Global, earlier: &[u8], now: &[u8]) -> Result<Promise, AllocError>
        ensures { IfOk result (λ promise. promise ≡ earlier.now ++ now.now) }
    {
        let mut shown = Vec::from_slice(alloc, earlier)?;
        shown.extend_from_slice(now)?;
        let digest = digest_of(alloc, &[shown.as_slice()])?;
        Ok(Promise { shown, digest })
    }

    /// The promise of a run so far: what earlier boots showed, and what is shown.
    pub fn of(alloc: Global, earlier: &[u8], core: &Core) -> Result<Promise, AllocError>
        ensures { IfOk result (λ promise. promise ≡ earlier.now ++ shown_of (now core.now) 0) }
    {
        Promise::new(alloc, earlier, core.shown(0))
    }

    /// Whether it is that of a run so far, as `of` makes it.
    pub fn is_of(&self, earlier: &[u8], core: &Core) -> bool
        ensures { result ≡ true → self.now ≡ earlier.now ++ shown_of (now core.now) 0 }
    {
        is_joined(self.shown.as_slice(), earlier, core.shown(0))
    }

    /// The promise of a run whose output waits for nothing: what earlier boots showed, and all that was printed.
    pub fn printed(alloc: Global, earlier: &[u8], core: &Core) -> Result<Promise, AllocError>
        ensures { IfOk result (λ promise. promise ≡ earlier.now ++ contents (given_to 0 (now core.now).log)) }
    {
        Promise::new(alloc, earlier, core.written(0))
    }

    /// These bytes.
    pub fn of_bytes(alloc: Global, shown: &[u8]) -> Result<Promise, AllocError>
        ensures { IfOk result (λ promise. promise ≡ shown.now) }
    {
        Promise::new(alloc, &[], shown)
    }

    /// The same, in memory of its own.
    pub fn try_clone(&self, alloc: Global) -> Result<Promise, AllocError>
        ensures { IfOk result (λ promise. promise ≡ self.now) }
    {
        Ok(Promise {
            shown: Vec::from_slice(alloc, self.shown.as_slice())?,
            digest: String::from_str(alloc, self.digest.as_str())?,
        })
    }

    /// Whether a tape can hold it.
    pub fn fits(&self) -> bool
        ensures { IsTrue result ↔ length self.now ≤ 65536 }
    {
        self.shown.len() <= MOST_TAPE_BYTES
    }

    /// The tape of a recovery.
    pub fn tape(&self, alloc: Global) -> Result<Bytes, AllocError>
        ensures { IfOk result (λ tape. tape ≡ self.now) }
    {
        Bytes::copy_of(alloc, self.shown.as_slice())
    }
}

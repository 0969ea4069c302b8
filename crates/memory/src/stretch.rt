//! Bytes that stand together in one run.
ghost use Rattle.std.specs.Prelude.{◌≡◌, ◌+◌, ◌^◌, ◌<◌, ◌≤◌, None, IfNone, IfSome, length};
ghost use Rattle.std.specs.FinMap.{get};
ghost use Rattle.memory.specs.Access.{Stand};

use crate::part::WORDS;
use crate::place::{next_start_shared, part_of};
use crate::space::Space;
use memory_model::Rights;

impl Space {
    /// The bytes from an address on that stand in one run before another run begins, at most `most`, with their rights. None where
    /// there is no page.
    pub(crate) fn stretch(&self, at: u64, most: usize) -> Option<(&[u8], Rights)>
        requires { 0 < most }
        ensures bytes { IfSome result (λ s. Stand self.now at s.0.now s.1) }
        ensures some { IfSome result (λ s. 0 < length s.0.now) }
        ensures most { IfSome result (λ s. length s.0.now ≤ most) }
        ensures within { IfSome result (λ s. at + length s.0.now ≤ 2 ^ 32) }
        ensures missing { IfNone result (get self.now at ≡ None) }
    {
        let (own, shared) = (&self.own, self.shared.as_slice());
        let at = u32::try_from(at).ok()?;
        let (part, write) = part_of(own, shared, at / 4)?;
        let end = next_start_shared(shared, at / 4, own.next_start(at / 4, WORDS));
        let rights = Rights {
            read: part.read,
            write,
            execute: part.execute,
        };
        Some((part.bytes(at, end, most), rights))
    }
}

//! A space as it was at a moment.
ghost use Rattle.std.specs.Prelude.{◌≡◌, IfOk, map};

use crate::cloning::shares_of;
use crate::kept_parts::KeptParts;
use crate::part::Part;
use crate::space::Space;
use std::alloc::{AllocError, Global};
use std::marker::Model;
use std::sync::Arc;

/// A space as it was at a moment: a snapshot. It shares with the snapshot kept before it each page whose bytes were the same then.
/// With the space it shares the pages that may not be written.
pub struct KeptSpace {
    own: KeptParts,
    shared: Vec<Arc<Part>>,
}

impl Drop for KeptSpace {
    fn drop(self) {
        let KeptSpace {
            own: _own,
            shared: _shared,
        } = self;
    }
}

impl Model for KeptSpace {
    ghost use Rattle.std.specs.Prelude.{map};
    ghost use Rattle.memory_model.specs.Memory.{Memory, memory_code};
    ghost use Rattle.memory.specs.Words.{memory_of_words};
    ghost use Rattle.memory.specs.Pages.{words_of};

    ghost Value = { Memory };

    ghost coded = { memory_code };

    ghost view = { λ s. memory_of_words (words_of s.own (map (λ a. a.value) s.shared.items)) };
}

impl Space {
    /// This space as it is now. Of the pages that may be written it copies only those whose bytes differ from the same page of
    /// `before`.
    pub fn keep(&self, alloc: Global, before: Option<&KeptSpace>) -> Result<KeptSpace, AllocError>
        ensures { IfOk result (λ k. k ≡ self.now) }
    {
        Ok(KeptSpace {
            own: self.own.keep(alloc, before.map(|kept| &kept.own))?,
            shared: shares_of(alloc, self.shared.as_slice())?,
        })
    }
}

impl KeptSpace {
    /// A space as it was then. Pages that may be written are copied, the others shared.
    pub fn space(&self, alloc: Global) -> Result<Space, AllocError>
        ensures { IfOk result (λ s. s ≡ self.now) }
    {
        Ok(Space {
            own: self.own.parts(alloc)?,
            shared: shares_of(alloc, self.shared.as_slice())?,
        })
    }

    /// How many blocks of 256 bytes it holds that nothing else does. Right after it was kept these are the blocks that were copied for
    /// it; the others it shares. A measure of memory, of which no clause says anything.
    pub fn own_blocks(&self) -> usize {
        self.own.own_blocks()
    }
}

//! The keys of the states that were found.
ghost use Rattle.std.specs.Prelude.{◌≡◌, ◌||◌, not, IfOk, OnOk};
ghost use Rattle.std.specs.HashSet.{IsEmpty};
ghost use Rattle.state_search.specs.declared.key.Key.{Key};
ghost use Rattle.state_search.specs.Keys.{has, is_same};

use crate::key::Key;
use std::alloc::{AllocError, Global};
use std::collections::HashSet;

/// Keys, each once.
pub struct Keys {
    pub set: HashSet<Key>,
}

impl Drop for Keys {
    fn drop(self) {
        let Keys { set: _set } = self;
    }
}

impl Keys {
    /// No keys. Takes no memory.
    pub fn new(alloc: Global) -> Keys
        ensures { IsEmpty result.set }
    {
        Keys {
            set: HashSet::new(alloc),
        }
    }

    /// Adds a key that is not there yet, and says whether it was new.
    pub fn add(&mut self, key: Key) -> Result<bool, AllocError>
        ensures new { IfOk result (λ is_new. is_new ≡ not (has self.old.set key)) }
        ensures added { OnOk result ((k : Key) → has self.new.set k ≡ (is_same key k || has self.old.set k)) }
    {
        let is_new = self.set.insert(key)?;
        Ok(is_new)
    }
}

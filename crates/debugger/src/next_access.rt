//! What comes next loads or stores.
ghost use Rattle.std.specs.Prelude.{◌≡◌};
ghost use Rattle.debugger.specs.Accesses.{next_access_of};
ghost use Rattle.debugger.specs.Ways.{traced_at};

use crate::access::{Access, access_at, stored_by};
use crate::place::Place;
use machine::Reply;

impl Place {
    /// What the next instruction loads or stores, or the reply to the call at which the machine stands. None where something keeps
    /// the machine from going on.
    pub fn next_access(&self, replies: &[Reply]) -> Option<Access>
        ensures { result ≡ next_access_of (traced_at replies.now self.now) }
    {
        if self.halt(replies).is_some() {
            return None;
        }
        match self.machine.stopped() {
            None => access_at(&self.machine),
            Some(_) => match replies.get(self.taken) {
                Some(reply) => stored_by(reply),
                None => None,
            },
        }
    }
}
